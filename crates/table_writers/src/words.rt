// Fields of four bytes, the highest byte first.
ghost use Rattle.std.specs.Prelude.{◌≡◌, [], ◌∷◌, ◌+◌, ◌≤◌, length};
ghost use Rattle.std.proofs.lemmas.List.Edits.{sets};
ghost use Rattle.table_writers.specs.Words.{word, words};

pub fn put_word(out: &mut [u8], at: usize, v: u32)
    requires { at + 4 ≤ length out.old }
    ensures { out.new ≡ sets out.old at (word v) }
{
    out[at] = (v / 16777216 % 256) as u8;
    out[at + 1] = (v / 65536 % 256) as u8;
    out[at + 2] = (v / 256 % 256) as u8;
    out[at + 3] = (v % 256) as u8;
}

// What both bodies begin with: version 0 and flags, grouping type, count.
pub fn put_head(out: &mut [u8], flags: u32, grouping_type: u32, count: u32)
    requires { 12 ≤ length out.old }
    ensures { out.new ≡ sets out.old 0 (words (flags ∷ grouping_type ∷ count ∷ [])) }
{
    put_word(out, 0, flags);
    put_word(out, 4, grouping_type);
    put_word(out, 8, count);
}
