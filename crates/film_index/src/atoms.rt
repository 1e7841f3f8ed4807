// The C interface: headers, children and bodies of atoms.
ghost use Rattle.std.proofs.Math.Option.{none, some};
ghost use Rattle.atom_tree.specs.Atom.{header_at, child_at, body_at};
ghost use Rattle.film_status.specs.Status.{Returns, body_numbers};
ghost use Rattle.film_atoms.specs.Atoms.{end_from, header_numbers, child_numbers};

// out: type, open (0 or 1), total size (0 if open), header length, place of the body.
#[unsafe(no_mangle)]
pub extern "C" fn film_read_atom_header(s: &[u8], at: u64, out: &mut [u64; 5]) -> u32
    ensures { Returns (header_at s.now at) header_numbers out.old out.new result }
{
    film_atoms::film_read_atom_header(s, at, out)
}

// out: place of the next child, then the numbers of the child's header. The parent's end counts where `known` is not 0.
#[unsafe(no_mangle)]
pub extern "C" fn film_next_child(
    s: &[u8],
    at: u64,
    known: u32,
    end: u64,
    out: &mut [u64; 6],
) -> u32
    ensures { Returns (child_at s.now at (end_from known end)) child_numbers out.old out.new result }
{
    film_atoms::film_next_child(s, at, known, end, out)
}

// out: place and length of the body.
#[unsafe(no_mangle)]
pub extern "C" fn film_read_payload(s: &[u8], at: u64, out: &mut [u64; 2]) -> u32
    ensures { Returns (body_at s.now at none) body_numbers out.old out.new result }
{
    film_atoms::film_read_payload(s, at, out)
}

// The same under an envelope of `max_remaining` bytes.
#[unsafe(no_mangle)]
pub extern "C" fn film_read_payload_bounded(
    s: &[u8],
    at: u64,
    max_remaining: u64,
    out: &mut [u64; 2],
) -> u32
    ensures { Returns (body_at s.now at (some max_remaining)) body_numbers out.old out.new result }
{
    film_atoms::film_read_payload_bounded(s, at, max_remaining, out)
}
