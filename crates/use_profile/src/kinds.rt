// The kind of a description index.
ghost use Rattle.std.specs.Prelude.{◌≡◌, ◌≤◌, length};
ghost use Rattle.base_fields.specs.Answer.{given, and_then, input_limit};
ghost use Rattle.base_fields.specs.Fourcc as fourcc_of;
ghost use Rattle.group_sgpd.specs.Head.{ReadWhole};
ghost use Rattle.group_sgpd.specs.Marks.{Marks};
ghost use Rattle.group_entries.specs.Layout.{decode};
ghost use Rattle.listing_theorem.specs.Meaning.{value};
ghost use Rattle.listing_meanings.specs.Meant.{meant_at, InsideAt};
ghost use Rattle.use_profile.specs.Survey.{kind_told, kind_in, is_gap, is_known, is_found};

use super::SampleKind;
use base_fields::bytes_at;
use base_ids::DescriptionIndex;
use group_entries::decode_rap;
use group_sgpd::SgpdHead;
use listing_meanings::{MeaningAt, meaning_at};

// Kinds 0 and 1 together.
pub fn is_gap(kind: SampleKind) -> bool
    ensures { result ≡ is_gap kind }
{
    match kind {
        SampleKind::Outside => true, // kind 0
        SampleKind::Missing => true, // kind 1
        SampleKind::Known => false,
        SampleKind::Unknown => false,
    }
}

// Nothing that rule 4 forbids.
pub fn is_known(kind: SampleKind) -> bool
    ensures { result ≡ is_known kind }
{
    match kind {
        SampleKind::Outside => true,
        SampleKind::Missing => true,
        SampleKind::Known => true,
        SampleKind::Unknown => false,
    }
}

// Nothing that rule 5 forbids.
pub fn is_found(kind: SampleKind) -> bool
    ensures { result ≡ is_found kind }
{
    match kind {
        SampleKind::Outside => true,
        SampleKind::Missing => false,
        SampleKind::Known => true,
        SampleKind::Unknown => true,
    }
}

// The kind of an entry, by its decoder.
fn entry_kind(entry: &[u8]) -> SampleKind
    requires { length entry.now ≤ input_limit }
    ensures { result ≡ kind_told (and_then (decode fourcc_of.rap entry.now) (λ v. given (value v))) }
{
    match decode_rap(entry) {
        Ok(v) => {
            if v.num_leading_samples_known {
                SampleKind::Known
            } else {
                SampleKind::Unknown
            }
        }
        Err(_) => SampleKind::Unknown,
    }
}

// The kind of a meaning.
fn meaning_kind(s: &[u8], meaning: MeaningAt) -> SampleKind
    requires { (length s.now ≤ input_limit) × (InsideAt s.now meaning) }
    ensures { result ≡ kind_told (meant_at fourcc_of.rap s.now meaning) }
{
    match meaning {
        MeaningAt::Outside => SampleKind::Outside,
        MeaningAt::Missing => SampleKind::Missing,
        MeaningAt::Entry(part) => entry_kind(bytes_at(s, part.place, part.size)),
    }
}

// The kind of an index.
pub fn index_kind(
    s: &[u8],
    head: SgpdHead,
    marks: &[u32; 16],
    index: DescriptionIndex,
) -> SampleKind
    requires { (ReadWhole s.now head) × (Marks s.now marks.now) }
    ensures { result ≡ kind_in s.now index.0 }
{
    meaning_kind(s, meaning_at(s, head, marks, index))
}
