// An entry by its number, once the whole payload is read (document 01, part 6).
ghost use Rattle.std.specs.Prelude.{◌≡◌, ◌+◌, ◌≤◌, ◌<◌};
ghost use Rattle.base_fields.specs.Answer.{and_then};
ghost use Rattle.group_sgpd.specs.Sgpd.{entry_at, entry_count_of, span_at, spans, pick, entry_count_place};
ghost use Rattle.base_fields.specs.Span.{GivesPart};
ghost use Rattle.group_sgpd.specs.Told.{told_entry};
ghost use Rattle.group_sgpd.specs.Head.{HeadOf, Among};

use super::head::sgpd_head;
use super::spans::{lengths_by, skip, skip_all, span_at};
use super::{Lengths, SgpdHead};
use base_fields::refusal::Refusal;
use base_fields::{Part, bytes_at};
use base_ids::DescriptionIndex;

pub(crate) fn found_at(
    s: &[u8],
    lengths: Lengths,
    count: u32,
    at: usize,
) -> Result<Option<Part>, Refusal>
    requires among { Among s.now lengths count at }
    requires count_nonzero { 0 < count }
    ensures { told_entry result ≡ span_at s.now at }
{
    span_at(s, lengths, count, at).map(Some)
}

// An entry within the count: those before it, then it and those behind it, so that the bytes are read once.
fn entry_within(s: &[u8], head: SgpdHead, index: DescriptionIndex) -> Result<Option<Part>, Refusal>
    requires head_of { HeadOf s.now head }
    requires index_nonzero { (0 < index.0) × (index.0 ≤ head.entry_count) }
    ensures { told_entry result ≡ and_then (spans (entry_count_of s.now) s.now (entry_count_place s.now + 4)) (λ es. pick es index.0) }
{
    let lengths = lengths_by(head.version, head.grouping_type, head.default_length);
    let count = head.entry_count;
    let before = index.0 - 1;
    let at = skip(s, lengths, count, head.first, before)?;
    skip(s, lengths, count, at, count - before)?;
    found_at(s, lengths, count, at)
}

// A number that is none of the entries'.
fn no_entry(s: &[u8], head: SgpdHead, index: DescriptionIndex) -> Result<Option<Part>, Refusal>
    requires head_of { HeadOf s.now head }
    requires entry_count_bound { 0 < index.0 → head.entry_count < index.0 }
    ensures { told_entry result ≡ and_then (spans (entry_count_of s.now) s.now (entry_count_place s.now + 4)) (λ es. pick es index.0) }
{
    skip_all(s, head)?;
    Ok(None)
}

// The place and the length of an entry, once the whole payload is read.
pub fn entry_place(s: &[u8], index: DescriptionIndex) -> Result<Option<Part>, Refusal>
    ensures { told_entry result ≡ entry_at s.now index.0 }
{
    let head = sgpd_head(s)?;
    let i = index.0;
    if i == 0 {
        return no_entry(s, head, index);
    }
    if head.entry_count < i {
        return no_entry(s, head, index);
    }
    entry_within(s, head, index)
}

// The entry's part of the payload; empty where `entry_place` gives no place.
pub fn entry(s: &[u8], index: DescriptionIndex) -> &[u8]
    ensures { GivesPart (entry_at s.now index.0) s.now s.entry.ref_ptr result.now result.ref_ptr }
{
    match entry_place(s, index) {
        Ok(Some(part)) => bytes_at(s, part.place, part.size),
        Ok(None) => bytes_at(s, 0, 0),
        Err(_) => bytes_at(s, 0, 0),
    }
}
