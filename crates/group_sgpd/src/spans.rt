// The lengths of entries, and the place behind some of them (document 01, part 6).
ghost use Rattle.std.specs.Prelude.{◌≡◌, ◌+◌, ◌≤◌, ◌<◌, length};
ghost use Rattle.base_fields.specs.Refusal.{told_value};
ghost use Rattle.group_sgpd.specs.Sgpd.{implicit_length, entry_count_of, span_at, entry_count_place};
ghost use Rattle.group_sgpd.specs.Head.{lengths_by, told_span, whole, after, HeadOf, Among};
ghost use Rattle.group_sgpd.specs.declared.Lengths.TheVariants.{Prefixed, Shared};

use super::{Lengths, SgpdHead};
use base_fields::Part;
use base_fields::refusal::Refusal;

// The length that version 0 gives the entries of a type; 0 where it gives none.
fn implicit_length(grouping_type: u32) -> u32
    ensures { result ≡ implicit_length grouping_type }
{
    match grouping_type {
        base_fields::fourcc::ROLL | base_fields::fourcc::PROL => 2,
        base_fields::fourcc::RAP | base_fields::fourcc::TELE | base_fields::fourcc::SAP => 1,
        _ => 0,
    }
}

// What tells an entry's length.
pub(crate) fn lengths_by(version: u8, grouping_type: u32, default_length: u32) -> Lengths
    ensures { result ≡ lengths_by version grouping_type default_length }
{
    match version {
        0 => {
            let k = implicit_length(grouping_type);
            if k == 0 {
                return Lengths::Shared;
            }
            Lengths::Fixed(k)
        }
        _ => {
            if default_length == 0 {
                return Lengths::Prefixed;
            }
            Lengths::Fixed(default_length)
        }
    }
}

fn whole_entry(s: &[u8], place: usize, size: usize) -> Result<Part, Refusal>
    requires { place ≤ length s.now }
    ensures { told_span result ≡ whole s.now place size }
{
    if s.len() - place < size {
        return Err(Refusal::EntryCut);
    }
    Ok(Part { place, size })
}

// The entry at a place.
pub(crate) fn span_at(s: &[u8], lengths: Lengths, count: u32, at: usize) -> Result<Part, Refusal>
    requires among { Among s.now lengths count at }
    requires count_nonzero { 0 < count }
    ensures { told_span result ≡ span_at s.now at }
{
    let left = s.len() - at;
    match lengths {
        Lengths::Fixed(k) => whole_entry(s, at, k as usize),
        Lengths::Prefixed => {
            if left < 4 {
                return Err(Refusal::NoEntryLength);
            }
            whole_entry(s, at + 4, base_fields::read_u32(s, at) as usize)
        }
        Lengths::Shared => {
            let size = left as u32 / count;
            if size == 0 {
                return Err(Refusal::ZeroShare);
            }
            whole_entry(s, at, size as usize)
        }
    }
}

// The place behind n entries, each with its length before it. Bytes are counted in 32 bits, which a controller handles at once.
fn skip_prefixed(s: &[u8], at: usize, n: u32) -> Result<usize, Refusal>
    requires { Among s.now Prefixed (entry_count_of s.now) at }
    ensures { told_value result ≡ after n s.now at }
{
    let mut bytes = (s.len() - at) as u32;
    for _ in 0..n {
        if bytes < 4 {
            return Err(Refusal::NoEntryLength);
        }
        let size = base_fields::read_u32(s, s.len() - bytes as usize);
        if bytes - 4 < size {
            return Err(Refusal::EntryCut);
        }
        bytes = bytes - 4 - size;
    }
    Ok(s.len() - bytes as usize)
}

// The place behind n entries that share the bytes. A share stays for as long as the division's rest pays for the entries before: those
// entries are passed at once, so there are as many steps as different shares.
fn skip_shared(s: &[u8], count: u32, at: usize, n: u32) -> Result<usize, Refusal>
    requires among { Among s.now Shared count at }
    requires n_le_count { n ≤ count }
    ensures { told_value result ≡ after n s.now at }
{
    let mut bytes = (s.len() - at) as u32;
    let mut left = n;
    // no `for`: a step passes several entries
    while 0 < left {
        let share = bytes / count;
        if share == 0 {
            return Err(Refusal::ZeroShare);
        }
        let alike = bytes % count / share + 1;
        let passed = if left < alike { left } else { alike };
        bytes -= passed * share;
        left -= passed;
    }
    Ok(s.len() - bytes as usize)
}

// The place behind n entries; a product where they have one length.
pub(crate) fn skip(
    s: &[u8],
    lengths: Lengths,
    count: u32,
    at: usize,
    n: u32,
) -> Result<usize, Refusal>
    requires among { Among s.now lengths count at }
    requires n_le_count { n ≤ count }
    ensures { told_value result ≡ after n s.now at }
{
    match lengths {
        Lengths::Fixed(k) => {
            let size = (n as usize) * (k as usize);
            if s.len() - at < size {
                return Err(Refusal::EntryCut);
            }
            Ok(at + size)
        }
        Lengths::Prefixed => skip_prefixed(s, at, n),
        Lengths::Shared => skip_shared(s, count, at, n),
    }
}

// The place behind all entries.
pub(crate) fn skip_all(s: &[u8], head: SgpdHead) -> Result<usize, Refusal>
    requires { HeadOf s.now head }
    ensures { told_value result ≡ after (entry_count_of s.now) s.now (entry_count_place s.now + 4) }
{
    let lengths = lengths_by(head.version, head.grouping_type, head.default_length);
    skip(s, lengths, head.entry_count, head.first, head.entry_count)
}
