// What a csgp's length and flags rest on: how many rows remain, their largest count, their largest index, and the largest low part of an index.
ghost use Rattle.std.specs.Prelude.{◌≡◌, ◌*◌, ◌<◌, ◌≤◌};
ghost use Rattle.base_ids.specs.Limits.{local_mark, record_limit};
ghost use Rattle.table_csgp_head.specs.Csgp.{width_of};
ghost use Rattle.table_rows.specs.Row.{rows_of, records_in};
ghost use Rattle.table_rows.specs.Joined.{joined};
ghost use Rattle.table_writing.specs.Bodies.{code_for};
ghost use Rattle.table_writers.specs.Tally.{GivesTally, counted, marks_by, needs_by, flags_by, length_by};

use super::runs::next_run;
use base_fields::refusal::Refusal;
use base_ids::{LOCAL_MARK, RowNumber, SampleCount};

#[derive(Clone, Copy)]
pub struct Tally {
    pub rows: usize,
    pub count: SampleCount,
    pub index: u32,
    // the largest index without its mark
    pub low: u32,
}

// One row more.
fn count_row(t: Tally, count: SampleCount, index: u32) -> Tally
    requires { t.rows ≤ record_limit }
    ensures { result ≡ counted t count index }
{
    Tally {
        rows: t.rows + 1,
        count: t.count.max(count),
        index: t.index.max(index),
        low: t.low.max(index % LOCAL_MARK),
    }
}

pub fn tally_rows(rows: &[RowNumber]) -> Result<Tally, Refusal>
    requires { records_in rows.now ≤ record_limit }
    ensures { GivesTally (joined (rows_of rows.now)) result }
{
    let mut t = Tally {
        rows: 0,
        count: 0,
        index: 0,
        low: 0,
    };
    let mut i: usize = 0;
    while let Some(r) = next_run(rows, i)? {
        t = count_row(t, r.count, r.index);
        i = r.next;
    }
    Ok(t)
}

// The narrowest code whose width holds a number.
pub fn code_for(n: u32) -> u32
    ensures { result ≡ code_for n }
{
    match n {
        0..=15 => 0,
        16..=255 => 1,
        256..=65535 => 2,
        _ => 3,
    }
}

// The half bytes of that width.
pub fn halves_for(n: u32) -> usize
    ensures { (4 * result ≡ width_of (code_for n)) × (result ≤ 8) }
{
    let code = code_for(n);
    match code {
        0 => 1,
        1 => 2,
        2 => 4,
        _ => 8,
    }
}

// Whether a row has bit 31: then every index is written with a mark.
pub fn has_marks(t: Tally) -> bool
    ensures { result ≡ marks_by t }
{
    t.index >= LOCAL_MARK
}

// What the width of an index has to hold: with marks, twice the low part.
pub fn index_needs(t: Tally) -> u32
    requires { t.low < local_mark }
    ensures { result ≡ needs_by t }
{
    if has_marks(t) {
        return 2 * t.low;
    }
    t.index
}

// The flags: bit 7 where there are marks, and the codes.
pub fn flags_of(t: Tally) -> u32
    requires { t.low < local_mark }
    ensures { result ≡ flags_by t }
{
    let needs = index_needs(t);
    let codes = code_for(t.count) * 4 + code_for(needs);
    if has_marks(t) {
        return 128 + codes;
    }
    codes
}

// The length of the csgp.
pub fn length_of(t: Tally) -> usize
    requires { (t.rows ≤ record_limit) × (t.low < local_mark) }
    ensures { result ≡ length_by t }
{
    let halves = t.rows * (1 + halves_for(t.count) + halves_for(index_needs(t)));
    12 + (halves + 1) / 2
}
