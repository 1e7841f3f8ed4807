// The csgp's bytes: behind the twelve bytes all pairs of a pattern length and a count, then all indices, by half bytes.
ghost use Rattle.std.specs.Prelude.{◌≡◌, ◌+◌, ◌*◌, ◌≤◌, length};
ghost use Rattle.base_fields.specs.Answer.{in_front};
ghost use Rattle.base_ids.specs.Limits.{record_limit};
ghost use Rattle.table_rows.specs.Row.{rows_of, records_in};
ghost use Rattle.table_writing.specs.Bodies.{index_bits, csgp_bytes};
ghost use Rattle.table_rows.specs.Joined.{joined};
ghost use Rattle.table_writers.specs.Tally.{Tallies, length_by};
ghost use Rattle.table_writers.specs.Halves.{Free, PutsRuns, pairs_put, indices_put, pair_put};

use super::runs::next_run;
use super::tally::{Tally, flags_of, halves_for, has_marks, index_needs};
use super::words::put_head;
use base_ids::{LOCAL_MARK, RowNumber, SampleCount};
use table_half_bytes::{put_half, put_number};

// The length 1 and a count of m half bytes, from half byte h on.
fn put_pair(out: &mut [u8], h: usize, m: usize, count: SampleCount)
    requires { (h + 1 + m ≤ 2 * length out.old) × (m ≤ 8) × Free h out.old }
    ensures { out.new ≡ pair_put m h count out.old }
{
    put_half(out, h, 1);
    put_number(out, h + 1, m, count as u64);
}

// The pairs of the rows that remain, from half byte h on; the half byte behind them is told.
fn put_pairs(rows: &[RowNumber], out: &mut [u8], first: usize, m: usize) -> usize
    requires { PutsRuns (joined (rows_of rows.now)) (1 + m) m first out.old }
    ensures { (out.new ≡ pairs_put m first (joined (rows_of rows.now)) out.old) × (result ≡ first + (1 + m) * length (joined (rows_of rows.now))) }
{
    let mut h = first;
    let mut i: usize = 0;
    loop {
        match next_run(rows, i) {
            Ok(Some(r)) => {
                put_pair(out, h, m, r.count);
                h = h + 1 + m;
                i = r.next;
            }
            Ok(None) => return h,
            Err(_) => return h,
        }
    }
}

// The bits of an index in m half bytes: with marks, bit 31 becomes the highest of them.
fn index_field(index: u32, m: usize, marks: bool) -> u32
    requires { (1 ≤ m) × (m ≤ 8) }
    ensures { result ≡ index_bits marks (4 * m) index }
{
    if marks {
        let mark = 1u32 << (4 * (m as u32) - 1);
        return index / LOCAL_MARK * mark + index % LOCAL_MARK;
    }
    index
}

// The indices of the rows that remain, from half byte h on.
fn put_indices(rows: &[RowNumber], out: &mut [u8], first: usize, m: usize, marks: bool)
    requires { PutsRuns (joined (rows_of rows.now)) m m first out.old × (1 ≤ m) }
    ensures { out.new ≡ indices_put marks m first (joined (rows_of rows.now)) out.old }
{
    let mut h = first;
    let mut i: usize = 0;
    loop {
        match next_run(rows, i) {
            Ok(Some(r)) => {
                put_number(out, h, m, index_field(r.index, m, marks) as u64);
                h = h + m;
                i = r.next;
            }
            Ok(None) => return,
            Err(_) => return,
        }
    }
}

pub fn put_csgp(grouping_type: u32, rows: &[RowNumber], t: Tally, out: &mut [u8])
    requires { (records_in rows.now ≤ record_limit) × Tallies (joined (rows_of rows.now)) t × (length_by t ≤ length out.old) }
    ensures { out.new ≡ in_front (csgp_bytes grouping_type (joined (rows_of rows.now))) out.old }
{
    let flags = flags_of(t);
    let counts = halves_for(t.count);
    let indices = halves_for(index_needs(t));
    let marks = has_marks(t);
    put_head(out, flags, grouping_type, t.rows as u32);
    let behind = put_pairs(rows, out, 24, counts);
    put_indices(rows, out, behind, indices, marks);
}
