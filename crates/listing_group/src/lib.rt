// The group of a grouping type in an stbl's body (document 01, part 8): the walk, the table, its rows and the descriptions, in one order of refusals for
// all that works over a group.
#![tactic(auto)]

ghost use Rattle.std.specs.Prelude.{◌≡◌};
ghost use Rattle.base_fields.specs.Answer.{given, and_then};
ghost use Rattle.base_fields.specs.Refusal.{told_value};
ghost use Rattle.table_rows.specs.Pattern.{covered_by};
ghost use Rattle.table_records.specs.Lent.{table_from};
ghost use Rattle.table_runs.specs.Ahead.{all_in, ahead_in, WholeIn, LaidIn};
ghost use Rattle.table_needed.specs.Needed.{unlimited};
ghost use Rattle.listing_group.specs.Opened.{room_of, count_of, GivesGroup};

use base_fields::bytes_at;
use base_fields::refusal::Refusal;
use base_ids::COUNT_LIMIT;
use group_sgpd::{SgpdHead, read_sgpd};
use listing_walk::find_sources;
use table_needed::UNLIMITED;
use table_records::count_rows;
use table_runs::{SampleTable, count_samples, read_table};

// Where the payloads of the table and of the sgpd stand in the body, and what was read of them.
#[derive(Clone, Copy)]
pub struct GroupAt {
    pub table_place: usize,
    pub table_size: usize,
    pub table: SampleTable,
    // The table's rows, where records are lent for them; else the samples that it covers.
    pub count: u64,
    pub sgpd_place: usize,
    pub sgpd_size: usize,
    pub head: SgpdHead,
}

// 28, where the count of a row would pass its limit. In a table that covers no more samples than that limit none does, and its rows need not be
// counted.
fn check_counts(table_s: &[u8], table: SampleTable, covered: u64) -> Result<(), Refusal>
    requires { (LaidIn table_s.now table) × (covered ≡ covered_by (ahead_in table_s.now table (all_in table))) }
    ensures { told_value result ≡ and_then (table_from table_s.now table unlimited) (λ x. given tt) }
{
    if covered <= COUNT_LIMIT as u64 {
        return Ok(());
    }
    count_rows(table_s, table, UNLIMITED)?;
    Ok(())
}

// 28, 29; else what is counted of the table.
fn count_table(table_s: &[u8], table: SampleTable, lent: Option<usize>) -> Result<u64, Refusal>
    requires { (WholeIn table_s.now table (all_in table)) × (LaidIn table_s.now table) }
    ensures { told_value result ≡ and_then (table_from table_s.now table (room_of lent)) (λ x. given (count_of lent x.rows (ahead_in table_s.now table (all_in table)))) }
{
    match lent {
        Some(room) => {
            let rows = count_rows(table_s, table, room)?;
            Ok(rows as u64)
        }
        None => {
            let covered = count_samples(table_s, table);
            check_counts(table_s, table, covered)?;
            Ok(covered)
        }
    }
}

// Opens the group: the walk's refusals, the table's, those of its rows, the sgpd's. So many records are lent for the rows; none: there are enough.
pub fn open_group(body: &[u8], grouping_type: u32, lent: Option<usize>) -> Result<GroupAt, Refusal>
    ensures { GivesGroup body.now grouping_type lent result }
{
    let found = find_sources(body, grouping_type)?;
    let kind = found.kind;
    let table_s = bytes_at(body, found.table_place, found.table_size);
    let table = read_table(table_s, kind)?;
    let count = count_table(table_s, table, lent)?;
    let head = read_sgpd(bytes_at(body, found.sgpd_place, found.sgpd_size))?;
    Ok(GroupAt {
        table_place: found.table_place,
        table_size: found.table_size,
        table,
        count,
        sgpd_place: found.sgpd_place,
        sgpd_size: found.sgpd_size,
        head,
    })
}
