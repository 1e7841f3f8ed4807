// The rows of either table in lent records, in two steps: they are counted, which finds 28 and 29 and writes nothing, and then written.
#![tactic(auto)]

ghost use Rattle.std.specs.Prelude.{◌≡◌, length};
ghost use Rattle.base_fields.specs.Answer.{given, and_then};
ghost use Rattle.base_fields.specs.Refusal.{told_value};
ghost use Rattle.table_rows.specs.Row.{Table, records_in, filled, rows_of_table};
ghost use Rattle.table_runs.specs.Ahead.{LaidIn};
ghost use Rattle.table_records.specs.Lent.{table_from};

use base_fields::refusal::Refusal;
use base_ids::RowNumber;
use table_csgp::fill::fill;
use table_csgp::measure::measure;
use table_runs::SampleTable;

// How many rows a table has, where that is within the room; or 28, 29.
pub fn count_rows(s: &[u8], table: SampleTable, room: usize) -> Result<usize, Refusal>
    requires { LaidIn s.now table }
    ensures { told_value result ≡ and_then (table_from s.now table room) (λ t. given (length t.rows)) }
{
    match table {
        SampleTable::Rows(head) => {
            let count = head.entry_count as usize;
            if room < count {
                return Err(Refusal::NoRecordLeft);
            }
            Ok(count)
        }
        SampleTable::Patterns(head) => measure(s, head, room),
    }
}

// Writes the rows in front of the lent run, where there are records enough.
pub fn write_rows(s: &[u8], table: SampleTable, rows: &mut [RowNumber])
    requires { (LaidIn s.now table) × ((t : Table) × (table_from s.now table (records_in rows.old) ≡ given t)) }
    ensures { rows.new ≡ filled rows_of_table (table_from s.now table (records_in rows.old)) rows.old }
{
    match table {
        SampleTable::Rows(head) => {
            let first = head.first;
            let count = head.entry_count as usize;
            table_sbgp::fill(s, first, count, rows);
        }
        SampleTable::Patterns(head) => fill(s, head, rows),
    }
}
