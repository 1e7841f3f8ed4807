// The C interface: sample tables, their rows in a lent run of u32 (a count and an index each), and lookups over such a run.
#![tactic(auto)]

ghost use Rattle.table_rows.specs.Row.{records_in, lookup, total};
ghost use Rattle.table_rows.specs.Found.{told_table};
ghost use Rattle.table_sbgp.specs.Sbgp.{parse_sbgp};
ghost use Rattle.table_csgp.specs.Table.{parse_csgp};
ghost use Rattle.table_needed.specs.Needed.{rows_needed};
ghost use Rattle.film_status.specs.Status.{Returns, one_number};
ghost use Rattle.film_tables.specs.Tables.{Fills, head_numbers};

use base_fields::refusal::Refusal;
use base_ids::{RowNumber, SampleCount, SampleNumber};
use film_status::put_number;
use table_rows::SampleToGroup;

// Hands a table's head out.
fn put_head(parsed: Result<SampleToGroup, Refusal>, out: &mut [u64; 3]) -> u32
    ensures { Returns (told_table parsed) head_numbers out.old out.new result }
{
    match parsed {
        Ok(t) => {
            out[0] = u64::from(t.grouping_type);
            out[1] = u64::from(t.grouping_type_parameter);
            out[2] = t.entry_count as u64;
            0
        }
        Err(refusal) => refusal.number(),
    }
}

// out: type, parameter, row count. The rows stand in front of the lent run.
pub fn film_parse_sbgp(s: &[u8], rows: &mut [RowNumber], out: &mut [u64; 3]) -> u32
    ensures { Fills (parse_sbgp s.now (records_in rows.old)) rows.old rows.new out.old out.new result }
{
    put_head(table_sbgp::parse_sbgp(s, rows), out)
}

// The same for a csgp payload.
pub fn film_parse_csgp(s: &[u8], rows: &mut [RowNumber], out: &mut [u64; 3]) -> u32
    ensures { Fills (parse_csgp s.now (records_in rows.old)) rows.old rows.new out.old out.new result }
{
    put_head(table_csgp::parse_csgp(s, rows), out)
}

// out: the number of rows that an sbgp payload needs.
pub fn film_sbgp_rows_needed(s: &[u8], out: &mut [u64; 1]) -> u32
    ensures { Returns (rows_needed parse_sbgp s.now) one_number out.old out.new result }
{
    put_number(table_needed::sbgp_rows_needed(s).map(|n| n as u64), out)
}

// The same for a csgp payload.
pub fn film_csgp_rows_needed(s: &[u8], out: &mut [u64; 1]) -> u32
    ensures { Returns (rows_needed parse_csgp s.now) one_number out.old out.new result }
{
    put_number(table_needed::csgp_rows_needed(s).map(|n| n as u64), out)
}

// out: the index of the row that covers the sample (counted from 0), 0 past the end.
pub fn film_group_index_for_sample(
    rows: &[RowNumber],
    sample: SampleCount,
    out: &mut [u64; 1],
) -> u32
    ensures { Returns (lookup rows.now sample) one_number out.old out.new result }
{
    let found = table_rows::group_index_for_sample(rows, SampleNumber(sample));
    put_number(found.map(|index| u64::from(index.0)), out)
}

// out: the samples that the rows cover.
pub fn film_covered_samples(rows: &[RowNumber], out: &mut [u64; 1]) -> u32
    ensures { Returns (total rows.now) one_number out.old out.new result }
{
    put_number(table_rows::covered_samples(rows), out)
}
