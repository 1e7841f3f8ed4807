// The C interface: sample tables, their rows in a lent run of u32 (a count and an index each), and lookups over such a run.
ghost use Rattle.table_rows.specs.Row.{records_in, lookup, total};
ghost use Rattle.table_sbgp.specs.Sbgp.{parse_sbgp};
ghost use Rattle.table_csgp.specs.Table.{parse_csgp};
ghost use Rattle.table_needed.specs.Needed.{rows_needed};
ghost use Rattle.film_status.specs.Status.{Returns, one_number};
ghost use Rattle.film_tables.specs.Tables.{Fills};

use base_ids::{RowNumber, SampleCount};

// out: type, parameter, row count. The rows stand in front of the lent run.
#[unsafe(no_mangle)]
pub extern "C" fn film_parse_sbgp(s: &[u8], rows: &mut [RowNumber], out: &mut [u64; 3]) -> u32
    ensures { Fills (parse_sbgp s.now (records_in rows.old)) rows.old rows.new out.old out.new result }
{
    film_tables::film_parse_sbgp(s, rows, out)
}

// The same for a csgp payload.
#[unsafe(no_mangle)]
pub extern "C" fn film_parse_csgp(s: &[u8], rows: &mut [RowNumber], out: &mut [u64; 3]) -> u32
    ensures { Fills (parse_csgp s.now (records_in rows.old)) rows.old rows.new out.old out.new result }
{
    film_tables::film_parse_csgp(s, rows, out)
}

// out: the number of rows that an sbgp payload needs.
#[unsafe(no_mangle)]
pub extern "C" fn film_sbgp_rows_needed(s: &[u8], out: &mut [u64; 1]) -> u32
    ensures { Returns (rows_needed parse_sbgp s.now) one_number out.old out.new result }
{
    film_tables::film_sbgp_rows_needed(s, out)
}

// The same for a csgp payload.
#[unsafe(no_mangle)]
pub extern "C" fn film_csgp_rows_needed(s: &[u8], out: &mut [u64; 1]) -> u32
    ensures { Returns (rows_needed parse_csgp s.now) one_number out.old out.new result }
{
    film_tables::film_csgp_rows_needed(s, out)
}

// out: the index of the row that covers the sample (counted from 0), 0 past the end.
#[unsafe(no_mangle)]
pub extern "C" fn film_group_index_for_sample(
    rows: &[RowNumber],
    sample: SampleCount,
    out: &mut [u64; 1],
) -> u32
    ensures { Returns (lookup rows.now sample) one_number out.old out.new result }
{
    film_tables::film_group_index_for_sample(rows, sample, out)
}

// out: the samples that the rows cover.
#[unsafe(no_mangle)]
pub extern "C" fn film_covered_samples(rows: &[RowNumber], out: &mut [u64; 1]) -> u32
    ensures { Returns (total rows.now) one_number out.old out.new result }
{
    film_tables::film_covered_samples(rows, out)
}
