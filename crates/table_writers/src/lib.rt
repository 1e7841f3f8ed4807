// Sample tables written as atom bodies (document 02, A5): a quote of the exact length, then a write that takes it. Everything is found before a
// byte is stored.
#![tactic(auto)]

pub mod csgp;
pub mod runs;
pub mod sbgp;
pub mod tally;
pub mod words;

ghost use Rattle.std.specs.Prelude.{◌≡◌, length};
ghost use Rattle.base_fields.specs.Refusal.{told_value};
ghost use Rattle.table_writing.specs.Write.{quote_sbgp, quote_csgp, write_sbgp, write_csgp};
ghost use Rattle.table_writers.specs.Told.{GivesWritten};

use base_fields::refusal::Refusal;
use base_ids::{RECORD_LIMIT, RowNumber};
use csgp::put_csgp;
use sbgp::put_sbgp;
use table_rows::record::record_count;
use tally::{length_of, tally_rows};

// The exact length of the sbgp that holds the rows.
pub fn quote_sbgp(rows: &[RowNumber]) -> Result<usize, Refusal>
    ensures { told_value result ≡ quote_sbgp rows.now }
{
    let records = record_count(rows);
    if records > RECORD_LIMIT {
        return Err(Refusal::InputTooLong);
    }
    Ok(12 + 8 * records)
}

// The exact length of the csgp that gives the same samples.
pub fn quote_csgp(rows: &[RowNumber]) -> Result<usize, Refusal>
    ensures { told_value result ≡ quote_csgp rows.now }
{
    if record_count(rows) > RECORD_LIMIT {
        return Err(Refusal::InputTooLong);
    }
    let tally = tally_rows(rows)?;
    Ok(length_of(tally))
}

// Writes the sbgp in front of the output, where its length is the quoted one and the output has room.
pub fn write_sbgp(
    grouping_type: u32,
    rows: &[RowNumber],
    quoted: usize,
    out: &mut [u8],
) -> Result<usize, Refusal>
    ensures { GivesWritten (write_sbgp grouping_type rows.now quoted (length out.old)) out.old out.new result }
{
    let records = record_count(rows);
    if RECORD_LIMIT < records {
        return Err(Refusal::InputTooLong);
    }
    if quoted != 12 + 8 * records {
        return Err(Refusal::LengthDisagrees);
    }
    if out.len() < quoted {
        return Err(Refusal::OutputShorter);
    }
    put_sbgp(grouping_type, rows, out);
    Ok(quoted)
}

// Writes the csgp in front of the output, where its length is the quoted one and the output has room.
pub fn write_csgp(
    grouping_type: u32,
    rows: &[RowNumber],
    quoted: usize,
    out: &mut [u8],
) -> Result<usize, Refusal>
    ensures { GivesWritten (write_csgp grouping_type rows.now quoted (length out.old)) out.old out.new result }
{
    if RECORD_LIMIT < record_count(rows) {
        return Err(Refusal::InputTooLong);
    }
    let t = tally_rows(rows)?;
    if quoted != length_of(t) {
        return Err(Refusal::LengthDisagrees);
    }
    if out.len() < quoted {
        return Err(Refusal::OutputShorter);
    }
    put_csgp(grouping_type, rows, t, out);
    Ok(quoted)
}
