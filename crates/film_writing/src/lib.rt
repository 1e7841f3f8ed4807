// The C interface: tables written as atom bodies, from rows in a lent run of u32 (a count and an index each).
#![tactic(auto)]

ghost use Rattle.std.specs.Prelude.{length};
ghost use Rattle.table_writing.specs.Write.{quote_sbgp, quote_csgp, write_sbgp, write_csgp};
ghost use Rattle.film_status.specs.Status.{Returns, one_number};
ghost use Rattle.film_writing.specs.Writing.{Writes};

use base_ids::RowNumber;
use film_status::put_number;

// out: the exact length of the sbgp that holds the rows.
pub fn film_quote_sbgp(rows: &[RowNumber], out: &mut [u64; 1]) -> u32
    ensures { Returns (quote_sbgp rows.now) one_number out.old out.new result }
{
    put_number(table_writers::quote_sbgp(rows).map(|n| n as u64), out)
}

// The same for the csgp that gives the same samples.
pub fn film_quote_csgp(rows: &[RowNumber], out: &mut [u64; 1]) -> u32
    ensures { Returns (quote_csgp rows.now) one_number out.old out.new result }
{
    put_number(table_writers::quote_csgp(rows).map(|n| n as u64), out)
}

// Writes the sbgp in front of `body`. out: its length, the quoted one.
pub fn film_write_sbgp(
    grouping_type: u32,
    rows: &[RowNumber],
    quoted: usize,
    body: &mut [u8],
    out: &mut [u64; 1],
) -> u32
    ensures { Writes (write_sbgp grouping_type rows.now quoted (length body.old)) body.old body.new out.old out.new result }
{
    let written = table_writers::write_sbgp(grouping_type, rows, quoted, body);
    put_number(written.map(|n| n as u64), out)
}

// The same for the csgp.
pub fn film_write_csgp(
    grouping_type: u32,
    rows: &[RowNumber],
    quoted: usize,
    body: &mut [u8],
    out: &mut [u64; 1],
) -> u32
    ensures { Writes (write_csgp grouping_type rows.now quoted (length body.old)) body.old body.new out.old out.new result }
{
    let written = table_writers::write_csgp(grouping_type, rows, quoted, body);
    put_number(written.map(|n| n as u64), out)
}
