// The cue listing of an stbl's body (document 01, part 8).
#![tactic(auto)]

mod write;

ghost use Rattle.std.specs.Prelude.{◌≡◌, length};
ghost use Rattle.base_fields.specs.Answer.{given};
ghost use Rattle.group_sgpd.specs.Head.{ReadWhole};
ghost use Rattle.table_rows.specs.Row.{Table, records_in};
ghost use Rattle.table_runs.specs.Ahead.{all_in, WholeIn, LaidIn};
ghost use Rattle.table_records.specs.Lent.{table_from};
ghost use Rattle.listing_spec.specs.Cue.{cue_call};
ghost use Rattle.listing_cue.specs.Told.{GivesCue};
ghost use Rattle.listing_cue.specs.From.{GivesListed};

use base_fields::bytes_at;
use base_fields::refusal::Refusal;
use base_ids::{RECORD_NUMBERS, RowNumber};
use group_sgpd::{SgpdHead, entry_marks};
use listing_group::open_group;
use listing_meanings::check_used;
use listing_measure::measure_listing;
use table_records::write_rows;
use table_runs::{SampleTable, count_samples};
use write::write_listing;

// What an accepted call gives: the listing's length and the row count.
#[derive(Clone, Copy)]
pub struct CueLengths {
    pub listing: usize,
    pub rows: usize,
}

// The table and the descriptions are read, and the table's rows find records enough: the decoders' refusals, and 54; then both are written.
fn list_samples(
    table_s: &[u8],
    table: SampleTable,
    count: usize,
    s: &[u8],
    head: SgpdHead,
    grouping_type: u32,
    rows: &mut [RowNumber],
    out: &mut [u8],
) -> Result<CueLengths, Refusal>
    requires whole_in { (WholeIn table_s.now table (all_in table)) × (LaidIn table_s.now table) × (ReadWhole s.now head) }
    requires rows_value { (x : Table) × (table_from table_s.now table (records_in rows.old) ≡ given x) × (length x.rows ≡ count) }
    ensures { GivesListed table_s.now table s.now grouping_type rows.old rows.new out.old out.new result }
{
    let marks = entry_marks(s, head);
    check_used(table_s, table, s, head, &marks, grouping_type)?;
    let samples = count_samples(table_s, table);
    let limit = out.len();
    let listing = match measure_listing(
        grouping_type,
        table_s,
        table,
        s,
        head,
        &marks,
        samples,
        &mut out[..0],
        limit,
    ) {
        Some(n) => n,
        None => return Err(Refusal::OutputTooShort),
    };
    write_rows(table_s, table, rows);
    let end = RECORD_NUMBERS * count;
    write_listing(grouping_type, s, head, &marks, &rows[..end], samples, out);
    Ok(CueLengths {
        listing,
        rows: count,
    })
}

// Writes the table's rows in front of the lent run and the listing in front of the output. Nothing is written on refusal.
pub fn cue_listing(
    body: &[u8],
    grouping_type: u32,
    rows: &mut [RowNumber],
    out: &mut [u8],
) -> Result<CueLengths, Refusal>
    ensures { GivesCue (cue_call body.now grouping_type rows.old out.old) rows.old rows.new out.old out.new result }
{
    let lent = rows.len() / RECORD_NUMBERS;
    let group = open_group(body, grouping_type, Some(lent))?;
    let table = group.table;
    let head = group.head;
    let table_s = bytes_at(body, group.table_place, group.table_size);
    let s = bytes_at(body, group.sgpd_place, group.sgpd_size);
    let count = group.count as usize;
    list_samples(table_s, table, count, s, head, grouping_type, rows, out)
}
