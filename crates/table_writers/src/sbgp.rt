// The sbgp's bytes: every field is four bytes.
ghost use Rattle.std.specs.Prelude.{◌≡◌, ◌+◌, ◌*◌, ◌≤◌, length};
ghost use Rattle.std.proofs.lemmas.List.Edits.{sets};
ghost use Rattle.base_fields.specs.Answer.{in_front};
ghost use Rattle.base_ids.specs.Limits.{record_limit};
ghost use Rattle.table_rows.specs.Row.{rows_of, records_in};
ghost use Rattle.table_writing.specs.Bodies.{sbgp_bytes};
ghost use Rattle.table_writers.specs.Words.{words, words_of_rows};

use super::words::{put_head, put_word};
use base_ids::RowNumber;
use table_rows::record::{count_at, description_at, record_count};

// The rows as given, behind the twelve bytes.
fn put_rows(rows: &[RowNumber], out: &mut [u8])
    requires { (records_in rows.now ≤ record_limit) × (12 + 8 * records_in rows.now ≤ length out.old) }
    ensures { out.new ≡ sets out.old 12 (words (words_of_rows (rows_of rows.now))) }
{
    for k in 0..record_count(rows) {
        put_word(out, 12 + 8 * k, count_at(rows, k));
        put_word(out, 16 + 8 * k, description_at(rows, k));
    }
}

pub fn put_sbgp(grouping_type: u32, rows: &[RowNumber], out: &mut [u8])
    requires { (records_in rows.now ≤ record_limit) × (12 + 8 * records_in rows.now ≤ length out.old) }
    ensures { out.new ≡ in_front (sbgp_bytes grouping_type (rows_of rows.now)) out.old }
{
    put_head(out, 0, grouping_type, record_count(rows) as u32);
    put_rows(rows, out);
}
