// The listing of a table whose rows are written, stored in front of the output.
ghost use Rattle.std.specs.Prelude.{◌≡◌, ◌≤◌, length};
ghost use Rattle.group_sgpd.specs.Head.{ReadWhole};
ghost use Rattle.group_sgpd.specs.Marks.{Marks};
ghost use Rattle.table_rows.specs.Row.{rows_of, covered};
ghost use Rattle.table_runs.specs.Patterns.{covered_limit};
ghost use Rattle.listing_numbers.specs.Store.{Puts};
ghost use Rattle.listing_stretches.specs.Entered.{output_limit};
ghost use Rattle.listing_cue.specs.Rows.{RowsMean, row_listing};

use base_ids::{DescriptionIndex, RowNumber};
use group_sgpd::SgpdHead;
use listing_stretches::{begin_listing, close_stretch, enter_run};
use table_rows::record::{count_at, description_at, record_count};

// Each row is a run of samples; rows of count 0 are passed over.
pub fn write_listing(
    grouping_type: u32,
    s: &[u8],
    head: SgpdHead,
    marks: &[u32; 16],
    rows: &[RowNumber],
    samples: u64,
    out: &mut [u8],
) -> usize
    requires read_whole { (ReadWhole s.now head) × (Marks s.now marks.now) × (RowsMean grouping_type s.now (rows_of rows.now)) }
    requires samples_value { (samples ≡ covered (rows_of rows.now)) × (samples ≤ covered_limit) × (length (row_listing grouping_type s.now (rows_of rows.now)) ≤ output_limit) }
    ensures { Puts (row_listing grouping_type s.now (rows_of rows.now)) 0 out.old out.new result }
{
    let mut memory: [u32; 16] = [0; 16];
    let mut progress = begin_listing(grouping_type, samples, out);
    let records = record_count(rows);
    let mut k: usize = 0;
    while k < records {
        let count = count_at(rows, k);
        let index = DescriptionIndex(description_at(rows, k));
        if 0 < count {
            progress = enter_run(
                grouping_type,
                s,
                head,
                marks,
                &mut memory,
                out,
                progress,
                count,
                index,
            );
        }
        k = k + 1;
    }
    close_stretch(grouping_type, s, out, progress)
}
