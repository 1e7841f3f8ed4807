// The samples that the rows in a lent run cover, and the members among them.
ghost use Rattle.std.specs.Prelude.{◌≡◌, eqb};
ghost use Rattle.base_fields.specs.Answer.{choose};
ghost use Rattle.table_rows.specs.Row.{rows_of};
ghost use Rattle.use_fragment_queue.specs.Queued.{counts, told_counted};

use base_fields::refusal::Refusal;
use base_ids::RowNumber;
use table_rows::record::{count_at, description_at, record_count};

// The most samples of a fragment.
const COVER_LIMIT: u64 = 4294967295;

// The samples of a fragment, and those of them with an index other than 0.
#[derive(Clone, Copy)]
pub struct FragmentSamples {
    pub covered: u64,
    pub members: u64,
}

// The members among a row's n samples.
fn member_samples(index: u32, n: u64) -> u64
    ensures { result ≡ choose (eqb index 0) 0 n }
{
    if index == 0 { 0 } else { n }
}

// 28 where the samples are more than a fragment may have. The limit is asked by what is left of it, so that no sum passes it.
pub fn count_fragment(rows: &[RowNumber]) -> Result<FragmentSamples, Refusal>
    ensures { told_counted result ≡ counts (rows_of rows.now) }
{
    let mut covered: u64 = 0;
    let mut members: u64 = 0;
    for k in 0..record_count(rows) {
        let n = count_at(rows, k) as u64;
        if COVER_LIMIT - covered < n {
            return Err(Refusal::RowCountOver);
        }
        let m = member_samples(description_at(rows, k), n);
        covered += n;
        members += m;
    }
    Ok(FragmentSamples { covered, members })
}
