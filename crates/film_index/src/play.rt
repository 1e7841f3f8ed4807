// The C interface: a play head over rows in a lent run. In C a head is four numbers: whether it stands at a sample (0: fresh, before
// sample 0; any other: at a sample; written as 1), the sample, the row that covers it, and the samples of that row before it. Four zeros are a fresh head.
ghost use Rattle.table_play_head.specs.Turn.{set_told};
ghost use Rattle.film_play.specs.Play.{GivesPlay, GivesPlayMove};

use base_ids::{RowNumber, SampleCount};

// The head set to a sample, or to the end where that comes before. out: the index of its sample.
#[unsafe(no_mangle)]
pub extern "C" fn film_play_set(
    head: &mut [u64; 4],
    rows: &[RowNumber],
    sample: SampleCount,
    out: &mut [u64; 1],
) -> u32
    ensures { GivesPlay (set_told rows.now sample) head.old head.new out.old out.new result }
{
    film_play::film_play_set(head, rows, sample, out)
}

// The head moved on by one sample. out: the index of its sample.
#[unsafe(no_mangle)]
pub extern "C" fn film_play_move(head: &mut [u64; 4], rows: &[RowNumber], out: &mut [u64; 1]) -> u32
    ensures { GivesPlayMove rows.now head.old head.new out.old out.new result }
{
    film_play::film_play_move(head, rows, out)
}
