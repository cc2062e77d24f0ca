// The cells of the entries that leave the history are free again.
ghost use Rattle.srt_group_carrier.specs.Freeing.{FrontFreed};

use cell_set::{CellSet, free};
use srt_group_tables::history::HistoryWords;

// The oldest entries leave until so many are left. The words of the entries themselves stay: only the ring is cut, by the caller.
pub fn free_dropped(history: &HistoryWords, left: usize, used: &mut CellSet)
    ensures { FrontFreed history.now.ring left history.now.history.now used.old used.new }
{
    // Kept (3): the places of a ring are no slice; in a chain a closure would hold what the loop changes, and an invariant of its calls say it: no plainer.
    for index in 0..history.ring.length.saturating_sub(left) {
        let cell = history.cell_at(index);
        free(used, cell as usize);
    }
}
