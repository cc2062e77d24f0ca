// The queue of a member that is removed: its cells become free.
ghost use Rattle.srt_group_model.specs.Cells.{queue_cells};
ghost use Rattle.cell_set.specs.Sets.{Freed};
ghost use Rattle.srt_connection_queue.specs.Rows.{member_of};
ghost use Rattle.srt_group_state.specs.Cells.{event_cells};

use cell_set::{CellSet, free};
use srt_connection_queue::queue::queue_length;
use srt_connection_queue::rows::Row;
use srt_group_model::Event;
use srt_group_state::cells::queued_event;

// Frees the cell of a queued event: only data has one.
#[tactic(auto, using(crate::specs::Laws::Queue::no_data_kept))]
fn free_event(used: &mut CellSet, event: Event)
    ensures { Freed (event_cells event) used.old used.new }
{
    if event.is_data() {
        let content = event.content;
        free(used, content.cell as usize);
    }
}

// Frees the cells of a member's queue.
#[tactic(auto, using(crate::specs::Laws::Queue::freeing_start))]
pub fn free_queue(row: &Row, used: &mut CellSet)
    ensures { Freed (queue_cells (member_of row.now)) used.old used.new }
{
    let count = queue_length(row);
    // Kept (3): the places of a ring are no slice; in a chain a closure would hold what the loop changes, and an invariant of its calls say it: no plainer.
    for index in 0..count {
        let event = queued_event(row, index);
        free_event(used, event);
    }
}
