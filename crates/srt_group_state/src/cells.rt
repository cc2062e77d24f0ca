// The cells that a queue's data events name, as the pass of code 6 marks them in the set of cells that a call on a valid state is lent.
ghost use Rattle.std.specs.Prelude.{◌≡◌, ◌<◌, length};
ghost use Rattle.std.specs.Prelude.{Some};
ghost use Rattle.srt_group_model.specs.Tools.{at_place};
ghost use Rattle.cell_set.specs.Marks.{Marking, Marks};
ghost use Rattle.srt_connection_queue.specs.Rows.{row_size, member_of};
ghost use Rattle.srt_group_state.specs.Cells.{event_cells};

use cell_set::{CellSet, mark};
use srt_connection_queue::rows::{MAX_QUEUED, Row, ring_of};
use srt_group_model::Event;
use srt_group_rules::rows::queue_event;

// The event so many places after the front of a queue.
#[tactic(auto, using(crate::specs::Laws::Cells::event_read))]
pub fn queued_event(row: &Row, index: u64) -> Event
    requires { index < length (member_of row.now).queue }
    ensures { at_place index (member_of row.now).queue ≡ Some result }
{
    let ring = ring_of(row);
    queue_event(row, ring, index % MAX_QUEUED)
}

// Marks the cell of a queued event: only data has one.
// Kept (5): a struct of the set, lent to be changed, and its count of cells would name in each clause by a ghost name what the set ends as: no plainer.
#[tactic(auto, using(crate::specs::Laws::Cells::no_data_passed, crate::specs::Laws::Cells::data_marked))]
pub fn mark_event(used: &mut CellSet, cells: usize, event: Event) -> bool
    requires { Marking cells used.old }
    ensures { Marks cells (event_cells event) used.old result used.new }
{
    if !event.is_data() {
        return true;
    }
    mark(used, cells, event.content.cell)
}
