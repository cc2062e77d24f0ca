// A caller that is the only writer: packets are queued and polled for, and nothing is tested again from call to call.
// Kept (5, 6): the tables go one beside the other, as the two calls take them: of a struct of `&mut` fields each clause names every field's ghost name (docs/DECISIONS.md, "What only reads a table").
ghost use Rattle.std.specs.Prelude.{◌≤◌, length};
ghost use Rattle.srt_protocol.specs.Cells.{output_size};
ghost use Rattle.srt_group_shown.specs.Tables.{parts, tables};
ghost use Rattle.srt_group_shown.specs.Ready.{Ready};
ghost use Rattle.srt_group.specs.Made.{parts_of};

use crate::polls::poll_data_bounded;
use cell_set::CellSet;
use srt_group::Group;
use srt_group_collecting::collecting::MAX_VISITS;
use srt_group_model::Data;
use srt_group_polls::polls::DataPoll;
use srt_group_queueing::queueing::queue_data;
use srt_protocol::time::Timestamp;

// One packet is queued, and one poll made.
pub fn queue_and_poll(
    group: Group,
    members: &mut [u64],
    pending: &mut [u64],
    waiting: &mut [u64],
    history: &[u64],
    sources: &[u64],
    store: &mut [u8],
    output: &mut [u8],
    used: &mut CellSet,
    id: u64,
    content: Data,
    payload: &[u8],
    time: Timestamp,
) -> DataPoll
    requires ready { Ready (parts_of group)
        (tables members.old pending.old waiting.old history.now sources.now) (length store.old) used.old }
    requires output_size_in_bounds { output_size ≤ length output.old }
    ensures { Ready (parts group.identity result.core group.sending group.ring)
        (tables members.new pending.new waiting.new history.now sources.now)
        (length store.new) used.new }
{
    // a refused packet leaves all as it was, and the poll is made all the same
    let _ = queue_data(
        group, members, pending, waiting, history, sources, store, used, id, content, payload,
    );
    poll_data_bounded(
        group, members, pending, waiting, history, sources, store, output, used, time, MAX_VISITS,
    )
}
