// `poll_event` for a valid state: the poll, the payload if it gives a packet, and the set of used cells after it.
// Kept (5, 6): the three tables that a poll moves go beside the two that it reads: of a struct of `&mut` fields each clause names every field's ghost name, and one more says that its slice is still the caller's (docs/DECISIONS.md, "What only reads a table").
ghost use Rattle.std.specs.Prelude.{◌≡◌, ◌≤◌, length};
ghost use Rattle.srt_group_model.specs.Lent.{call_poll_event};
ghost use Rattle.srt_protocol.specs.Cells.{output_size};
ghost use Rattle.srt_group_shown.specs.Tables.{parts, tables};
ghost use Rattle.srt_group_shown.specs.Ready.{Ready, lending, Performs};
ghost use Rattle.srt_group.specs.Made.{parts_of};
ghost use Rattle.srt_group_event_poll.specs.Polling.{packet_in, answer_of};

use cell_set::CellSet;
use srt_group::Group;
use srt_group_data_poll::polls::write_payload;
use srt_group_delivery::delivery::{GroupEvent, Poll};
use srt_group_model::Packet;
use srt_group_polls::polls;
use srt_protocol::time::Timestamp;

// The packet, if that is what an event poll gives.
#[tactic(auto, using(crate::specs::Laws::Polling::none_in_nothing, crate::specs::Laws::Polling::none_in_event, crate::specs::Laws::Polling::one_in_packet))]
fn packet_in(gave: Option<GroupEvent>) -> Option<Packet>
    ensures { result ≡ packet_in gave }
{
    match gave {
        Some(GroupEvent::Packet(packet)) => Some(packet),
        _ => None,
    }
}

// `poll_event` for a valid state, of which `used` shows the cells in use. It refuses nothing.
pub fn poll_event(
    group: Group,
    members: &mut [u64],
    pending: &mut [u64],
    waiting: &mut [u64],
    history: &[u64],
    sources: &[u64],
    store: &[u8],
    output: &mut [u8],
    used: &mut CellSet,
    time: Timestamp,
) -> Poll
    requires ready { Ready (parts_of group)
        (tables members.old pending.old waiting.old history.now sources.now) (length store.now) used.old }
    requires output_size_in_bounds { output_size ≤ length output.old }
    ensures { Performs (call_poll_event time.0) (parts_of group)
        (tables members.old pending.old waiting.old history.now sources.now)
        (lending store.now output.old) 0 (answer_of result) (parts group.identity result.core group.sending group.ring)
        (tables members.new pending.new waiting.new history.now sources.now)
        (lending store.now output.new) used.new }
{
    let polled = polls::poll_event(
        group.core,
        group.sending,
        members,
        pending,
        waiting,
        used,
        time,
    );
    write_payload(store, output, packet_in(polled.gave));
    polled
}
