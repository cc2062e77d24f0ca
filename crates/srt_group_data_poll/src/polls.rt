// `poll_data_bounded` for a valid state: the poll, the payload of the packet that it gives, and the set of used cells after it.
// Kept (5, 6): the three tables that a poll moves go beside the two that it reads: of a struct of `&mut` fields each clause names every field's ghost name, and one more says that its slice is still the caller's (docs/DECISIONS.md, "What only reads a table").
ghost use Rattle.std.specs.Prelude.{◌≡◌, ◌≤◌, length};
ghost use Rattle.srt_group_model.specs.Lent.{call_poll_data_bounded, written_out};
ghost use Rattle.srt_protocol.specs.Cells.{output_size};
ghost use Rattle.srt_group_shown.specs.Tables.{parts, tables};
ghost use Rattle.srt_group_shown.specs.Ready.{Ready, lending, Performs};
ghost use Rattle.srt_group.specs.Made.{parts_of};
ghost use Rattle.srt_group_data_poll.specs.Polling.{Writable, answer_of};

use cell_set::CellSet;
use srt_group::Group;
use srt_group_model::Packet;
use srt_group_polls::polls;
use srt_group_polls::polls::DataPoll;
use srt_protocol::received_payload::copy_payload;
use srt_protocol::time::Timestamp;

// The payload of a packet that is given, from byte 12 of the output on.
#[tactic(auto, using(crate::specs::Laws::Polling::wrote_none))]
pub fn write_payload(store: &[u8], output: &mut [u8], gave: Option<Packet>)
    requires { Writable gave (length store.now) (length output.old) }
    ensures { output.new ≡ written_out gave store.now output.old }
{
    if let Some(packet) = gave {
        let content = packet.content;
        let cell = content.cell as usize;
        let size = content.length as usize;
        // a payload of a held packet fits the output (`Writable`): this is never refused
        let _ = copy_payload(store, cell, size, output);
    }
}

// `poll_data_bounded` for a valid state, of which `used` shows the cells in use. It refuses nothing.
pub fn poll_data_bounded(
    group: Group,
    members: &mut [u64],
    pending: &mut [u64],
    waiting: &mut [u64],
    history: &[u64],
    sources: &[u64],
    store: &[u8],
    output: &mut [u8],
    used: &mut CellSet,
    time: Timestamp,
    max_events: usize,
) -> DataPoll
    requires ready { Ready (parts_of group)
        (tables members.old pending.old waiting.old history.now sources.now) (length store.now) used.old }
    requires output_size_in_bounds { output_size ≤ length output.old }
    ensures { Performs (call_poll_data_bounded time.0 max_events) (parts_of group)
        (tables members.old pending.old waiting.old history.now sources.now)
        (lending store.now output.old) 0 (answer_of result) (parts group.identity result.core group.sending group.ring)
        (tables members.new pending.new waiting.new history.now sources.now)
        (lending store.now output.new) used.new }
{
    let polled = polls::poll_data_bounded(
        group.core,
        group.sending,
        members,
        pending,
        waiting,
        used,
        time,
        max_events,
    );
    write_payload(store, output, polled.gave);
    polled
}
