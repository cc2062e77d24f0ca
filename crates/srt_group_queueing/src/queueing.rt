// `queue_data` of the stand-in leg: a packet into a leg's queue, its payload into the lowest free cell of the store.
// Kept (5, 6): the calls and their forms are lent flat tables, as C lends them; of a struct of them, with the members that each call changes,
// every clause would name each `&mut` field by a ghost name (docs/DECISIONS.md, "What only reads a table").
ghost use Rattle.std.specs.Prelude.{◌≡◌, ◌+◌, ◌^◌, ◌<◌, length};
ghost use Rattle.srt_protocol.specs.Errors.{outcome_number};
ghost use Rattle.srt_group_model.specs.State.{on_leg};
ghost use Rattle.srt_group_model.specs.Legs.{add_reservation};
ghost use Rattle.srt_group_model.specs.Guards.{no_answer};
ghost use Rattle.srt_group_model.specs.Calls.{data_event, data_unfit};
ghost use Rattle.srt_group_model.specs.Lent.{call_queue_data};
ghost use Rattle.srt_connection_members.specs.Members.{member_at, HasRow, Changed};
ghost use Rattle.srt_group_shown.specs.Tables.{tables};
ghost use Rattle.srt_group_shown.specs.Ready.{Ready, storing, Performs};
ghost use Rattle.srt_group.specs.Made.{parts_of};
ghost use Rattle.srt_group_queueing.specs.Queueing.{Enqueueable, Enqueues};

use cell_set::{CellSet, lowest_free, take};
use srt_connection::legs::{LARGEST_16, LARGEST_32, LARGEST_SEQUENCE};
use srt_connection_members::{find, push_at, put_reservation_at, reservation_at, rows};
use srt_group::Group;
use srt_group_model::{Data, Event};
use srt_protocol::error::{Error, outcome_number};
use srt_protocol::received_payload::{CELL, cells_of, put_payload};

// 2: an id or a field of the packet out of range.
#[tactic(auto, unfolding(srt_group_model::specs::Calls::data_unfit, srt_group_model::specs::Validity::data_words, srt_group_model::specs::Validity::any_above, srt_group_model::specs::Tools::any))]
fn data_unfit(id: u64, content: Data) -> bool
    ensures { result ≡ data_unfit id content }
{
    (content.count == 0)
        | (LARGEST_32 < id)
        | (LARGEST_SEQUENCE < content.sequence)
        | (LARGEST_16 < content.count)
        | (LARGEST_32 < content.message)
        | (LARGEST_32 < content.timestamp)
}

// The packet in its cell.
fn data_event(content: Data, cell: usize, size: usize) -> Event
    ensures { result ≡ data_event cell size content }
{
    // Kept (1): the kind is a word of the row, 0 of data, which the definitions compare.
    Event {
        kind: 0,
        reason: 0,
        content: Data {
            cell: cell as u64,
            length: size as u64,
            ..content
        },
    }
}

// The count of a packet that is queued is added to its leg's reservation.
fn reserve_leg_at(members: &mut [u64], index: usize, count: u64)
    requires has_row { HasRow index members.old }
    requires count_bound { (member_at members.old index).leg.receiver.reserved + count < 2 ^ 64 }
    ensures { Changed index (on_leg (add_reservation count)) members.old members.new }
{
    let reserved = reservation_at(members, index) + count;
    put_reservation_at(members, index, reserved);
}

// 31, or the packet at the end of the queue of the member at an index, its payload in the cell, and the cell taken.
fn enqueue(
    members: &mut [u64],
    store: &mut [u8],
    used: &mut CellSet,
    index: usize,
    cell: usize,
    content: Data,
    payload: &[u8],
) -> Result<(), Error>
    requires { Enqueueable index cell content (length payload.now) members.old (length store.old) }
    ensures { Enqueues index cell content payload.now
        members.old store.old used.old result
        members.new store.new used.new }
{
    let event = data_event(content, cell, payload.len());
    push_at(members, index, event)?;
    reserve_leg_at(members, index, content.count);
    let _ = put_payload(store, cell, payload); // the cell is one of the store's, and the payload fits it: never refused
    take(used, cell);
    Ok(())
}

// `queue_data` for a valid state, of which `used` shows the cells in use.
pub fn queue_data(
    group: Group,
    members: &mut [u64],
    pending: &[u64],
    waiting: &[u64],
    history: &[u64],
    sources: &[u64],
    store: &mut [u8],
    used: &mut CellSet,
    id: u64,
    content: Data,
    payload: &[u8],
) -> Result<(), Error>
    requires { Ready (parts_of group)
        (tables members.old pending.now waiting.now history.now sources.now) (length store.old) used.old }
    ensures { Performs (call_queue_data id content payload.now) (parts_of group)
        (tables members.old pending.now waiting.now history.now sources.now)
        (storing store.old) (outcome_number result) no_answer (parts_of group)
        (tables members.new pending.now waiting.now history.now sources.now)
        (storing store.new) used.new }
{
    if data_unfit(id, content) {
        return Err(Error::OutOfRange);
    }
    let Some(index) = find(rows(members, group.core.counts.members), id) else {
        return Err(Error::UnknownMember);
    };
    if CELL < payload.len() {
        return Err(Error::PayloadTooLong);
    }
    let cell = lowest_free(used, cells_of(store.len())).ok_or(Error::NoFreeCell)?;
    enqueue(members, store, used, index, cell, content, payload)
}
