// `send` for a valid state. The members' states are refreshed first; then the payload's size is tested once, against the first active
// leg, since a payload that is too large for every leg says nothing of a leg's health; then the send is the mode's.
// Kept (5, 6): a send changes all tables but two, each lent by itself: of a struct of `&mut` fields each clause names every field's ghost name (docs/DECISIONS.md).
// Kept (5): the rules take a payload's time, size and cell one by one, so a struct of the three would be taken apart in each clause, and is no plainer. The mode
// goes in beside the cell, which says it too (`CellByMode`): the definitions turn on the mode's word.
// Kept (1): the mode is handed on as the record's word, which the definitions below compare; code asks `is_backup` of it where it chooses.
ghost use Rattle.std.specs.Prelude.{◌≡◌, true, ◌*◌, ◌≤◌, ◌<◌, length, is_ok, Err, Ok};
ghost use Rattle.std.specs.Result.{result_and};
ghost use Rattle.srt_protocol.specs.Cells.{cell_size, cells_of, max_cells, overwritten};
ghost use Rattle.srt_group_model.specs.Tools.{if_true◌then◌else◌};
ghost use Rattle.srt_group_model.specs.State.{is_backup};
ghost use Rattle.srt_group_model.specs.Sending.{list_size, send_broadcast};
ghost use Rattle.srt_group_model.specs.Backup.{send_backup};
ghost use Rattle.srt_group_model.specs.Validity.{max_members};
ghost use Rattle.srt_connection_members.specs.Members.{members_of};
ghost use Rattle.srt_group_tables.specs.Ring.{arrays, lengths_in_word, send_of};
ghost use Rattle.srt_group_carrier.specs.Lendable.{backup_tables, Lendable, NumbersFit};
ghost use Rattle.srt_group_carrier.specs.Flows.{InMode, BackupFlows};
ghost use Rattle.srt_group_shown.specs.Tables.{tables};
ghost use Rattle.srt_group_shown.specs.Ready.{Ready, sending_into};
ghost use Rattle.srt_group.specs.Made.{parts_of};
ghost use Rattle.srt_group_send.specs.Sends.{by_mode, cell_or_none, CellByMode, CellOfSend, FitShown, FlowMade, Storable, Sends};

use cell_set::{CellSet, lowest_free};
use srt_connection_members::rows;
use srt_group::Group;
use srt_group_backup::trimming::SendHistory;
use srt_group_backup_send::sends::send_backup;
use srt_group_members::states::is_backup;
use srt_group_polls::refresh::refresh_states;
use srt_group_sending::broadcast::{above_limit, send_broadcast};
use srt_group_sending::flown::Flown;
use srt_protocol::error::Error;
use srt_protocol::received_payload::{CELL, cells_of, put_payload};
use srt_protocol::time::Timestamp;

// The record after a send; on how many legs the payload was sent, or why not; and how many rows of the list are filled, by a refused send
// too.
#[derive(Clone, Copy)]
pub struct GroupSent {
    pub record: Group,
    pub answer: Result<usize, Error>,
    pub rows: usize,
}

impl GroupSent {
    // The send is refused before a leg was tried.
    pub fn refused(record: Group, error: Error) -> Self
        ensures { result ≡ record { «record» = «record»; answer = Err error; rows = 0 } }
    {
        GroupSent {
            record,
            answer: Err(error),
            rows: 0,
        }
    }
}

// On how many legs a payload was sent that has filled so many rows: in Backup on one, behind the flight that was replayed.
#[tactic(auto, using(srt_group_model::specs::Laws::Reason::when_true, srt_group_model::specs::Laws::Reason::when_false))]
fn legs_sent(outcome: Result<(), Error>, mode: u64, rows: usize) -> Result<usize, Error>
    ensures { result ≡ result_and outcome (Ok (if_true is_backup mode then 1 else rows)) }
{
    outcome?;
    if is_backup(mode) {
        return Ok(1);
    }
    Ok(rows)
}

// The send of the mode: on every active leg, or on the carrier, whose payload is kept in the cell.
fn send_mode(
    mode: u64,
    send: SendHistory,
    history: &mut [u64],
    sources: &mut [u64],
    members: &mut [u64],
    count: usize,
    list: &mut [u64],
    used: &mut CellSet,
    time: Timestamp,
    size: u64,
    cell: Option<usize>,
) -> Flown<SendHistory>
    requires lendable { Lendable count send.ring (backup_tables members.old history.old sources.old list.old used.old) }
    requires numbers_fit { NumbersFit (send_of send.sending send.ring (arrays history.old sources.old)) (members_of count members.old) }
    requires count_le_max_members { (count ≤ max_members) × (CellByMode mode cell × (size < lengths_in_word)) }
    ensures { BackupFlows (InMode mode) (by_mode mode time.0 size (cell_or_none cell)) (cell_or_none cell) count send.sending send.ring 0
        (backup_tables members.old history.old sources.old list.old used.old) result
        (backup_tables members.new history.new sources.new list.new used.new) }
{
    let Some(taken) = cell else {
        let sent = send_broadcast(send.sending, members, count, list, time, size);
        return Flown {
            outcome: sent.outcome,
            state: SendHistory {
                sending: sent.state,
                ..send
            },
            sent: sent.sent,
        };
    };
    send_backup(
        mode,
        send,
        history,
        sources,
        members,
        count,
        list,
        used,
        time,
        size,
        taken as u64,
    )
}

// The refresh, 23, and the send of the mode.
fn refresh_and_send(
    group: &Group,
    history: &mut [u64],
    sources: &mut [u64],
    members: &mut [u64],
    list: &mut [u64],
    used: &mut CellSet,
    time: Timestamp,
    size: u64,
    cell: Option<usize>,
) -> GroupSent
    requires lendable { Lendable group.now.core.counts.members group.now.ring (backup_tables members.old history.old sources.old list.old used.old) }
    requires fit_shown { FitShown group.now (backup_tables members.old history.old sources.old list.old used.old) }
    requires members_le_max_members { (group.now.core.counts.members ≤ max_members) × (CellByMode group.now.core.mode cell × (size < lengths_in_word)) }
    ensures { FlowMade (cell_or_none cell) time.0 size group.now
        (backup_tables members.old history.old sources.old list.old used.old) result
        (backup_tables members.new history.new sources.new list.new used.new) }
{
    let core = refresh_states(group.core, group.sending, members);
    let count = core.counts.members;
    if above_limit(rows(members, count), size) {
        return GroupSent::refused(Group { core, ..*group }, Error::PayloadAboveLimit);
    }
    let mode = group.core.mode;
    let send = SendHistory {
        sending: group.sending,
        ring: group.ring,
    };
    let sent = send_mode(
        mode, send, history, sources, members, count, list, used, time, size, cell,
    );
    GroupSent {
        record: Group {
            identity: group.identity,
            core,
            sending: sent.state.sending,
            ring: sent.state.ring,
        },
        answer: legs_sent(sent.outcome, mode, sent.sent),
        rows: sent.sent,
    }
}

// The payload of a send that succeeded goes into its cell, which refuses none that is `Storable`.
#[tactic(auto, using(crate::specs::Laws::Performed::not_stored))]
fn store_sent(store: &mut [u8], cell: usize, payload: &[u8], answer: Result<usize, Error>)
    requires { Storable cell (length payload.now) (length store.old) }
    ensures { store.new
        ≡ (if_true is_ok answer then overwritten (cell * cell_size) payload.now store.old else store.old) }
{
    if answer.is_ok() {
        let _ = put_payload(store, cell, payload);
    }
}

// The cell of a send's payload, the lowest that is free: a Broadcast send takes none.
fn cell_of_send(group: &Group, used: &CellSet, cells: usize) -> Result<Option<usize>, Error>
    requires { cells ≤ max_cells }
    ensures { CellOfSend group.now.core.mode used.now cells result }
{
    if !is_backup(group.core.mode) {
        return Ok(None);
    }
    let Some(cell) = lowest_free(used, cells) else {
        return Err(Error::NoFreeCell);
    };
    Ok(Some(cell))
}

// `send` for a valid state, of which `used` shows the cells in use. 30 comes before anything is refreshed; a Broadcast send takes no cell. The record is
// read where it stands, here and below: by value its 160 bytes would be copied once more at each of the two.
// `refresh_and_send` stands in one place, so that it is compiled into this: by itself it has the record copied whole (docs/DECISIONS.md).
pub fn send(
    group: &Group,
    members: &mut [u64],
    pending: &[u64],
    waiting: &[u64],
    history: &mut [u64],
    sources: &mut [u64],
    store: &mut [u8],
    list: &mut [u64],
    used: &mut CellSet,
    time: Timestamp,
    payload: &[u8],
) -> GroupSent
    requires ready { Ready (parts_of group.now)
        (tables members.old pending.now waiting.now history.old sources.old) (length store.old) used.old }
    requires list_size_in_bounds { list_size ≤ length list.old }
    ensures { Sends time.0 payload.now (parts_of group.now)
        (tables members.old pending.now waiting.now history.old sources.old)
        (sending_into store.old list.old) result
        (tables members.new pending.now waiting.now history.new sources.new)
        (sending_into store.new list.new) used.new }
{
    if CELL < payload.len() {
        return GroupSent::refused(*group, Error::PayloadTooLong);
    }
    let size = payload.len() as u64;
    let cell = match cell_of_send(group, used, cells_of(store.len())) {
        Ok(cell) => cell,
        Err(refusal) => return GroupSent::refused(*group, refusal),
    };
    let sent = refresh_and_send(
        group, history, sources, members, list, used, time, size, cell,
    );
    let Some(taken) = cell else {
        return sent;
    };
    store_sent(store, taken, payload, sent.answer);
    sent
}
