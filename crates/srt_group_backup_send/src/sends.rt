// One Backup send. A carrier that fell silent is demoted first; a member that takes over from another carrier replays the flight that
// is not acknowledged, so that the receiver gets no hole; after a failed send another member is promoted, and tried once.
// Kept (5, 6): a host lends each table as words; a struct of `&mut` fields wants a clause a field, in every function, that its slice is still the caller's (docs/DECISIONS.md).
// Kept (5, 6): the list goes with its rows in use: `Wrote` says of the whole list which rows are written, a rest of it (`&mut list[..]`) would say so of the rest alone.
// Kept (5): a payload has a time, a size and a cell before it has its sequence; with it, it is an `Entry`.
// Kept (1): the mode is the record's word, which a C host lends so that 6 can refuse it; it goes on as it is, to `promote_if_none`.
ghost use Rattle.std.specs.Prelude.{◌-◌, ◌≤◌, ◌<◌};
ghost use Rattle.srt_group_model.specs.Sending.{max_sent};
ghost use Rattle.srt_group_model.specs.Backup.{max_history, send_at_place, send_backup};
ghost use Rattle.srt_connection_members.specs.Members.{member_at, members_of};
ghost use Rattle.srt_group_tables.specs.Ring.{arrays, Packs, cells_in_word, lengths_in_word, send_of};
ghost use Rattle.srt_group_sending.specs.Broadcast.{number_for_send};
ghost use Rattle.srt_group_carrier.specs.Lendable.{backup_tables, Lendable, Sendable, NumbersFit};
ghost use Rattle.srt_group_carrier.specs.Flows.{every, InMode, BackupFlows};
ghost use Rattle.srt_group_backup_send.specs.BackupSend.{on_carrier};

use cell_set::CellSet;
use srt_connection_members::{row, rows, sender_at};
use srt_group_backup::send::send_on;
use srt_group_backup::trimming::SendHistory;
use srt_group_carrier::carrier::{ready_members, take_over};
use srt_group_carrier::promotion::send_after_promotion;
use srt_group_carrier::recording::keep_sent;
use srt_group_members::states::first_active;
use srt_group_model::Entry;
use srt_group_sending::broadcast::sequence_for_send;
use srt_group_sending::flown::Flown;
use srt_protocol::error::Error;
use srt_protocol::time::Timestamp;

// The call's own payload on the member at an index, which is ready to carry it.
fn send_at_place(
    send: SendHistory,
    history: &mut [u64],
    sources: &mut [u64],
    members: &mut [u64],
    count: usize,
    index: usize,
    list: &mut [u64],
    sent: usize,
    used: &mut CellSet,
    time: Timestamp,
    size: u64,
    cell: u64,
) -> Flown<SendHistory>
    requires sendable { Sendable count index send.ring (backup_tables members.old history.old sources.old list.old used.old) }
    requires sent_bound { (sent ≤ max_sent - max_history - 1) × Packs (number_for_send send.sending (member_at members.old index)) cell size }
    ensures { BackupFlows every (send_at_place time.0 size cell index) cell count send.sending send.ring sent
        (backup_tables members.old history.old sources.old list.old used.old) result
        (backup_tables members.new history.new sources.new list.new used.new) }
{
    let sequence = sequence_for_send(row(members, index), send.sending);
    let sender = sender_at(members, index);
    if sender.next != sequence {
        return Flown {
            outcome: Err(Error::SequenceMismatch),
            state: send,
            sent,
        };
    }
    let entry = Entry {
        sequence,
        cell,
        length: size,
        source: time,
    };
    if send_on(members, index, time, size, sequence, list, sent) {
        return keep_sent(send, history, sources, members, index, sent, used, entry);
    }
    send_after_promotion(
        send, history, sources, members, count, index, list, sent, used, entry,
    )
}

// The first active member carries: it takes over if another did, and then the payload is sent.
fn send_on_carrier(
    send: SendHistory,
    history: &mut [u64],
    sources: &mut [u64],
    members: &mut [u64],
    count: usize,
    index: usize,
    list: &mut [u64],
    used: &mut CellSet,
    time: Timestamp,
    size: u64,
    cell: u64,
) -> Flown<SendHistory>
    requires sendable { Sendable count index send.ring (backup_tables members.old history.old sources.old list.old used.old) }
    requires numbers_fit { NumbersFit (send_of send.sending send.ring (arrays history.old sources.old)) (members_of count members.old) }
    requires cell_lt_cells_in_word { (cell < cells_in_word) × (size < lengths_in_word) }
    ensures { BackupFlows every (on_carrier time.0 size cell index) cell count send.sending send.ring 0
        (backup_tables members.old history.old sources.old list.old used.old) result
        (backup_tables members.new history.new sources.new list.new used.new) }
{
    let taken = take_over(
        send, history, sources, members, count, index, list, 0, used, time,
    );
    if taken.outcome.is_err() {
        return taken;
    }
    send_at_place(
        taken.state,
        history,
        sources,
        members,
        count,
        index,
        list,
        taken.sent,
        used,
        time,
        size,
        cell,
    )
}

// One Backup send of a payload of `size` bytes, which is kept under the cell if it succeeds.
pub fn send_backup(
    mode: u64,
    send: SendHistory,
    history: &mut [u64],
    sources: &mut [u64],
    members: &mut [u64],
    count: usize,
    list: &mut [u64],
    used: &mut CellSet,
    time: Timestamp,
    size: u64,
    cell: u64,
) -> Flown<SendHistory>
    requires lendable { Lendable count send.ring (backup_tables members.old history.old sources.old list.old used.old) }
    requires numbers_fit { NumbersFit (send_of send.sending send.ring (arrays history.old sources.old)) (members_of count members.old) }
    requires cell_lt_cells_in_word { (cell < cells_in_word) × (size < lengths_in_word) }
    ensures { BackupFlows (InMode mode) (send_backup time.0 size cell) cell count send.sending send.ring 0
        (backup_tables members.old history.old sources.old list.old used.old) result
        (backup_tables members.new history.new sources.new list.new used.new) }
{
    ready_members(members, count, mode, time);
    let found = first_active(rows(members, count));
    let Some(index) = found else {
        return Flown {
            outcome: Err(Error::NoActiveMember),
            state: send,
            sent: 0,
        };
    };
    send_on_carrier(
        send, history, sources, members, count, index, list, used, time, size, cell,
    )
}
