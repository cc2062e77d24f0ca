// A payload that was sent joins the history in its cell, until its carrier's peer acknowledges it.
// Kept (5, 6): a host lends each table as words; a struct of `&mut` fields wants a clause a field, in every function, that its slice is still the caller's (docs/DECISIONS.md).
ghost use Rattle.std.specs.Prelude.{◌≤◌, ◌<◌};
ghost use Rattle.srt_group_model.specs.Sending.{max_sent};
ghost use Rattle.srt_group_model.specs.Backup.{max_history};
ghost use Rattle.srt_connection_members.specs.Members.{member_at, HasRow};
ghost use Rattle.srt_group_tables.specs.Ring.{arrays, Long, Packs, entries_of};
ghost use Rattle.srt_group_backup.specs.OwnSend.{SendRecorded};
ghost use Rattle.srt_group_carrier.specs.Freeing.{SendFollows};
ghost use Rattle.srt_group_carrier.specs.Recording.{Kept};

use crate::freeing::free_dropped;
use cell_set::{CellSet, take};
use srt_connection_members::{leg_at, row};
use srt_connection_queue::rows::member_id;
use srt_group_backup::send::record_backup_send;
use srt_group_backup::trimming::SendHistory;
use srt_group_model::{Entry, Leg};
use srt_group_sending::flown::Flown;
use srt_group_tables::history::{HistoryWords, MAX_HISTORY, push_back};

// The entry's cell is taken. A full history loses its oldest entry before, and what the carrier's peer acknowledged after: their cells
// are free. `leg` is the carrier's leg after the send.
pub fn remember_send(
    send: SendHistory,
    history: &mut [u64],
    sources: &mut [u64],
    used: &mut CellSet,
    entry: Entry,
    leg: Leg,
    carrier: u64,
) -> SendHistory
    requires length_le_max_history { (send.ring.length ≤ max_history) × Long (arrays history.old sources.old) }
    requires packs { Packs entry.sequence entry.cell entry.length }
    ensures send_recorded { SendRecorded leg carrier entry send.sending send.ring
        (arrays history.old sources.old) result
        (arrays history.new sources.new) }
    ensures send_follows { SendFollows entry.cell
        (entries_of send.ring (arrays history.old sources.old)) used.old
        (entries_of result.ring (arrays history.new sources.new)) used.new }
{
    let before = HistoryWords {
        ring: send.ring,
        history,
    };
    free_dropped(&before, MAX_HISTORY - 1, used);
    take(used, entry.cell as usize);
    let kept = record_backup_send(send, history, sources, entry, leg, carrier);
    let pushed = HistoryWords {
        ring: push_back(send.ring),
        history,
    };
    free_dropped(&pushed, kept.ring.length, used);
    kept
}

// The payload that the member at an index has just sent is kept under its cell. `sent` rows were in use before.
pub fn keep_sent(
    send: SendHistory,
    history: &mut [u64],
    sources: &mut [u64],
    members: &[u64],
    index: usize,
    sent: usize,
    used: &mut CellSet,
    entry: Entry,
) -> Flown<SendHistory>
    requires has_row { HasRow index members.now }
    requires length_le_max_history { (send.ring.length ≤ max_history) × Long (arrays history.old sources.old) }
    requires packs { Packs entry.sequence entry.cell entry.length }
    requires sent_lt_max_sent { sent < max_sent }
    ensures { Kept entry.source.0 entry.length entry.cell entry.sequence (member_at members.now index) send.sending send.ring sent
        (arrays history.old sources.old) used.old result
        (arrays history.new sources.new) used.new }
{
    let id = member_id(row(members, index));
    let leg = leg_at(members, index);
    let kept = remember_send(send, history, sources, used, entry, leg, id);
    Flown {
        outcome: Ok(()),
        state: kept,
        sent: sent + 1,
    }
}
