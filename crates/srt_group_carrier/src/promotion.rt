// After a failed send another member is promoted, and tried once with the same sequence.
// Kept (5, 6): a host lends each table as words; a struct of `&mut` fields wants a clause a field, in every function, that its slice is still the caller's (docs/DECISIONS.md).
// Kept (5, 6): the list goes with its rows in use: `Wrote` says of the whole list which rows are written, a rest of it (`&mut list[..]`) would say so of the rest alone.
ghost use Rattle.std.specs.Prelude.{◌-◌, ◌≤◌};
ghost use Rattle.srt_group_model.specs.Sending.{max_sent};
ghost use Rattle.srt_group_model.specs.Backup.{max_history, send_after_promotion};
ghost use Rattle.srt_connection_members.specs.Members.{member_at};
ghost use Rattle.srt_group_tables.specs.Ring.{Packs};
ghost use Rattle.srt_group_carrier.specs.Lendable.{backup_tables, Sendable};
ghost use Rattle.srt_group_carrier.specs.Flows.{on_promoted, every, BackupFlows};

use crate::carrier::{promote_after_failure, take_over};
use crate::recording::keep_sent;
use cell_set::CellSet;
use srt_connection_members::rows;
use srt_group_backup::send::send_on;
use srt_group_backup::trimming::SendHistory;
use srt_group_members::states::first_active;
use srt_group_model::Entry;
use srt_group_sending::flown::Flown;
use srt_protocol::error::Error;

// A promoted member takes over, and is tried with the sequence of the send that failed.
fn send_on_promoted(
    send: SendHistory,
    history: &mut [u64],
    sources: &mut [u64],
    members: &mut [u64],
    count: usize,
    index: usize,
    list: &mut [u64],
    sent: usize,
    used: &mut CellSet,
    entry: Entry,
) -> Flown<SendHistory>
    requires sendable { Sendable count index send.ring (backup_tables members.old history.old sources.old list.old used.old) }
    requires sent_bound { (sent ≤ max_sent - max_history - 1) × Packs entry.sequence entry.cell entry.length }
    ensures { BackupFlows every (on_promoted entry.source.0 entry.length entry.cell entry.sequence index) entry.cell count send.sending send.ring sent
        (backup_tables members.old history.old sources.old list.old used.old) result
        (backup_tables members.new history.new sources.new list.new used.new) }
{
    let taken = take_over(
        send,
        history,
        sources,
        members,
        count,
        index,
        list,
        sent,
        used,
        entry.source,
    );
    if taken.outcome.is_err() {
        return taken;
    }
    if !send_on(
        members,
        index,
        entry.source,
        entry.length,
        entry.sequence,
        list,
        taken.sent,
    ) {
        return Flown {
            outcome: Err(Error::PromotionSendFailed),
            ..taken
        };
    }
    keep_sent(
        taken.state,
        history,
        sources,
        members,
        index,
        taken.sent,
        used,
        entry,
    )
}

// After a failed send at an index another member is promoted and tried.
pub fn send_after_promotion(
    send: SendHistory,
    history: &mut [u64],
    sources: &mut [u64],
    members: &mut [u64],
    count: usize,
    index: usize,
    list: &mut [u64],
    sent: usize,
    used: &mut CellSet,
    entry: Entry,
) -> Flown<SendHistory>
    requires sendable { Sendable count index send.ring (backup_tables members.old history.old sources.old list.old used.old) }
    requires sent_bound { (sent ≤ max_sent - max_history - 1) × Packs entry.sequence entry.cell entry.length }
    ensures { BackupFlows every
        (send_after_promotion entry.source.0 entry.length entry.cell entry.sequence index (member_at members.old index)) entry.cell count send.sending send.ring sent
        (backup_tables members.old history.old sources.old list.old used.old) result
        (backup_tables members.new history.new sources.new list.new used.new) }
{
    promote_after_failure(members, count, index);
    let found = first_active(rows(members, count));
    let Some(promoted) = found else {
        return Flown {
            outcome: Err(Error::AllBackupFailed),
            state: send,
            sent,
        };
    };
    send_on_promoted(
        send, history, sources, members, count, promoted, list, sent, used, entry,
    )
}
