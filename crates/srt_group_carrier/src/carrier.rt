// Who carries. Before a send a carrier that fell silent is demoted; after one that failed another member is promoted; and who carries in
// another's place replays the flight that is not acknowledged, so that the receiver gets no hole.
// Kept (5, 6): a host lends each table as words; a struct of `&mut` fields wants a clause a field, in every function, that its slice is still the caller's (docs/DECISIONS.md).
// Kept (5, 6): the list goes with its rows in use: `Wrote` says of the whole list which rows are written, a rest of it (`&mut list[..]`) would say so of the rest alone.
// Kept (1): the mode is the record's word, which a C host lends so that 6 can refuse it; it goes on as it is, to `promote_if_none`.
ghost use Rattle.std.specs.Prelude.{◌-◌, ◌*◌, ◌≤◌, ◌<◌, length};
ghost use Rattle.srt_group_model.specs.Tools.{change};
ghost use Rattle.srt_group_model.specs.Members.{promote_backup_member, promote_if_none};
ghost use Rattle.srt_group_model.specs.Sending.{max_sent, mark_send_failure};
ghost use Rattle.srt_group_model.specs.Backup.{max_history, demote_stale_backup_carrier, take_over_backup_flight};
ghost use Rattle.srt_group_model.specs.Sound.{AllFit};
ghost use Rattle.srt_connection_queue.specs.Rows.{row_size};
ghost use Rattle.srt_connection_members.specs.Members.{members_of};
ghost use Rattle.srt_group_members.specs.Scan.{Became};
ghost use Rattle.srt_group_tables.specs.Ring.{arrays, entries_of};
ghost use Rattle.srt_group_sending.specs.SentList.{send_tables};
ghost use Rattle.srt_group_backup.specs.TakeOver.{TookOver};
ghost use Rattle.srt_group_carrier.specs.Freeing.{TrimFollows};
ghost use Rattle.srt_group_carrier.specs.Lendable.{backup_tables, Sendable};

use crate::freeing::free_dropped;
use cell_set::CellSet;
use srt_group_backup::stale::demote_stale_backup_carrier;
use srt_group_backup::takeover::take_over_backup_flight;
use srt_group_backup::trimming::SendHistory;
use srt_group_members::promotion::{promote_backup_member, promote_if_none};
use srt_group_sending::broadcast::mark_send_failure_at;
use srt_group_sending::flown::Flown;
use srt_group_tables::history::{History, HistoryWords};
use srt_protocol::time::Timestamp;

// The carrier is demoted if it fell silent, and another is promoted if no member is active then.
pub fn ready_members(members: &mut [u64], count: usize, mode: u64, time: Timestamp)
    requires row_size_in_bounds { count * row_size ≤ length members.old }
    requires all_fit { AllFit (members_of count members.old) }
    ensures { Became count
        (promote_if_none mode (demote_stale_backup_carrier time.0 (members_of count members.old)))
        members.old members.new }
{
    demote_stale_backup_carrier(members, count, time);
    promote_if_none(members, count, mode);
}

// The member at an index failed a send: it is marked, and another is promoted.
pub fn promote_after_failure(members: &mut [u64], count: usize, index: usize)
    requires { (index < count) × (count * row_size ≤ length members.old) }
    ensures { Became count
        (promote_backup_member (change index mark_send_failure (members_of count members.old)))
        members.old members.new }
{
    mark_send_failure_at(members, index);
    promote_backup_member(members, count);
}

// The take-over, with the cells of the entries that its trim dropped free again.
pub fn take_over(
    send: SendHistory,
    history: &[u64],
    sources: &[u64],
    members: &mut [u64],
    count: usize,
    index: usize,
    list: &mut [u64],
    sent: usize,
    used: &mut CellSet,
    time: Timestamp,
) -> Flown<SendHistory>
    requires sendable { Sendable count index send.ring (backup_tables members.old history.now sources.now list.old used.old) }
    requires sent_bound { sent ≤ max_sent - max_history }
    ensures took_over { TookOver (take_over_backup_flight time.0 index) count send.sending send.ring
        (arrays history.now sources.now) sent
        (send_tables members.old list.old) result
        (send_tables members.new list.new) }
    ensures trim_follows { TrimFollows
        (entries_of send.ring (arrays history.now sources.now)) used.old
        (entries_of result.state.ring (arrays history.now sources.now)) used.new }
{
    let words = HistoryWords {
        ring: send.ring,
        history,
    };
    let flight = History { words, sources };
    let taken = take_over_backup_flight(
        send.sending,
        &flight,
        members,
        count,
        index,
        list,
        sent,
        time,
    );
    free_dropped(&flight.words, taken.state.ring.length, used);
    taken
}
