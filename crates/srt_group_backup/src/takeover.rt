// The take-over: a member that is to carry the next send first replays the flight of the carrier before it, as far as it is not
// acknowledged, at the same sequences. One that cannot replay all of it is refused.
// Kept (5, 6): a host lends each table as words; a struct of `&mut` fields wants a clause a field, in every function, that its slice is still the caller's (docs/DECISIONS.md).
// Kept (5, 6): the list goes with its rows in use: `Wrote` says of the whole list which rows are written, a rest of it (`&mut list[..]`) would say so of the rest alone.
// Kept (5): the numbers of sending go beside the `History`, which has the ring: a `SendHistory` would hold the ring again.
ghost use Rattle.std.specs.Prelude.{◌≡◌, ◌-◌, ◌*◌, ◌≤◌, ◌<◌, length};
ghost use Rattle.srt_group_model.specs.Backup.{max_history, replay_on, replay_flight, take_over_backup_flight};
ghost use Rattle.srt_group_model.specs.Sending.{max_sent, list_size};
ghost use Rattle.srt_connection_queue.specs.Rows.{row_size};
ghost use Rattle.srt_connection_members.specs.Members.{member_at, HasRow};
ghost use Rattle.srt_group_tables.specs.Ring.{arrays, entry_at, entries_of, send_of};
ghost use Rattle.srt_group_sending.specs.SentList.{send_tables};
ghost use Rattle.srt_group_backup.specs.TakeOver.{HistoryIs, SendIs, FlightReplayed, CarrierAligned, TookOver};

use crate::replay::replay_entries;
use crate::trimming::{SendHistory, trim_by_carrier};
use srt_connection::legs::remaining_window_packets;
use srt_connection_members::{leg_at, put_leg_at, row, rows};
use srt_connection_queue::rows::member_id;
use srt_group_members::alignment::{align_leg, align_member_sequence};
use srt_group_model::{Leg, Sending};
use srt_group_sending::flown::Flown;
use srt_group_sending::readiness::takes_over;
use srt_group_tables::history::{History, HistoryWords};
use srt_protocol::error::Error;
use srt_protocol::time::Timestamp;

// The flight on a leg that stands at its first sequence. The window must have room for one more than all: the next send.
#[tactic(auto, using(crate::specs::Laws::TakeOver::no_room_to_replay, crate::specs::Laws::TakeOver::replayed_with_room))]
pub fn replay_on(
    leg: Leg,
    history: &History,
    members: &mut [u64],
    index: usize,
    list: &mut [u64],
    sent: usize,
    time: Timestamp,
) -> Flown<()>
    requires has_row { HasRow index members.old }
    requires list_size_in_bounds { (list_size ≤ length list.old) × (sent ≤ max_sent - max_history) }
    ensures { FlightReplayed (replay_on time.0 index (member_at members.old index) leg)
        (HistoryIs (entries_of history.now.words.ring (arrays history.now.words.history.now history.now.sources.now))) sent
        (send_tables members.old list.old) result
        (send_tables members.new list.new) }
{
    let entries = history.words.ring.length as u64;
    if remaining_window_packets(leg) <= entries {
        put_leg_at(members, index, leg);
        return Flown {
            outcome: Err(Error::ReplayRefused),
            state: (),
            sent,
        };
    }
    let id = member_id(row(members, index));
    let played = replay_entries(leg, history, time, id, list, sent);
    put_leg_at(members, index, played.state);
    Flown {
        outcome: played.outcome,
        state: (),
        sent: played.sent,
    }
}

// The flight on the member at an index, once its leg is brought to the first sequence.
pub fn replay_flight(
    sending: Sending,
    history: &History,
    members: &mut [u64],
    index: usize,
    list: &mut [u64],
    sent: usize,
    time: Timestamp,
) -> Flown<()>
    requires has_row { HasRow index members.old }
    requires list_size_in_bounds { (list_size ≤ length list.old) × (sent ≤ max_sent - max_history) }
    ensures { FlightReplayed
        (replay_flight time.0 index (member_at members.old index)
        (entry_at history.now.words.ring (arrays history.now.words.history.now history.now.sources.now) 0))
        (SendIs (send_of sending history.now.words.ring (arrays history.now.words.history.now history.now.sources.now))) sent
        (send_tables members.old list.old) result
        (send_tables members.new list.new) }
{
    // Kept (1): the gap is a word of the lent record, asked here and in the readiness test alone: a method for two places is no plainer.
    if sending.gap != 0 {
        return Flown {
            outcome: Err(Error::ReplayRefused),
            state: (),
            sent,
        };
    }
    let first = history.entry_at(0);
    let result = align_leg(leg_at(members, index), first.sequence);
    let Some(leg) = result else {
        return Flown {
            outcome: Err(Error::ReplayRefused),
            state: (),
            sent,
        };
    };
    replay_on(leg, history, members, index, list, sent, time)
}

// With nothing to replay the leg is aligned to the group's send number, once there is one.
#[tactic(auto, using(crate::specs::Laws::TakeOver::carrier_not_aligned, crate::specs::Laws::TakeOver::carrier_aligned))]
pub fn align_carrier(
    sending: Sending,
    members: &mut [u64],
    count: usize,
    index: usize,
) -> Result<(), Error>
    requires { count * row_size ≤ length members.old }
    ensures { CarrierAligned index count sending members.old result members.new }
{
    let number = sending.next_send_sequence();
    if number.is_none() {
        return Ok(());
    }
    if !align_member_sequence(members, count, number, index) {
        return Err(Error::AlignmentFailed);
    }
    Ok(())
}

// The member at an index is made ready to carry the next send; or it cannot be.
#[tactic(auto, using(crate::specs::Laws::TakeOver::no_take_over))]
pub fn take_over_backup_flight(
    sending: Sending,
    history: &History,
    members: &mut [u64],
    count: usize,
    index: usize,
    list: &mut [u64],
    sent: usize,
    time: Timestamp,
) -> Flown<SendHistory>
    requires index_lt_count { (index < count) × (count * row_size ≤ length members.old) }
    requires list_size_in_bounds { (list_size ≤ length list.old) × (sent ≤ max_sent - max_history) }
    ensures { TookOver (take_over_backup_flight time.0 index) count sending history.now.words.ring
        (arrays history.now.words.history.now history.now.sources.now) sent
        (send_tables members.old list.old) result
        (send_tables members.new list.new) }
{
    let id = member_id(row(members, index));
    if !takes_over(sending, id) {
        let outcome = align_carrier(sending, members, count, index);
        return Flown {
            outcome,
            state: SendHistory {
                sending,
                ring: history.words.ring,
            },
            sent,
        };
    }
    // Acknowledgements may have arrived since the carrier's last send.
    let trimmed = trim_by_carrier(sending, &history.words, rows(members, count));
    if trimmed.ring.length == 0 {
        let outcome = align_carrier(trimmed.sending, members, count, index);
        return Flown {
            outcome,
            state: trimmed,
            sent,
        };
    }
    let rest = History {
        words: HistoryWords {
            ring: trimmed.ring,
            history: history.words.history,
        },
        sources: history.sources,
    };
    let flight = replay_flight(trimmed.sending, &rest, members, index, list, sent, time);
    Flown {
        outcome: flight.outcome,
        state: trimmed,
        sent: flight.sent,
    }
}
