// A send in Broadcast: the same payload at the same sequence on every active leg. A leg that fails is marked, and the others are
// tried all the same.
// Kept (5, 6): a host lends each table as words; a struct of `&mut` fields wants a clause a field, in every function, that its slice is still the caller's (docs/DECISIONS.md).
// Kept (3): what changes members goes by the index, since of the words that `as_chunks_mut` lends nothing is promised once they are back.
// Kept (5, 6): the list goes with its rows in use: `Wrote` says of the whole list which rows are written, a rest of it (`&mut list[..]`) would say so of the rest alone.
ghost use Rattle.std.specs.Prelude.{◌≡◌, not, ◌&&◌, ◌*◌, ◌≤◌, ◌<◌, length};
ghost use Rattle.srt_protocol.specs.Sequence.{sequence_further};
ghost use Rattle.srt_group_model.specs.Tools.{such_that};
ghost use Rattle.srt_group_model.specs.Legs.{is_connected, can_send};
ghost use Rattle.srt_group_model.specs.Members.{is_active};
ghost use Rattle.srt_group_model.specs.Sending.{max_sent, list_size, mark_send_failure, above_limit, sequence_mismatch};
ghost use Rattle.srt_group_model.specs.Validity.{max_members};
ghost use Rattle.srt_connection_queue.specs.Rows.{row_size, member_of};
ghost use Rattle.srt_connection_members.specs.Members.{members_in, HasRow, Changed};
ghost use Rattle.srt_group_sending.specs.SentList.{send_tables};
ghost use Rattle.srt_group_sending.specs.Broadcast.{number_for_send, is_mismatched, AttemptedAt, Attempted, SentBroadcast};
ghost use Rattle.srt_group_model.specs.State.{with_number};

use crate::flown::Flown;
use crate::own::send_on;
use srt_connection::legs::{can_send, is_connected};
use srt_connection_members::{leg_at, row, rows};
use srt_connection_queue::rows::{Row, leg, sender};
use srt_group_members::states::{BROKEN, UNSTABLE, first_active, is_active, turn_at};
use srt_group_model::{Leg, Sending};
use srt_protocol::error::Error;
use srt_protocol::srt_packet::word_further;
use srt_protocol::time::Timestamp;

// ---- a leg that failed

// Connected, but with no room in its window.
fn has_full_window(leg: Leg) -> bool
    ensures { result ≡ (is_connected leg && not (can_send leg)) }
{
    is_connected(leg) && !can_send(leg)
}

// A full window opens again once the peer acknowledges; any other failure is for good.
#[tactic(auto, using(crate::specs::Laws::Broadcast::marked_unstable, crate::specs::Laws::Broadcast::marked_broken))]
pub fn mark_send_failure_at(members: &mut [u64], index: usize)
    requires { HasRow index members.old }
    ensures { Changed index mark_send_failure members.old members.new }
{
    let state = if has_full_window(leg_at(members, index)) {
        UNSTABLE
    } else {
        BROKEN
    };
    turn_at(members, index, state);
}

// ---- before anything is sent

// Whether the payload is above the limit of the first active leg.
pub fn above_limit(rows: &[Row], size: u64) -> bool
    ensures { result ≡ above_limit size (members_in rows.now) }
{
    rows.iter()
        .find(|row| is_active(row))
        .is_some_and(|row| leg(row).link.limit < size)
}

// The group's send number, else the next number of the member's leg.
#[tactic(auto, using(crate::specs::Laws::Broadcast::number_or))]
pub fn sequence_for_send(row: &Row, sending: Sending) -> u64
    ensures { result ≡ number_for_send sending (member_of row.now) }
{
    sending.next_send_sequence().unwrap_or(sender(row).next)
}

// Active, and not at the sequence.
#[tactic(auto, unfolding(crate::specs::Broadcast::is_mismatched))]
fn is_mismatched(row: &Row, sequence: u64) -> bool
    ensures { result ≡ is_mismatched sequence (member_of row.now) }
{
    is_active(row) && sender(row).next != sequence
}

// Whether an active leg is not at the sequence.
pub fn sequence_mismatch(rows: &[Row], sequence: u64) -> bool
    ensures { result ≡ sequence_mismatch sequence (such_that is_active (members_in rows.now)) }
{
    rows.iter().any(|row| is_mismatched(row, sequence))
}

// ---- the attempts

// An attempt on the member at the index, if it is active; a successful one is noted behind the first `sent` rows. How many rows
// are written then.
fn attempt_send_at(
    members: &mut [u64],
    index: usize,
    list: &mut [u64],
    sent: usize,
    time: Timestamp,
    size: u64,
    sequence: u64,
) -> usize
    requires has_row { HasRow index members.old }
    requires list_size_in_bounds { (list_size ≤ length list.old) × (sent < max_sent) }
    ensures { AttemptedAt index time.0 size sequence sent
        (send_tables members.old list.old) result
        (send_tables members.new list.new) }
{
    if !is_active(row(members, index)) {
        return sent;
    }
    if !send_on(members, index, time, size, sequence, list, sent) {
        mark_send_failure_at(members, index);
        return sent;
    }
    sent + 1
}

// An attempt on every active member: how many were successful.
#[tactic(auto, using(crate::specs::Laws::Broadcast::attempting_done))]
fn attempt_sends(
    members: &mut [u64],
    count: usize,
    list: &mut [u64],
    time: Timestamp,
    size: u64,
    sequence: u64,
) -> usize
    requires row_size_in_bounds { (count * row_size ≤ length members.old) × (count ≤ max_members) }
    requires list_size_in_bounds { list_size ≤ length list.old }
    ensures { Attempted count time.0 size sequence
        (send_tables members.old list.old) result
        (send_tables members.new list.new) }
{
    let mut sent = 0;
    for i in 0..count {
        sent = attempt_send_at(members, i, list, sent, time, size, sequence);
    }
    sent
}

// The group's number after a send at the sequence.
pub fn with_number_after(mut sending: Sending, sequence: u64) -> Sending
    ensures { result ≡ with_number (sequence_further sequence 1) sending }
{
    // Kept (1): the number and its flag are words of the lent record, set here alone: this function is the setter.
    sending.numbered = 1;
    sending.next = word_further(sequence, 1);
    sending
}

// The payload goes out on every active leg at one sequence. It is sent if one leg took it.
pub fn send_broadcast(
    sending: Sending,
    members: &mut [u64],
    count: usize,
    list: &mut [u64],
    time: Timestamp,
    size: u64,
) -> Flown<Sending>
    requires row_size_in_bounds { (count * row_size ≤ length members.old) × (count ≤ max_members) }
    requires list_size_in_bounds { list_size ≤ length list.old }
    ensures { SentBroadcast count time.0 size sending
        (send_tables members.old list.old) result
        (send_tables members.new list.new) }
{
    let found = first_active(rows(members, count));
    let Some(first) = found else {
        return Flown {
            outcome: Err(Error::NoActiveMember),
            state: sending,
            sent: 0,
        };
    };
    let sequence = sequence_for_send(row(members, first), sending);
    if sequence_mismatch(rows(members, count), sequence) {
        return Flown {
            outcome: Err(Error::SequenceMismatch),
            state: sending,
            sent: 0,
        };
    }
    let sent = attempt_sends(members, count, list, time, size, sequence);
    if sent == 0 {
        return Flown {
            outcome: Err(Error::AllBroadcastFailed),
            state: sending,
            sent,
        };
    }
    let numbered = with_number_after(sending, sequence);
    Flown {
        outcome: Ok(()),
        state: numbered,
        sent,
    }
}
