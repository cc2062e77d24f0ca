// Whether and when a send can go.
// Kept (1): a state is a word of the lent row: a C host may lend any number, and 6 has to read it to refuse it.
ghost use Rattle.std.specs.Prelude.{◌≡◌};
ghost use Rattle.srt_group_model.specs.Tools.{any};
ghost use Rattle.srt_group_model.specs.Backup.{ready_to_send, group_time_until_send};
ghost use Rattle.srt_connection_queue.specs.Rows.{member_of};
ghost use Rattle.srt_connection_members.specs.Members.{members_in};
ghost use Rattle.srt_group_sending.specs.Readiness.{pacing_in, sends_now, may_carry, wait_of};
ghost use Rattle.srt_group_sending.specs.BackupReadiness.{is_other_carrier, send_number, front_sequence, replay_length, replay_sequence, gap_allows};
ghost use Rattle.srt_group_sending.specs.BackupReadiness.{stands_at, could_take_over, MemberReady, BackupReady};

use srt_connection::legs::{
    can_send, can_send_with_pacing, has_sender, remaining_window_packets, time_until_send,
};
use srt_connection_queue::rows::{Row, leg, member_id, member_state};
use srt_group_members::promotion::promotion;
use srt_group_members::states::{ACTIVE, STANDBY, first_active, is_active};
use srt_group_model::{Leg, Sending};
use srt_group_tables::history::{HistoryRing, HistoryWords};
use srt_protocol::time::Timestamp;

// The wait of a group with no member that could send, in microseconds.
const NO_MEMBER_WAIT: u64 = 100000;

// ---- Broadcast: whether an active leg can send

fn ready_to_send(leg: Leg, pacing: Option<Timestamp>) -> bool
    ensures { result ≡ ready_to_send (pacing_in pacing) leg }
{
    match pacing {
        Some(time) => can_send_with_pacing(leg, time),
        None => can_send(leg),
    }
}

fn sends_now(row: &Row, pacing: Option<Timestamp>) -> bool
    ensures { result ≡ sends_now (pacing_in pacing) (member_of row.now) }
{
    is_active(row) && ready_to_send(leg(row), pacing)
}

pub fn broadcast_send_ready(rows: &[Row], pacing: Option<Timestamp>) -> bool
    ensures { result ≡ any (sends_now (pacing_in pacing)) (members_in rows.now) }
{
    rows.iter().any(|row| sends_now(row, pacing))
}

// ---- how long until a send

// Active or Standby: one that sends, or that could take over.
#[tactic(auto, unfolding(crate::specs::Readiness::may_carry))]
fn may_carry(state: u64) -> bool
    ensures { result ≡ may_carry state }
{
    state == ACTIVE || state == STANDBY
}

// The wait of a member that is Active or Standby.
#[tactic(auto, using(crate::specs::Laws::Readiness::no_wait, crate::specs::Laws::Readiness::waits))]
fn wait_of(row: &Row, time: Timestamp) -> Option<u64>
    ensures { result ≡ wait_of time.0 (member_of row.now) }
{
    if !may_carry(member_state(row)) {
        return None;
    }
    Some(time_until_send(leg(row), time))
}

// The least time until a send of the Active and Standby members.
pub fn group_time_until_send(rows: &[Row], time: Timestamp) -> u64
    ensures { result ≡ group_time_until_send time.0 (members_in rows.now) }
{
    rows.iter()
        .filter_map(|row| wait_of(row, time))
        .min()
        .unwrap_or(NO_MEMBER_WAIT)
}

// ---- Backup: whether the next send could go, with the take-over that it would make

// Another member carried the last send.
pub fn takes_over(sending: Sending, id: u64) -> bool
    ensures { result ≡ is_other_carrier id sending }
{
    sending.carrier().is_some_and(|carrier| carrier != id)
}

// The sequence of the oldest entry of the history.
#[tactic(auto, using(crate::specs::Laws::BackupReadiness::front_shown))]
fn front_sequence(history: &HistoryWords) -> Option<u64>
    ensures { result ≡ front_sequence history.now.ring history.now.history.now }
{
    (history.ring.length != 0).then_some(history.sequence_at(0))
}

// The sequence at which a leg has to stand: that of the first entry that it would replay, else the group's send number.
#[tactic(auto, using(crate::specs::Laws::BackupReadiness::no_replay, crate::specs::Laws::BackupReadiness::replay_or))]
fn replay_sequence(takes: bool, sending: Sending, history: &HistoryWords) -> Option<u64>
    ensures { result ≡ replay_sequence takes sending history.now.ring history.now.history.now }
{
    if !takes {
        return sending.next_send_sequence();
    }
    front_sequence(history).or(sending.next_send_sequence())
}

// A history that lost entries cannot be replayed.
// Kept (1): the gap is a word of the lent record, asked here and in a replay alone: a method for two places is no plainer.
#[tactic(auto, using(crate::specs::Laws::BackupReadiness::allows_when))]
fn gap_allows(takes: bool, replay: usize, gap: u64) -> bool
    ensures { result ≡ gap_allows takes replay gap }
{
    !takes | (replay == 0) | (gap == 0)
}

// Whether the leg stands at the sequence, or can be brought there because nothing of it is in flight.
fn stands_at(leg: Leg, sequence: Option<u64>) -> bool
    ensures { result ≡ stands_at sequence leg }
{
    sequence.is_none_or(|number| (leg.sender.next == number) | (leg.sender.flight == 0))
}

// How many entries a leg would replay.
#[tactic(auto, using(crate::specs::Laws::BackupReadiness::replays_all, crate::specs::Laws::BackupReadiness::replays_none))]
fn replay_length(takes: bool, ring: HistoryRing) -> usize
    ensures { result ≡ replay_length takes ring }
{
    if takes { ring.length } else { 0 }
}

// Whether a leg that can send could make the take-over, with room for the send behind it.
#[tactic(auto, using(crate::specs::Laws::BackupReadiness::gap_refuses, crate::specs::Laws::BackupReadiness::window_refuses, crate::specs::Laws::BackupReadiness::stands_decides))]
fn could_take_over(leg: Leg, id: u64, sending: Sending, history: &HistoryWords) -> bool
    ensures { result ≡ could_take_over id sending history.now.ring history.now.history.now leg }
{
    let takes = takes_over(sending, id);
    let replay = replay_length(takes, history.ring);
    gap_allows(takes, replay, sending.gap)
        && (replay as u64) < remaining_window_packets(leg)
        && stands_at(leg, replay_sequence(takes, sending, history))
}

// Whether a member could carry the next send.
#[tactic(auto, using(crate::specs::Laws::BackupReadiness::cannot_send_yet, crate::specs::Laws::BackupReadiness::has_no_sender, crate::specs::Laws::BackupReadiness::ready_if_takes_over))]
pub fn backup_member_ready(
    row: &Row,
    sending: Sending,
    history: &HistoryWords,
    pacing: Option<Timestamp>,
) -> bool
    ensures { MemberReady (pacing_in pacing) sending history.now.ring history.now.history.now
        (member_of row.now) result }
{
    let leg = leg(row);
    ready_to_send(leg, pacing)
        && has_sender(leg)
        && could_take_over(leg, member_id(row), sending, history)
}

// Whether the first active member could carry the next send or, if its window is full, the one that would be promoted.
pub fn backup_send_ready(
    rows: &[Row],
    sending: Sending,
    history: &HistoryWords,
    pacing: Option<Timestamp>,
) -> bool
    ensures { BackupReady (pacing_in pacing) sending history.now.ring history.now.history.now (members_in rows.now) result }
{
    let found = first_active(rows);
    let Some(index) = found else {
        return false;
    };
    let row = &rows[index];
    if can_send(leg(row)) {
        return backup_member_ready(row, sending, history, pacing);
    }
    let standby = promotion(rows);
    let Some(promoted) = standby else {
        return false;
    };
    backup_member_ready(&rows[promoted], sending, history, pacing)
}
