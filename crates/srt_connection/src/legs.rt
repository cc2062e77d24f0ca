// A leg by value: what it can do, what a send, a synchronising and a release do to it. The names are those of `SrtConnection`
// and of its sender.
// Kept (1): a state and the flag `started` are words of the lent row: a C host may lend any number, and 6 has to read it to refuse it.
ghost use Rattle.std.specs.Prelude.{◌≡◌, ◌+◌, ◌-◌, ◌<◌};
ghost use Rattle.srt_group_model.specs.Legs.{is_connected, is_disconnected, has_sender, remaining_window_packets, can_send, can_send_with_pacing, time_until_send, oldest_unacked_sequence, gives_up_at, peer_initial_sequence, after_send};
ghost use Rattle.srt_group_model.specs.Legs.{send_shared_with_sequence, synchronize_send_sequence, disconnect_leg, handed, read_state, acknowledge};
ghost use Rattle.srt_connection.specs.Answers.{deadline_of};

use srt_group_model::{Leg, Sender};
use srt_protocol::srt_packet::{word_distance, word_further};
use srt_protocol::time::Timestamp;

// A leg's state, as the number that a row holds.
pub const HANDSHAKING: u64 = 0;

pub const CONNECTED: u64 = 1;

pub const DISCONNECTED: u64 = 2;

// The peer's first sequence where there is none.
pub const NO_SEQUENCE: u64 = 0xffff_ffff;

// The largest sequence number, and the largest values of fields of 16 and of 32 bits.
pub const LARGEST_SEQUENCE: u64 = 0x7fff_ffff;

pub const LARGEST_16: u64 = 0xffff;

pub const LARGEST_32: u64 = 0xffff_ffff;

// ---- what it can do

pub fn is_connected(leg: Leg) -> bool
    ensures { result ≡ is_connected leg }
{
    leg.link.state == CONNECTED
}

pub fn is_disconnected(leg: Leg) -> bool
    ensures { result ≡ is_disconnected leg }
{
    leg.link.state == DISCONNECTED
}

// The sender exists from the first connect on.
pub fn has_sender(leg: Leg) -> bool
    ensures { result ≡ has_sender leg }
{
    leg.sender.started == 1
}

#[tactic(auto, unfolding(srt_group_model::specs::Tools::flagged))]
pub fn peer_initial_sequence(leg: Leg) -> Option<u64>
    ensures { result ≡ peer_initial_sequence leg }
{
    let first = leg.receiver.first;
    (first != NO_SEQUENCE).then_some(first)
}

// The window less the flight, least 0.
pub fn remaining_window_packets(leg: Leg) -> u64
    ensures { result ≡ remaining_window_packets leg }
{
    leg.sender.window.saturating_sub(leg.sender.flight)
}

#[tactic(auto, unfolding(srt_group_model::specs::Legs::can_send))]
pub fn can_send(leg: Leg) -> bool
    ensures { result ≡ can_send leg }
{
    is_connected(leg) && 0 < remaining_window_packets(leg)
}

#[tactic(auto, unfolding(srt_group_model::specs::Legs::can_send_with_pacing))]
pub fn can_send_with_pacing(leg: Leg, time: Timestamp) -> bool
    ensures { result ≡ can_send_with_pacing time.0 leg }
{
    can_send(leg) && leg.sender.pace <= time
}

// Microseconds until pacing lets a send go, least 0.
pub fn time_until_send(leg: Leg, time: Timestamp) -> u64
    ensures { result ≡ time_until_send time.0 leg }
{
    let pace = leg.sender.pace;
    pace.saturating_sub(time)
}

// The next sequence less the flight, round the sequence space.
#[tactic(auto, unfolding(srt_group_model::specs::Legs::oldest_unacked_sequence))]
pub fn oldest_unacked_sequence(leg: Leg) -> u64
    ensures { result ≡ oldest_unacked_sequence leg }
{
    word_distance(leg.sender.flight, leg.sender.next)
}

// The packet's source time and the latency after it, at which a missing packet is given up; a latency of 0 means never.
#[tactic(auto, unfolding(srt_group_model::specs::Legs::gives_up_at, srt_group_model::specs::Tools::flagged))]
pub fn gives_up_at(leg: Leg, source: Timestamp) -> Option<Timestamp>
    ensures { result ≡ deadline_of (gives_up_at source.0 leg) }
{
    let latency = leg.receiver.latency;
    (latency != 0).then_some(source.add_micros(latency))
}

// ---- what is done to it

// The sender once one more has gone out: its next sequence and its flight rise by one, and the oldest send time becomes the
// time if the flight was empty.
#[tactic(auto, using(srt_group_model::specs::Laws::Reason::when_true, srt_group_model::specs::Laws::Reason::when_false))]
fn after_send(mut sender: Sender, time: Timestamp) -> Sender
    requires { sender.flight < sender.window }
    ensures { result ≡ after_send time.0 sender }
{
    sender.next = word_further(sender.next, 1);
    sender.flight += 1;
    if sender.flight == 1 {
        sender.oldest = time;
    }
    sender
}

// Kept (5): a time, a size and a sequence, as the Rust's method takes them; a struct of the three would be made at each call and taken apart here.
// A send of `size` bytes at a sequence fails unless the leg can send, the sequence is its next, and the payload is within its
// limit. The next sequence and the flight rise by one.
#[tactic(auto, using(crate::specs::Laws::Answers::window_left, srt_group_model::specs::Laws::Reason::when_true, srt_group_model::specs::Laws::Reason::when_false), unfolding(srt_group_model::specs::Legs::send_shared_with_sequence))]
pub fn send_shared_with_sequence(
    mut leg: Leg,
    time: Timestamp,
    size: u64,
    sequence: u64,
) -> Option<Leg>
    ensures { result ≡ send_shared_with_sequence time.0 size sequence leg }
{
    if !can_send(leg) || sequence != leg.sender.next || leg.link.limit < size {
        return None;
    }
    leg.sender = after_send(leg.sender, time);
    Some(leg)
}

// Fails unless the flight is empty; sets the next sequence.
#[tactic(auto, using(srt_group_model::specs::Laws::Reason::when_true, srt_group_model::specs::Laws::Reason::when_false), unfolding(srt_group_model::specs::Legs::synchronize_send_sequence))]
pub fn synchronize_send_sequence(mut leg: Leg, sequence: u64) -> Option<Leg>
    ensures { result ≡ synchronize_send_sequence sequence leg }
{
    if leg.sender.flight != 0 {
        return None;
    }
    leg.sender.next = sequence;
    Some(leg)
}

pub fn disconnect(mut leg: Leg) -> Leg
    ensures { result ≡ disconnect_leg leg }
{
    leg.link.state = DISCONNECTED;
    leg
}

// A leg handed to an addition: one that is connected, or handed over disconnected, has connected and has a sender.
#[tactic(auto, using(srt_group_model::specs::Laws::Reason::when_true, srt_group_model::specs::Laws::Reason::when_false))]
pub fn handed_over(mut leg: Leg) -> Leg
    ensures { result ≡ handed leg }
{
    leg.sender.started = (leg.link.state != HANDSHAKING) as u64;
    leg
}

// The state that was read; a leg that is connected has its sender from then on.
#[tactic(auto, using(srt_group_model::specs::Laws::Reason::when_true, srt_group_model::specs::Laws::Reason::when_false))]
pub fn read_state(mut leg: Leg, state: u64) -> Leg
    ensures { result ≡ read_state state leg }
{
    leg.link.state = state;
    if state == CONNECTED {
        leg.sender.started = 1;
    }
    leg
}

// Acknowledged up to `sequence`: what is left of the flight goes from there to the next sequence.
pub fn acknowledge(mut leg: Leg, sequence: u64) -> Leg
    ensures { result ≡ acknowledge sequence leg }
{
    leg.sender.flight = word_distance(sequence, leg.sender.next);
    leg
}
