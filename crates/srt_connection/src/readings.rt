// Readings: document 01, "Fields of 3". A leg's field by its number, with its range (code 2) and its turn (code 32).
// Kept (1, 5): a reading comes as two words of the C call, its field and its number: any is a legal question, and 2 refuses what is none.
ghost use Rattle.std.specs.Prelude.{◌≡◌};
ghost use Rattle.std.specs.Option.{MatchOption};
ghost use Rattle.srt_group_model.specs.Legs.{goes_back, reading_of};
ghost use Rattle.srt_connection.specs.Readings.{NoField, IsField, row_of, acknowledges, reading};
ghost use Rattle.srt_group_model.specs.Calls.{reading_out_of_range, read_field};

use crate::legs::{
    DISCONNECTED, LARGEST_16, LARGEST_32, LARGEST_SEQUENCE, acknowledge, has_sender,
    oldest_unacked_sequence, read_state,
};
use srt_group_model::Leg;
use srt_protocol::error::Error;
use srt_protocol::srt_packet::word_distance;

// ---- a field by its number

// A leg's field that can be read.
#[derive(Clone, Copy, PartialEq, Eq, Debug)]
pub enum Field {
    State,
    Window,
    ReceiveWindow,
    Latency,
    // Acknowledged up to here: the next unacknowledged sequence.
    Acknowledged,
    Srtt,
    Rttvar,
    LastHeard,
    PaceTime,
    PeerGroup,
    PayloadLimit,
    OldestSendTime,
}

impl Field {
    // The field of a number: 1 to 12, in document 01's order.
    // Kept (4): a `TryFrom` is no plainer: its three callers hand no error on; one gives the leg back, two answer a `bool`.
    #[tactic(auto, unfolding(crate::specs::Readings::field_number))]
    pub fn of(number: u64) -> Option<Field>
        ensures { MatchOption result (NoField number) (λ field. IsField field number) }
    {
        match number {
            1 => Some(Field::State),
            2 => Some(Field::Window),
            3 => Some(Field::ReceiveWindow),
            4 => Some(Field::Latency),
            5 => Some(Field::Acknowledged),
            6 => Some(Field::Srtt),
            7 => Some(Field::Rttvar),
            8 => Some(Field::LastHeard),
            9 => Some(Field::PaceTime),
            10 => Some(Field::PeerGroup),
            11 => Some(Field::PayloadLimit),
            12 => Some(Field::OldestSendTime),
            _ => None,
        }
    }

    // The largest number that it takes.
    #[tactic(auto, unfolding(crate::specs::Readings::row_of))]
    fn largest(self) -> u64
        ensures { result ≡ (row_of self).largest }
    {
        match self {
            Field::State => DISCONNECTED,
            Field::Acknowledged => LARGEST_SEQUENCE,
            Field::Window | Field::ReceiveWindow | Field::PayloadLimit => LARGEST_16,
            Field::Srtt | Field::Rttvar | Field::PeerGroup => LARGEST_32,
            Field::Latency | Field::LastHeard | Field::PaceTime | Field::OldestSendTime => u64::MAX,
        }
    }

    // The leg with a number read into it.
    #[tactic(auto, unfolding(crate::specs::Readings::row_of))]
    fn put(self, mut leg: Leg, number: u64) -> Leg
        ensures { result ≡ (row_of self).put number leg }
    {
        match self {
            Field::State => return read_state(leg, number),
            Field::Window => leg.sender.window = number,
            Field::ReceiveWindow => leg.receiver.window = number,
            Field::Latency => leg.receiver.latency = number,
            Field::Acknowledged => return acknowledge(leg, number),
            Field::Srtt => leg.trip.srtt = number,
            Field::Rttvar => leg.trip.rttvar = number,
            Field::LastHeard => leg.trip.heard.0 = number,
            Field::PaceTime => leg.sender.pace.0 = number,
            Field::PeerGroup => leg.link.peer = number,
            Field::PayloadLimit => leg.link.limit = number,
            Field::OldestSendTime => leg.sender.oldest.0 = number,
        }
        leg
    }
}

// The leg with a number read into a field; an unknown field changes nothing.
#[tactic(auto, using(crate::specs::Laws::Readings::read_known, crate::specs::Laws::Readings::read_unknown))]
pub fn read_field(leg: Leg, field: u64, number: u64) -> Leg
    ensures { result ≡ read_field field number leg }
{
    let Some(field) = Field::of(field) else {
        return leg;
    };
    field.put(leg, number)
}

// Code 2: an unknown field, or a number above the field's largest.
#[tactic(auto, using(crate::specs::Laws::Readings::ranged_known, crate::specs::Laws::Readings::ranged_unknown))]
pub fn reading_out_of_range(field: u64, number: u64) -> bool
    ensures { result ≡ reading_out_of_range field number }
{
    let Some(field) = Field::of(field) else {
        return true;
    };
    field.largest() < number
}

// Whether a number is from the oldest unacknowledged sequence up to the next, both included; no number is, without a sender.
#[tactic(auto, unfolding(crate::specs::Readings::acknowledges))]
fn acknowledges(leg: Leg, number: u64) -> bool
    ensures { result ≡ acknowledges number leg }
{
    has_sender(leg) && word_distance(oldest_unacked_sequence(leg), number) <= leg.sender.flight
}

// Code 32: the leg's state goes back, or the acknowledgement is not in its turn.
#[tactic(auto, using(crate::specs::Laws::Readings::or_false), unfolding(srt_group_model::specs::Legs::goes_back, crate::specs::Readings::acknowledges, crate::specs::Readings::field_number))]
pub fn goes_back(leg: Leg, field: u64, number: u64) -> bool
    ensures { result ≡ goes_back field number leg }
{
    match Field::of(field) {
        Some(Field::State) => number < leg.link.state,
        Some(Field::Acknowledged) => !acknowledges(leg, number),
        _ => false,
    }
}

// A reading: the leg with the number in its field, or 2, or 32.
#[tactic(auto, using(srt_group_model::specs::Laws::Reason::when_true, srt_group_model::specs::Laws::Reason::when_false), unfolding(crate::specs::Readings::reading))]
pub fn read(leg: Leg, field: u64, number: u64) -> Result<Leg, Error>
    ensures { result ≡ reading field number leg }
{
    if reading_out_of_range(field, number) {
        return Err(Error::OutOfRange);
    }
    if goes_back(leg, field, number) {
        return Err(Error::OutOfTurn);
    }
    Ok(read_field(leg, field, number))
}
