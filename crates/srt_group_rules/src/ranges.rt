// Document 01's code 6, value by value: a sequence of 2^31 or more, and a field above its range. A word is never above 64 bits,
// so a field that may take all of them has no test.
// Kept (1): a kind, a state or a flag is tested here as the word that it is, against the largest that the rule allows.
ghost use Rattle.std.specs.Prelude.{◌≡◌};
ghost use Rattle.srt_group_model.specs.Validity.{is_too_large, leg_sequence_too_large, data_out_of_range, leg_out_of_range, membership_out_of_range, packet_out_of_range, entry_out_of_range, waiting_out_of_range};
ghost use Rattle.srt_group_rules.specs.Rules.{flight_out_of_range};

use srt_connection::legs::{
    DISCONNECTED, LARGEST_16, LARGEST_32, LARGEST_SEQUENCE, NO_SEQUENCE, has_sender, is_connected,
};
use srt_group_members::states::BROKEN;
use srt_group_model::{Data, Entry, Leg, Membership, Packet, Waiting};
use srt_protocol::received_payload::CELL;

// The longest payload fills a cell.
const LONGEST_PAYLOAD: u64 = CELL as u64;

// ---- a sequence of 2^31 or more

pub fn sequence_too_large(sequence: u64) -> bool
    ensures { result ≡ is_too_large sequence }
{
    LARGEST_SEQUENCE < sequence
}

// Kept (1): `peer_initial_sequence` and a closure would test the same two words, and are no plainer.
#[tactic(auto, using(srt_group_model::specs::Laws::Reason::or_assoc, srt_group_model::specs::Laws::Reason::or_no), unfolding(srt_group_model::specs::Validity::leg_sequence_too_large))]
pub fn leg_sequence_too_large(leg: Leg) -> bool
    ensures { result ≡ leg_sequence_too_large leg }
{
    (LARGEST_SEQUENCE < leg.sender.next)
        | (LARGEST_SEQUENCE < leg.receiver.advanced)
        | ((LARGEST_SEQUENCE < leg.receiver.first) & (leg.receiver.first != NO_SEQUENCE))
}

// ---- a field above its range

#[tactic(auto, using(srt_group_model::specs::Laws::Reason::or_assoc, srt_group_model::specs::Laws::Reason::or_no, crate::specs::Laws::Rules::no_word_above), unfolding(srt_group_model::specs::Tools::any, srt_group_model::specs::Validity::any_above, srt_group_model::specs::Validity::data_words, srt_group_model::specs::Validity::data_out_of_range))]
pub fn data_out_of_range(content: Data) -> bool
    ensures { result ≡ data_out_of_range content }
{
    (content.count == 0)
        | (LONGEST_PAYLOAD < content.length)
        | (LARGEST_16 < content.count)
        | (LARGEST_32 < content.message)
        | (LARGEST_32 < content.timestamp)
}

// A flight is 0 without a sender.
#[tactic(auto, using(srt_group_model::specs::Laws::Reason::when_true, srt_group_model::specs::Laws::Reason::when_false), unfolding(crate::specs::Rules::flight_out_of_range))]
fn flight_out_of_range(leg: Leg) -> bool
    ensures { result ≡ flight_out_of_range leg.sender }
{
    if has_sender(leg) {
        return LARGEST_16 < leg.sender.flight;
    }
    0 < leg.sender.flight
}

// A connected leg has a sender.
#[tactic(auto, using(srt_group_model::specs::Laws::Reason::or_assoc, crate::specs::Laws::Rules::no_word_above), unfolding(srt_group_model::specs::Tools::any, srt_group_model::specs::Validity::any_above, srt_group_model::specs::Validity::leg_words, srt_group_model::specs::Validity::leg_out_of_range, crate::specs::Rules::flight_out_of_range))]
pub fn leg_out_of_range(leg: Leg) -> bool
    ensures { result ≡ leg_out_of_range leg }
{
    (DISCONNECTED < leg.link.state)
        | (LARGEST_32 < leg.link.peer)
        | (LARGEST_16 < leg.link.limit)
        | (1 < leg.sender.started)
        | flight_out_of_range(leg)
        | (LARGEST_16 < leg.sender.window)
        | (LARGEST_16 < leg.receiver.window)
        | (LARGEST_32 < leg.trip.srtt)
        | (LARGEST_32 < leg.trip.rttvar)
        | (is_connected(leg) & !has_sender(leg))
}

// A member without its leg and its queue.
#[tactic(auto, using(srt_group_model::specs::Laws::Reason::or_assoc, srt_group_model::specs::Laws::Reason::or_no), unfolding(srt_group_model::specs::Tools::any, srt_group_model::specs::Validity::any_above, srt_group_model::specs::Validity::membership_words, srt_group_model::specs::Validity::membership_out_of_range))]
pub fn membership_out_of_range(membership: Membership) -> bool
    ensures { result ≡ membership_out_of_range membership }
{
    (LARGEST_32 < membership.id)
        | (LARGEST_16 < membership.weight)
        | (BROKEN < membership.state)
        | (1 < membership.admitted)
        | (LARGEST_32 < membership.collision.expected)
        | (LARGEST_32 < membership.collision.actual)
}

#[tactic(auto, using(srt_group_model::specs::Laws::Reason::or_assoc, srt_group_model::specs::Laws::Reason::or_no), unfolding(srt_group_model::specs::Tools::any, srt_group_model::specs::Validity::any_above, srt_group_model::specs::Validity::packet_words, srt_group_model::specs::Validity::packet_out_of_range))]
pub fn packet_out_of_range(packet: Packet) -> bool
    ensures { result ≡ packet_out_of_range packet }
{
    (LARGEST_32 < packet.member) | (1 < packet.owned) | data_out_of_range(packet.content)
}

#[tactic(auto, using(srt_group_model::specs::Laws::Reason::or_assoc, srt_group_model::specs::Laws::Reason::or_no, crate::specs::Laws::Rules::no_word_above), unfolding(srt_group_model::specs::Tools::any, srt_group_model::specs::Validity::any_above, srt_group_model::specs::Validity::entry_words, srt_group_model::specs::Validity::entry_out_of_range))]
pub fn entry_out_of_range(entry: Entry) -> bool
    ensures { result ≡ entry_out_of_range entry }
{
    LONGEST_PAYLOAD < entry.length
}

// Data does not wait.
#[tactic(auto, using(srt_group_model::specs::Laws::Reason::or_assoc, srt_group_model::specs::Laws::Reason::or_no), unfolding(srt_group_model::specs::Tools::any, srt_group_model::specs::Validity::any_above, srt_group_model::specs::Validity::waiting_words, srt_group_model::specs::Validity::waiting_out_of_range))]
pub fn waiting_out_of_range(event: Waiting) -> bool
    ensures { result ≡ waiting_out_of_range event }
{
    (event.kind == 0) | (LARGEST_32 < event.member) | (3 < event.kind) | (LARGEST_32 < event.reason)
}
