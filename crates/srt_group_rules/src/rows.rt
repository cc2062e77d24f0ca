// Document 01's code 6, row by row: a queued event, a leg, a held packet, an entry of the history by itself; and the waiting events, of
// which no other rule asks anything.
// Kept (1): a kind is tested here as the word that it is, against the largest that the rule allows: 3.
ghost use Rattle.std.specs.Prelude.{◌≡◌, ◌+◌, ◌%◌, ◌≤◌, ◌<◌, length};
ghost use Rattle.srt_group_model.specs.Tools.{any};
ghost use Rattle.srt_group_model.specs.Validity.{max_waiting, max_queued, waiting_out_of_range};
ghost use Rattle.srt_connection_queue.specs.Rows.{row_size, event_in};
ghost use Rattle.srt_group_tables.specs.Waitings.{waiting_size, waitings};
ghost use Rattle.srt_group_rules.specs.Rules.{event_breaks_rule, leg_breaks_rule, packet_breaks_rule, entry_breaks_rule};

use crate::ranges::{
    data_out_of_range, entry_out_of_range, leg_out_of_range, leg_sequence_too_large,
    packet_out_of_range, sequence_too_large, waiting_out_of_range,
};
use srt_connection::legs::LARGEST_32;
use srt_connection_queue::rows::{Ring, Row, event_part};
use srt_group_model::{Entry, Event, Leg, Packet};
use srt_group_tables::waiting::waiting_event;

// ---- a queued event

// Only data has a sequence and a content.
#[tactic(auto, using(crate::specs::Laws::Rules::event_no_data, crate::specs::Laws::Rules::event_data))]
pub fn event_breaks_rule(event: Event) -> bool
    ensures { result ≡ event_breaks_rule event }
{
    if !event.is_data() {
        return (3 < event.kind) | (LARGEST_32 < event.reason);
    }
    (LARGEST_32 < event.reason)
        | sequence_too_large(event.content.sequence)
        | data_out_of_range(event.content)
}

// The event so many places after the front.
#[tactic(auto, unfolding(srt_connection_queue::specs::Rows::event_in))]
pub fn queue_event(row: &Row, ring: Ring, at: u64) -> Event
    requires { at < max_queued }
    ensures { result ≡ event_in row.now ((ring.start + at) % max_queued) }
{
    event_part(row, ring.slot(at))
}

// ---- a leg

#[tactic(auto, unfolding(crate::specs::Rules::leg_breaks_rule))]
pub fn leg_breaks_rule(leg: Leg) -> bool
    ensures { result ≡ leg_breaks_rule leg }
{
    leg_sequence_too_large(leg) | leg_out_of_range(leg)
}

// ---- a held packet

#[tactic(auto, unfolding(crate::specs::Rules::packet_breaks_rule))]
pub fn packet_breaks_rule(packet: Packet) -> bool
    ensures { result ≡ packet_breaks_rule packet }
{
    sequence_too_large(packet.content.sequence) | packet_out_of_range(packet)
}

// ---- waiting events

// Kept (6): a C host lends the waiting events as words, with the count of rows in use. They are walked here alone: a function that lends the rows is no plainer.
pub fn waiting_breaks_rule(waiting: &[u64], count: usize) -> bool
    requires { (waiting_size ≤ length waiting.now) × (count ≤ max_waiting) }
    ensures { result ≡ any waiting_out_of_range (waitings count waiting.now) }
{
    (0..count).any(|at| waiting_out_of_range(waiting_event(waiting, at)))
}

// ---- an entry of the history

#[tactic(auto, unfolding(crate::specs::Rules::entry_breaks_rule))]
pub fn entry_breaks_rule(entry: Entry) -> bool
    ensures { result ≡ entry_breaks_rule entry }
{
    sequence_too_large(entry.sequence) | entry_out_of_range(entry)
}
