// What an event poll answers, in words: document 01's values.
// Kept (5): C lends rows that may be longer.
ghost use Rattle.std.specs.Prelude.{◌≡◌, ◌≤◌, length};
ghost use Rattle.srt_protocol.specs.Cells.{overwritten};
ghost use Rattle.srt_group_model.specs.Guards.{polled};
ghost use Rattle.srt_group_delivery.specs.Poll.{polled_of};
ghost use Rattle.srt_group_event_poll.specs.Polling.{answer_of};
ghost use Rattle.srt_group_words.specs.Record.{record_size, group_of, with_core};
ghost use Rattle.srt_group_words.specs.Words.{in_words, PutSaid};

use srt_group_delivery::delivery::{GroupEvent, Poll};
use srt_group_words::answers::{POLLED, put, put_packet};
use srt_group_words::record::put_core;

// An event with its kind first, or a packet behind 0.
#[tactic(auto, using(crate::specs::Laws::Answers::says_nothing))]
fn put_polled(answer: &mut [u64], gave: Option<GroupEvent>)
    requires { 8 ≤ length answer.old }
    ensures { answer.new ≡ overwritten 0 (in_words 8 (polled (polled_of gave)) 0) answer.old }
{
    match gave {
        None => put(answer, [0; POLLED]),
        Some(GroupEvent::Event(event)) => put(
            answer,
            [event.kind, event.member, event.reason, 0, 0, 0, 0, 0],
        ),
        Some(GroupEvent::Packet(packet)) => put_packet(answer, 0, packet),
    }
}

// The core that an event poll leaves, and its answer. The poll is not refused: 0.
pub fn put_poll(record: &mut [u64], answer: &mut [u64], poll: Poll) -> u32
    requires { (record_size ≤ length «record».old) × (8 ≤ length answer.old) }
    ensures { PutSaid (with_core poll.core (group_of «record».old)) 0 (in_words 8 (answer_of poll) 0)
        «record».old answer.old result «record».new answer.new }
{
    put_core(record, poll.core);
    put_polled(answer, poll.gave);
    0
}
