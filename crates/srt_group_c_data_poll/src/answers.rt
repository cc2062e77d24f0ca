// What a poll answers, in words: document 01's values.
// Kept (1, 5): the answer is a row of words, of which a host may lend more; a packet of count 0 there is none (docs/TABLES.md).
ghost use Rattle.std.specs.Prelude.{◌≡◌, ◌≤◌, length};
ghost use Rattle.srt_protocol.specs.Cells.{overwritten};
ghost use Rattle.srt_group_model.specs.Tools.{is_set};
ghost use Rattle.srt_group_model.specs.Guards.{data_polled};
ghost use Rattle.srt_group_data_poll.specs.Polling.{answer_of};
ghost use Rattle.srt_group_words.specs.Record.{record_size, group_of, with_core};
ghost use Rattle.srt_group_words.specs.Words.{in_words, PutSaid};

use srt_group_model::Packet;
use srt_group_polls::polls::DataPoll;
use srt_group_words::answers::{flag_of, put, put_packet};
use srt_group_words::record::put_core;

// Whether to poll again at once, and the packet: its leg, sequence, count (0: none), message number, timestamp, source time and length.
#[tactic(auto, using(crate::specs::Laws::Answers::says_none))]
fn put_data(answer: &mut [u64], gave: Option<Packet>, continuation: u64)
    requires { 8 ≤ length answer.old }
    ensures { answer.new
        ≡ overwritten 0 (in_words 8 (data_polled gave (is_set continuation)) 0) answer.old }
{
    let again = flag_of(continuation);
    match gave {
        None => put(answer, [again, 0, 0, 0, 0, 0, 0, 0]),
        Some(packet) => put_packet(answer, again, packet),
    }
}

// The core that a data poll leaves, and its answer. The poll is not refused: 0.
pub fn put_poll(record: &mut [u64], answer: &mut [u64], poll: DataPoll) -> u32
    requires { (record_size ≤ length «record».old) × (8 ≤ length answer.old) }
    ensures { PutSaid (with_core poll.core (group_of «record».old)) 0 (in_words 8 (answer_of poll) 0)
        «record».old answer.old result «record».new answer.new }
{
    put_core(record, poll.core);
    put_data(answer, poll.gave, poll.continuation);
    0
}
