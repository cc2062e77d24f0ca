// What a send answers, in words, and the record that it leaves.
// Kept (5): C lends rows that may be longer.
ghost use Rattle.std.specs.Prelude.{◌≤◌, length};
ghost use Rattle.srt_group_send.specs.Answers.{send_number, send_answer};
ghost use Rattle.srt_group_words.specs.Record.{record_size, group_of, with_sent};
ghost use Rattle.srt_group_words.specs.Words.{sent_words, PutSaid};

use srt_group_send::sending::GroupSent;
use srt_group_words::answers::put;
use srt_group_words::record::put_sent;

// The words of a send's answer: on how many legs, and the rows of the list that it filled.
pub const SENT: usize = 2;

// The record that a send leaves, and its answer: the legs are said of a send that succeeded, the rows of any.
pub fn put_send(record: &mut [u64], answer: &mut [u64], sent: GroupSent) -> u32
    requires { (record_size ≤ length «record».old) × (2 ≤ length answer.old) }
    ensures { PutSaid (with_sent sent.«record».core sent.«record».sending sent.«record».ring (group_of «record».old)) (send_number sent.answer)
        (sent_words (send_answer sent.answer) sent.rows)
        «record».old answer.old result «record».new answer.new }
{
    put_sent(
        record,
        sent.record.core,
        sent.record.sending,
        sent.record.ring,
    );
    let rows = sent.rows as u64;
    match sent.answer {
        Ok(legs) => {
            put(answer, [legs as u64, rows]);
            0
        }
        Err(error) => {
            put(answer, [0, rows]);
            u32::from(error)
        }
    }
}
