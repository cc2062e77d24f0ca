// What a readiness test answers, in a word, and the record that it leaves.
// Kept (5): C lends rows that may be longer.
ghost use Rattle.std.specs.Prelude.{◌≤◌, length};
ghost use Rattle.srt_group_model.specs.Guards.{shown, truth};
ghost use Rattle.srt_group_looks.specs.Looks.{truth_code, truth_answer};
ghost use Rattle.srt_group_words.specs.Record.{record_size, group_of, with_sent};
ghost use Rattle.srt_group_words.specs.Words.{in_words, PutSaid};

use srt_group::{Answered, Group};
use srt_group_c_looks::answers::put_given;
use srt_group_collecting::collecting::flag;
use srt_group_send::readiness::Readiness;
use srt_group_words::answers::put;
use srt_group_words::record::{put_group, put_sent};

// The record that a readiness test leaves, and its answer.
#[tactic(auto, using(srt_group_c_looks::specs::Laws::Look::said_truth))]
pub fn put_tested(record: &mut [u64], answer: &mut [u64], tested: Answered<Group, bool>) -> u32
    requires { (record_size ≤ length «record».old) × (1 ≤ length answer.old) }
    ensures { PutSaid tested.«record» (truth_code tested.answer) (in_words 1 (truth_answer tested.answer) 0)
        «record».old answer.old result «record».new answer.new }
{
    put_group(record, tested.record);
    put_given(answer, tested.answer)
}

// The same of a valid state, which is not refused: 0. The row keeps its identity, which no test moves.
pub fn put_readiness(record: &mut [u64], answer: &mut [u64], tested: Readiness) -> u32
    requires { (record_size ≤ length «record».old) × (1 ≤ length answer.old) }
    ensures { PutSaid (with_sent tested.«record».core tested.«record».sending tested.«record».ring (group_of «record».old)) 0
        (in_words 1 (shown (truth tested.ready)) 0)
        «record».old answer.old result «record».new answer.new }
{
    put_sent(
        record,
        tested.record.core,
        tested.record.sending,
        tested.record.ring,
    );
    put(answer, [flag(tested.ready)]);
    0
}
