// A look at what C lends: each exported look is this one with what it shows.
// Kept (5, 6): an exported look has each table by its own name, and the struct of them is made here: made at each of the looks it would be no plainer.
ghost use Rattle.std.specs.Prelude.{◌<◌, ◌≤◌, length};
ghost use Rattle.std.specs.Fn.{FnOnceReturnsAt};
ghost use Rattle.srt_group_shown.specs.Tables.{tables};
ghost use Rattle.srt_group_words.specs.Record.{record_size};
ghost use Rattle.srt_group_c_looks.specs.Look.{Shows, SaysNothing};

use crate::answers::{InWords, put_given};
use srt_group_refusals::refusals::LentGroup;
use srt_group_words::record::{RECORD, SHORT, read_group};
use srt_protocol::error::Error;

// 5 where the record or the answer has too few words; else what `given` gives of the group and its tables.
pub fn look<const N: usize, T: InWords<N>, F: FnOnce(&LentGroup) -> Result<T, Error>>(
    record: &[u64],
    members: &[u64],
    pending: &[u64],
    waiting: &[u64],
    history: &[u64],
    sources: &[u64],
    answer: &mut [u64],
    given: F,
) -> u32
    requires { F.IsAlwaysCallable given }
    ensures few_words { length «record».now < record_size → SaysNothing answer.old result answer.new }
    ensures no_room { length answer.old < N → SaysNothing answer.old result answer.new }
    ensures shows { record_size ≤ length «record».now → N ≤ length answer.old
        → Shows N T.answer (λ lent r. FnOnceReturnsAt F.FnOnce given lent r) «record».now
        (tables members.now pending.now waiting.now history.now sources.now) answer.old result answer.new }
{
    if record.len() < RECORD || answer.len() < N {
        return SHORT;
    }
    let lent = LentGroup {
        group: read_group(record),
        members,
        pending,
        waiting,
        history,
        sources,
    };
    put_given(answer, given(&lent))
}
