// `can_send` and `can_send_with_pacing`.
// Kept (2, 5, 6): C calls each by its name, and lends each table by its own name and length (docs/TABLES.md).
ghost use Rattle.std.specs.Prelude.{false, ◌≤◌, length};
ghost use Rattle.srt_group_model.specs.Lent.{call_can_send, call_can_send_with_pacing};
ghost use Rattle.srt_group_shown.specs.Tables.{tables};
ghost use Rattle.srt_group_shown.specs.Ready.{storing};
ghost use Rattle.srt_group_refusals.specs.Promised.{nothing_lent};
ghost use Rattle.srt_group_words.specs.Words.{in_words, words, PromisedWords, ReadyWords, PerformsWords};

use crate::answers::{put_readiness, put_tested};
use cell_set::of_words_mut;
use srt_group_c_looks::answers::SHOWN;
use srt_group_send::valid;
use srt_group_send_calls::calls;
use srt_group_words::record::{RECORD, SHORT, read_group};
use srt_protocol::time::Timestamp;

// Whether the group could send now. The test refreshes and trims.
#[tactic(auto, using(srt_group_words::specs::Laws::Words::record_refused, srt_group_words::specs::Laws::Words::answer_refused))]
#[unsafe(no_mangle)]
pub extern "C" fn srt_group_raw_can_send(
    record: &mut [u64],
    members: &mut [u64],
    pending: &[u64],
    waiting: &[u64],
    history: &[u64],
    sources: &[u64],
    answer: &mut [u64],
) -> u32
    ensures { PromisedWords call_can_send (in_words 1) false
        (words «record».old
        (tables members.old pending.now waiting.now history.now sources.now)
        nothing_lent answer.old) result
        (words «record».new
        (tables members.new pending.now waiting.now history.now sources.now)
        nothing_lent answer.new) }
{
    if record.len() < RECORD || answer.len() < SHOWN {
        return SHORT;
    }
    let tested = calls::can_send(
        read_group(record),
        members,
        pending,
        waiting,
        history,
        sources,
    );
    put_tested(record, answer, tested)
}

// The same for a valid state, of which `used` shows the cells in use. The store is lent for its length.
#[tactic(auto, using(srt_group_words::specs::Laws::Words::group_ready))]
#[unsafe(no_mangle)]
pub extern "C" fn srt_group_valid_can_send(
    record: &mut [u64],
    members: &mut [u64],
    pending: &[u64],
    waiting: &[u64],
    history: &[u64],
    sources: &[u64],
    store: &[u8],
    used: &mut [u64],
    answer: &mut [u64],
) -> u32
    requires ready_words { ReadyWords «record».old (tables members.old pending.now waiting.now history.now sources.now)
        (length store.now) used.old }
    requires in_bounds { 1 ≤ length answer.old }
    ensures { PerformsWords call_can_send (in_words 1)
        (words «record».old
        (tables members.old pending.now waiting.now history.now sources.now)
        (storing store.now) answer.old) result
        (words «record».new
        (tables members.new pending.now waiting.now history.now sources.now)
        (storing store.now) answer.new) used.new }
{
    let tested = valid::can_send(
        read_group(record),
        members,
        pending,
        waiting,
        history,
        sources,
        store,
        of_words_mut(used),
    );
    put_readiness(record, answer, tested)
}

// The same, where a leg counts that may send by its pace at this time.
#[tactic(auto, using(srt_group_words::specs::Laws::Words::record_refused, srt_group_words::specs::Laws::Words::answer_refused))]
#[unsafe(no_mangle)]
pub extern "C" fn srt_group_raw_can_send_with_pacing(
    record: &mut [u64],
    members: &mut [u64],
    pending: &[u64],
    waiting: &[u64],
    history: &[u64],
    sources: &[u64],
    time: u64,
    answer: &mut [u64],
) -> u32
    ensures { PromisedWords (call_can_send_with_pacing time) (in_words 1) false
        (words «record».old
        (tables members.old pending.now waiting.now history.now sources.now)
        nothing_lent answer.old) result
        (words «record».new
        (tables members.new pending.now waiting.now history.now sources.now)
        nothing_lent answer.new) }
{
    if record.len() < RECORD || answer.len() < SHOWN {
        return SHORT;
    }
    let tested = calls::can_send_with_pacing(
        read_group(record),
        members,
        pending,
        waiting,
        history,
        sources,
        Timestamp(time),
    );
    put_tested(record, answer, tested)
}

// The same for a valid state, of which `used` shows the cells in use. The store is lent for its length.
#[tactic(auto, using(srt_group_words::specs::Laws::Words::group_ready))]
#[unsafe(no_mangle)]
pub extern "C" fn srt_group_valid_can_send_with_pacing(
    record: &mut [u64],
    members: &mut [u64],
    pending: &[u64],
    waiting: &[u64],
    history: &[u64],
    sources: &[u64],
    store: &[u8],
    used: &mut [u64],
    time: u64,
    answer: &mut [u64],
) -> u32
    requires ready_words { ReadyWords «record».old (tables members.old pending.now waiting.now history.now sources.now)
        (length store.now) used.old }
    requires in_bounds { 1 ≤ length answer.old }
    ensures { PerformsWords (call_can_send_with_pacing time) (in_words 1)
        (words «record».old
        (tables members.old pending.now waiting.now history.now sources.now)
        (storing store.now) answer.old) result
        (words «record».new
        (tables members.new pending.now waiting.now history.now sources.now)
        (storing store.now) answer.new) used.new }
{
    let tested = valid::can_send_with_pacing(
        read_group(record),
        members,
        pending,
        waiting,
        history,
        sources,
        store,
        of_words_mut(used),
        Timestamp(time),
    );
    put_readiness(record, answer, tested)
}
