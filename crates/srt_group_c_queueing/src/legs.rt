// `queue_event` and `read_leg` of the stand-in leg.
// Kept (2, 5, 6): C calls each by its name, and lends each table by its own name and length (docs/TABLES.md).
// Kept (1): kind, field and number are words of the C call: any is a legal question, and 2 refuses what is none.
ghost use Rattle.std.specs.Prelude.{false, [], length};
ghost use Rattle.srt_group_model.specs.Lent.{call_queue_event, call_read_leg};
ghost use Rattle.srt_group_shown.specs.Tables.{tables};
ghost use Rattle.srt_group_shown.specs.Ready.{storing};
ghost use Rattle.srt_group_refusals.specs.Promised.{nothing_lent};
ghost use Rattle.srt_group_words.specs.Words.{silent, words, PromisedWords, ReadyWords, PerformsWords};

use cell_set::of_words;
use srt_group_queueing::{calls, events, readings};
use srt_group_words::record::{RECORD, SHORT, read_group};
use srt_protocol::error::outcome_number;

// A lifecycle event at the end of a leg's queue.
#[tactic(auto, using(srt_group_words::specs::Laws::Words::record_refused))]
#[unsafe(no_mangle)]
pub extern "C" fn srt_group_raw_queue_event(
    record: &[u64],
    members: &mut [u64],
    pending: &[u64],
    waiting: &[u64],
    history: &[u64],
    sources: &[u64],
    id: u64,
    kind: u64,
    reason: u64,
) -> u32
    ensures { PromisedWords (call_queue_event id kind reason) silent false
        (words «record».now
        (tables members.old pending.now waiting.now history.now sources.now)
        nothing_lent []) result
        (words «record».now
        (tables members.new pending.now waiting.now history.now sources.now)
        nothing_lent []) }
{
    if record.len() < RECORD {
        return SHORT;
    }
    let done = calls::queue_event(
        read_group(record),
        members,
        pending,
        waiting,
        history,
        sources,
        id,
        kind,
        reason,
    );
    outcome_number(done)
}

// The same for a valid state, of which `used` shows the cells in use. The store is lent for its length.
#[tactic(auto, using(srt_group_words::specs::Laws::Words::group_ready))]
#[unsafe(no_mangle)]
pub extern "C" fn srt_group_valid_queue_event(
    record: &[u64],
    members: &mut [u64],
    pending: &[u64],
    waiting: &[u64],
    history: &[u64],
    sources: &[u64],
    store: &[u8],
    used: &[u64],
    id: u64,
    kind: u64,
    reason: u64,
) -> u32
    requires { ReadyWords «record».now (tables members.old pending.now waiting.now history.now sources.now)
        (length store.now) used.now }
    ensures { PerformsWords (call_queue_event id kind reason) silent
        (words «record».now
        (tables members.old pending.now waiting.now history.now sources.now)
        (storing store.now) []) result
        (words «record».now
        (tables members.new pending.now waiting.now history.now sources.now)
        (storing store.now) []) used.now }
{
    let done = events::queue_event(
        read_group(record),
        members,
        pending,
        waiting,
        history,
        sources,
        store,
        of_words(used),
        id,
        kind,
        reason,
    );
    outcome_number(done)
}

// A number into a field of a leg.
#[tactic(auto, using(srt_group_words::specs::Laws::Words::record_refused))]
#[unsafe(no_mangle)]
pub extern "C" fn srt_group_raw_read_leg(
    record: &[u64],
    members: &mut [u64],
    pending: &[u64],
    waiting: &[u64],
    history: &[u64],
    sources: &[u64],
    id: u64,
    field: u64,
    number: u64,
) -> u32
    ensures { PromisedWords (call_read_leg id field number) silent false
        (words «record».now
        (tables members.old pending.now waiting.now history.now sources.now)
        nothing_lent []) result
        (words «record».now
        (tables members.new pending.now waiting.now history.now sources.now)
        nothing_lent []) }
{
    if record.len() < RECORD {
        return SHORT;
    }
    let done = calls::read_leg(
        read_group(record),
        members,
        pending,
        waiting,
        history,
        sources,
        id,
        field,
        number,
    );
    outcome_number(done)
}

// The same for a valid state, of which `used` shows the cells in use. The store is lent for its length.
#[tactic(auto, using(srt_group_words::specs::Laws::Words::group_ready))]
#[unsafe(no_mangle)]
pub extern "C" fn srt_group_valid_read_leg(
    record: &[u64],
    members: &mut [u64],
    pending: &[u64],
    waiting: &[u64],
    history: &[u64],
    sources: &[u64],
    store: &[u8],
    used: &[u64],
    id: u64,
    field: u64,
    number: u64,
) -> u32
    requires { ReadyWords «record».now (tables members.old pending.now waiting.now history.now sources.now)
        (length store.now) used.now }
    ensures { PerformsWords (call_read_leg id field number) silent
        (words «record».now
        (tables members.old pending.now waiting.now history.now sources.now)
        (storing store.now) []) result
        (words «record».now
        (tables members.new pending.now waiting.now history.now sources.now)
        (storing store.now) []) used.now }
{
    let done = readings::read_leg(
        read_group(record),
        members,
        pending,
        waiting,
        history,
        sources,
        store,
        of_words(used),
        id,
        field,
        number,
    );
    outcome_number(done)
}
