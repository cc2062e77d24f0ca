// `mark_member_broken`, `refresh_member_states` and `disconnect`.
// Kept (2, 5, 6): C calls each by its name, and lends each table by its own name and length (docs/TABLES.md).
ghost use Rattle.std.specs.Prelude.{false, [], length};
ghost use Rattle.srt_group_model.specs.Lent.{call_mark_member_broken, call_refresh_member_states, call_disconnect};
ghost use Rattle.srt_group_shown.specs.Tables.{tables};
ghost use Rattle.srt_group_shown.specs.Ready.{storing};
ghost use Rattle.srt_group_refusals.specs.Promised.{nothing_lent};
ghost use Rattle.srt_group_words.specs.Words.{silent, words, PromisedWords, ReadyWords, PerformsWords};

use cell_set::of_words;
use srt_group_member_states::{broken, calls, forms};
use srt_group_words::record::{RECORD, SHORT, put_back, put_back_core, read_group};
use srt_protocol::error::outcome_number;
use srt_protocol::time::Timestamp;

// A member turns Broken.
#[tactic(auto, using(srt_group_words::specs::Laws::Words::record_refused))]
#[unsafe(no_mangle)]
pub extern "C" fn srt_group_raw_mark_member_broken(
    record: &[u64],
    members: &mut [u64],
    pending: &[u64],
    waiting: &[u64],
    history: &[u64],
    sources: &[u64],
    id: u64,
) -> u32
    ensures { PromisedWords (call_mark_member_broken id) silent false
        (words «record».now
        (tables members.old pending.now waiting.now history.now sources.now)
        nothing_lent []) result
        (words «record».now
        (tables members.new pending.now waiting.now history.now sources.now)
        nothing_lent []) }
{
    if record.len() < RECORD {
        return SHORT;
    }
    let done = calls::mark_member_broken(
        read_group(record),
        members,
        pending,
        waiting,
        history,
        sources,
        id,
    );
    outcome_number(done)
}

// The same for a valid state, of which `used` shows the cells in use. The store is lent for its length.
#[tactic(auto, using(srt_group_words::specs::Laws::Words::group_ready))]
#[unsafe(no_mangle)]
pub extern "C" fn srt_group_valid_mark_member_broken(
    record: &[u64],
    members: &mut [u64],
    pending: &[u64],
    waiting: &[u64],
    history: &[u64],
    sources: &[u64],
    store: &[u8],
    used: &[u64],
    id: u64,
) -> u32
    requires { ReadyWords «record».now (tables members.old pending.now waiting.now history.now sources.now)
        (length store.now) used.now }
    ensures { PerformsWords (call_mark_member_broken id) silent
        (words «record».now
        (tables members.old pending.now waiting.now history.now sources.now)
        (storing store.now) []) result
        (words «record».now
        (tables members.new pending.now waiting.now history.now sources.now)
        (storing store.now) []) used.now }
{
    let done = broken::mark_member_broken(
        read_group(record),
        members,
        pending,
        waiting,
        history,
        sources,
        store,
        of_words(used),
        id,
    );
    outcome_number(done)
}

// The members' states follow their legs; a member that arrives may set the base and bind the group.
#[tactic(auto, using(srt_group_words::specs::Laws::Words::record_refused))]
#[unsafe(no_mangle)]
pub extern "C" fn srt_group_raw_refresh_member_states(
    record: &mut [u64],
    members: &mut [u64],
    pending: &[u64],
    waiting: &[u64],
    history: &[u64],
    sources: &[u64],
) -> u32
    ensures { PromisedWords call_refresh_member_states silent false
        (words «record».old
        (tables members.old pending.now waiting.now history.now sources.now)
        nothing_lent []) result
        (words «record».new
        (tables members.new pending.now waiting.now history.now sources.now)
        nothing_lent []) }
{
    if record.len() < RECORD {
        return SHORT;
    }
    let group = read_group(record);
    let refreshed = calls::refresh_member_states(
        group, members, pending, waiting, history, sources,
    );
    put_back(record, refreshed.record, refreshed.answer)
}

// The same for a valid state, of which `used` shows the cells in use. The store is lent for its length.
#[tactic(auto, using(srt_group_words::specs::Laws::Words::group_ready))]
#[unsafe(no_mangle)]
pub extern "C" fn srt_group_valid_refresh_member_states(
    record: &mut [u64],
    members: &mut [u64],
    pending: &[u64],
    waiting: &[u64],
    history: &[u64],
    sources: &[u64],
    store: &[u8],
    used: &[u64],
) -> u32
    requires { ReadyWords «record».old (tables members.old pending.now waiting.now history.now sources.now)
        (length store.now) used.now }
    ensures { PerformsWords call_refresh_member_states silent
        (words «record».old
        (tables members.old pending.now waiting.now history.now sources.now)
        (storing store.now) []) result
        (words «record».new
        (tables members.new pending.now waiting.now history.now sources.now)
        (storing store.now) []) used.now }
{
    let core = forms::refresh_member_states(
        read_group(record),
        members,
        pending,
        waiting,
        history,
        sources,
        store,
        of_words(used),
    );
    put_back_core(record, core, Ok(()))
}

// Every leg is disconnected; nothing is queued. The stand-in's legs need no time.
#[tactic(auto, using(srt_group_words::specs::Laws::Words::record_refused))]
#[unsafe(no_mangle)]
pub extern "C" fn srt_group_raw_disconnect(
    record: &[u64],
    members: &mut [u64],
    pending: &[u64],
    waiting: &[u64],
    history: &[u64],
    sources: &[u64],
    time: u64,
) -> u32
    ensures { PromisedWords (call_disconnect time) silent false
        (words «record».now
        (tables members.old pending.now waiting.now history.now sources.now)
        nothing_lent []) result
        (words «record».now
        (tables members.new pending.now waiting.now history.now sources.now)
        nothing_lent []) }
{
    if record.len() < RECORD {
        return SHORT;
    }
    let done = calls::disconnect(
        read_group(record),
        members,
        pending,
        waiting,
        history,
        sources,
        Timestamp(time),
    );
    outcome_number(done)
}

// The same for a valid state, of which `used` shows the cells in use. The store is lent for its length.
#[tactic(auto, using(srt_group_words::specs::Laws::Words::group_ready))]
#[unsafe(no_mangle)]
pub extern "C" fn srt_group_valid_disconnect(
    record: &[u64],
    members: &mut [u64],
    pending: &[u64],
    waiting: &[u64],
    history: &[u64],
    sources: &[u64],
    store: &[u8],
    used: &[u64],
    time: u64,
) -> u32
    requires { ReadyWords «record».now (tables members.old pending.now waiting.now history.now sources.now)
        (length store.now) used.now }
    ensures { PerformsWords (call_disconnect time) silent
        (words «record».now
        (tables members.old pending.now waiting.now history.now sources.now)
        (storing store.now) []) result
        (words «record».now
        (tables members.new pending.now waiting.now history.now sources.now)
        (storing store.now) []) used.now }
{
    forms::disconnect(
        read_group(record),
        members,
        pending,
        waiting,
        history,
        sources,
        store,
        of_words(used),
        Timestamp(time),
    );
    0
}
