// `remove_member` and `remove_member_connection`.
// Kept (2, 5, 6): C calls each by its name, and lends each table by its own name and length (docs/TABLES.md).
ghost use Rattle.std.specs.Prelude.{false, [], length};
ghost use Rattle.srt_group_model.specs.Lent.{call_remove_member_connection};
ghost use Rattle.srt_connection_members.specs.Members.{HasRow};
ghost use Rattle.srt_group_shown.specs.Tables.{tables};
ghost use Rattle.srt_group_shown.specs.Ready.{storing};
ghost use Rattle.srt_group_refusals.specs.Promised.{nothing_lent};
ghost use Rattle.srt_group_words.specs.Words.{silent, words, PromisedWords, ReadyWords, PerformsWords};
ghost use Rattle.srt_group_c_members.specs.LegBack.{PromisedLegBack, PerformsLegBack};

use cell_set::of_words_mut;
use srt_group_removal::{calls, connection};
use srt_group_words::record::{RECORD, SHORT, put_back, put_back_core, read_group};

// A member is removed, and its leg dropped.
#[tactic(auto, using(srt_group_words::specs::Laws::Words::record_refused))]
#[unsafe(no_mangle)]
pub extern "C" fn srt_group_raw_remove_member(
    record: &mut [u64],
    members: &mut [u64],
    pending: &mut [u64],
    waiting: &[u64],
    history: &[u64],
    sources: &[u64],
    id: u64,
) -> u32
    ensures { PromisedWords (call_remove_member_connection id) silent false
        (words «record».old
        (tables members.old pending.old waiting.now history.now sources.now)
        nothing_lent []) result
        (words «record».new
        (tables members.new pending.new waiting.now history.now sources.now)
        nothing_lent []) }
{
    if record.len() < RECORD {
        return SHORT;
    }
    let removed = calls::remove_member(
        read_group(record),
        members,
        pending,
        waiting,
        history,
        sources,
        id,
    );
    put_back(record, removed.record, removed.answer)
}

// The same for a valid state, of which `used` shows the cells in use. The store is lent for its length.
#[tactic(auto, using(srt_group_words::specs::Laws::Words::group_ready))]
#[unsafe(no_mangle)]
pub extern "C" fn srt_group_valid_remove_member(
    record: &mut [u64],
    members: &mut [u64],
    pending: &mut [u64],
    waiting: &[u64],
    history: &[u64],
    sources: &[u64],
    store: &[u8],
    used: &mut [u64],
    id: u64,
) -> u32
    requires { ReadyWords «record».old (tables members.old pending.old waiting.now history.now sources.now)
        (length store.now) used.old }
    ensures { PerformsWords (call_remove_member_connection id) silent
        (words «record».old
        (tables members.old pending.old waiting.now history.now sources.now)
        (storing store.now) []) result
        (words «record».new
        (tables members.new pending.new waiting.now history.now sources.now)
        (storing store.now) []) used.new }
{
    let removed = connection::remove_member(
        read_group(record),
        members,
        pending,
        waiting,
        history,
        sources,
        store,
        of_words_mut(used),
        id,
    );
    put_back_core(record, removed.record, removed.answer)
}

// A member is removed, and its leg given back in a row of the members' table.
#[tactic(auto, using(crate::specs::Laws::LegBack::leg_refused))]
#[unsafe(no_mangle)]
pub extern "C" fn srt_group_raw_remove_member_connection(
    record: &mut [u64],
    members: &mut [u64],
    pending: &mut [u64],
    waiting: &[u64],
    history: &[u64],
    sources: &[u64],
    row: &mut [u64],
    id: u64,
) -> u32
    ensures { PromisedLegBack id (words «record».old
        (tables members.old pending.old waiting.now history.now sources.now)
        nothing_lent []) result
        (words «record».new
        (tables members.new pending.new waiting.now history.now sources.now)
        nothing_lent []) row.old row.new }
{
    if record.len() < RECORD {
        return SHORT;
    }
    let removed = calls::remove_member_connection(
        read_group(record),
        members,
        pending,
        waiting,
        history,
        sources,
        row,
        id,
    );
    put_back(record, removed.record, removed.answer)
}

// The same for a valid state, of which `used` shows the cells in use. The store is lent for its length.
#[tactic(auto, using(srt_group_words::specs::Laws::Words::group_ready))]
#[unsafe(no_mangle)]
pub extern "C" fn srt_group_valid_remove_member_connection(
    record: &mut [u64],
    members: &mut [u64],
    pending: &mut [u64],
    waiting: &[u64],
    history: &[u64],
    sources: &[u64],
    store: &[u8],
    row: &mut [u64],
    used: &mut [u64],
    id: u64,
) -> u32
    requires ready_words { ReadyWords «record».old (tables members.old pending.old waiting.now history.now sources.now)
        (length store.now) used.old }
    requires has_row { HasRow 0 row.old }
    ensures { PerformsLegBack id (words «record».old
        (tables members.old pending.old waiting.now history.now sources.now)
        (storing store.now) []) result
        (words «record».new
        (tables members.new pending.new waiting.now history.now sources.now)
        (storing store.now) []) used.new row.old row.new }
{
    let removed = connection::remove_member_connection(
        read_group(record),
        members,
        pending,
        waiting,
        history,
        sources,
        store,
        row,
        of_words_mut(used),
        id,
    );
    put_back_core(record, removed.record, removed.answer)
}
