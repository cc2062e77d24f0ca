// `add_member`.
// Kept (2, 5, 6): C calls each by its name, and lends each table by its own name and length (docs/TABLES.md).
ghost use Rattle.std.specs.Prelude.{[], length};
ghost use Rattle.srt_connection_members.specs.Members.{HasRow};
ghost use Rattle.srt_group_shown.specs.Tables.{tables};
ghost use Rattle.srt_group_shown.specs.Ready.{storing};
ghost use Rattle.srt_group_refusals.specs.Promised.{nothing_lent, row_short};
ghost use Rattle.srt_group_addition.specs.Handed.{call_of_row};
ghost use Rattle.srt_group_words.specs.Words.{silent, words, PromisedWords, ReadyWords, PerformsWords};

use cell_set::of_words;
use srt_group_addition::{calls, handed};
use srt_group_words::record::{RECORD, SHORT, put_back, put_back_core, read_group};

// A leg is added, handed over in a row of the members' table, of which the membership part is not read. 22 leaves it added.
#[tactic(auto, using(srt_group_words::specs::Laws::Words::record_refused))]
#[unsafe(no_mangle)]
pub extern "C" fn srt_group_raw_add_member(
    record: &mut [u64],
    members: &mut [u64],
    pending: &[u64],
    waiting: &[u64],
    history: &[u64],
    sources: &[u64],
    row: &[u64],
    id: u64,
    weight: u64,
) -> u32
    ensures { PromisedWords (call_of_row id weight row.now) silent (row_short row.now)
        (words «record».old
        (tables members.old pending.now waiting.now history.now sources.now)
        nothing_lent []) result
        (words «record».new
        (tables members.new pending.now waiting.now history.now sources.now)
        nothing_lent []) }
{
    if record.len() < RECORD {
        return SHORT;
    }
    let added = calls::add_member(
        read_group(record),
        members,
        pending,
        waiting,
        history,
        sources,
        row,
        id,
        weight,
    );
    put_back(record, added.record, added.answer)
}

// The same for a valid state, of which `used` shows the cells in use. The store is lent for its length.
#[tactic(auto, using(srt_group_words::specs::Laws::Words::group_ready))]
#[unsafe(no_mangle)]
pub extern "C" fn srt_group_valid_add_member(
    record: &mut [u64],
    members: &mut [u64],
    pending: &[u64],
    waiting: &[u64],
    history: &[u64],
    sources: &[u64],
    store: &[u8],
    row: &[u64],
    used: &[u64],
    id: u64,
    weight: u64,
) -> u32
    requires ready_words { ReadyWords «record».old (tables members.old pending.now waiting.now history.now sources.now)
        (length store.now) used.now }
    requires has_row { HasRow 0 row.now }
    ensures { PerformsWords (call_of_row id weight row.now) silent
        (words «record».old
        (tables members.old pending.now waiting.now history.now sources.now)
        (storing store.now) []) result
        (words «record».new
        (tables members.new pending.now waiting.now history.now sources.now)
        (storing store.now) []) used.now }
{
    let added = handed::add_member(
        read_group(record),
        members,
        pending,
        waiting,
        history,
        sources,
        store,
        of_words(used),
        row,
        id,
        weight,
    );
    put_back_core(record, added.record, added.answer)
}
