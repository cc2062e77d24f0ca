// How a call begins whose record is a row of words: 5 and 6.
// Kept (5, 6): an exported call has each table by its own name, and the struct of them is made here: made at each of the callers it would be no plainer.
ghost use Rattle.std.specs.Prelude.{◌≤◌, length};
ghost use Rattle.srt_group_shown.specs.Tables.{tables};
ghost use Rattle.srt_group.specs.Made.{parts_of};
ghost use Rattle.srt_group_refusals.specs.Begins.{BeginsStored, BeginsPoll};
ghost use Rattle.srt_group_words.specs.Record.{record_size, group_of};

use crate::record::read_group;
use cell_set::CellSet;
use srt_group_refusals::refusals::LentGroup;
use srt_protocol::error::Error;

// Of a call that is lent a store of so many bytes. Where it goes on, the set shows which cells are in use.
#[tactic(auto, using(crate::specs::Laws::Begin::begun_stored))]
pub fn begin_stored(
    record: &[u64],
    members: &[u64],
    pending: &[u64],
    waiting: &[u64],
    history: &[u64],
    sources: &[u64],
    store: usize,
    used: &mut CellSet,
) -> Result<(), Error>
    requires { record_size ≤ length «record».now }
    ensures { BeginsStored (parts_of (group_of «record».now))
        (tables members.now pending.now waiting.now history.now sources.now)
        store result used.new }
{
    let lent = LentGroup {
        group: read_group(record),
        members,
        pending,
        waiting,
        history,
        sources,
    };
    lent.begin_stored(store, used)
}

// Of a poll, which is lent an output of so many bytes too.
#[tactic(auto, using(crate::specs::Laws::Begin::begun_poll))]
pub fn begin_poll(
    record: &[u64],
    members: &[u64],
    pending: &[u64],
    waiting: &[u64],
    history: &[u64],
    sources: &[u64],
    store: usize,
    output: usize,
    used: &mut CellSet,
) -> Result<(), Error>
    requires { record_size ≤ length «record».now }
    ensures { BeginsPoll (parts_of (group_of «record».now))
        (tables members.now pending.now waiting.now history.now sources.now)
        store output result used.new }
{
    let lent = LentGroup {
        group: read_group(record),
        members,
        pending,
        waiting,
        history,
        sources,
    };
    lent.begin_poll(store, output, used)
}
