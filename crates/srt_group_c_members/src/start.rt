// A group's start.
// Kept (5, 6): C lends each table by its name and length (docs/TABLES.md), so each is a parameter of its own.
// Kept (1): the mode is a word of the C call: any is a legal question, and 2 refuses what is none.
ghost use Rattle.srt_group_shown.specs.Tables.{tables};
ghost use Rattle.srt_group_words.specs.Words.{PromisedNewWords, BeginsValid};

use cell_set::{WORDS, of_words_mut};
use srt_group::Group;
use srt_group_words::begin::begin_stored;
use srt_group_words::record::{RECORD, SHORT, put_group};
use srt_protocol::error::outcome_number;

// A fresh group over tables of which no row is in use: its id, its mode (0 Broadcast, 1 Backup), and the length of the store that every call
// is then to be lent, or 0.
#[tactic(auto, using(srt_group_words::specs::Laws::New::new_few, srt_group_words::specs::Laws::New::new_in_words, srt_group_words::specs::Laws::New::new_refused))]
#[unsafe(no_mangle)]
pub extern "C" fn srt_group_raw_new(record: &mut [u64], id: u64, mode: u64, length: usize) -> u32
    ensures { PromisedNewWords record { id = id; mode = mode; length = length }
        «record».old result «record».new }
{
    if record.len() < RECORD {
        return SHORT;
    }
    match Group::new(id, mode, length) {
        Ok(group) => {
            put_group(record, group);
            0
        }
        Err(error) => u32::from(error),
    }
}

// A host that is the only writer begins with this: 5 and 6 of a call that is lent a store of so many bytes, tested once. 0 fills `used`, 32
// words, with the cells in use, and the forms for a valid state may be called.
#[unsafe(no_mangle)]
pub extern "C" fn srt_group_valid_begin(
    record: &[u64],
    members: &[u64],
    pending: &[u64],
    waiting: &[u64],
    history: &[u64],
    sources: &[u64],
    store: usize,
    used: &mut [u64],
) -> u32
    ensures { BeginsValid «record».now
        (tables members.now pending.now waiting.now history.now sources.now)
        store used.old result used.new }
{
    if record.len() < RECORD {
        return SHORT;
    }
    // Apart from the test before: of one `||` the goal of what is refused stays open.
    if used.len() != WORDS {
        return SHORT;
    }
    let begun = begin_stored(
        record,
        members,
        pending,
        waiting,
        history,
        sources,
        store,
        of_words_mut(used),
    );
    outcome_number(begun)
}
