// `queue_data` of the stand-in leg.
// Kept (2, 5, 6): C calls each by its name, and lends each table by its own name and length (docs/TABLES.md).
ghost use Rattle.std.specs.Prelude.{false, [], length};
ghost use Rattle.srt_group_model.specs.Lent.{call_queue_data};
ghost use Rattle.srt_group_shown.specs.Tables.{tables};
ghost use Rattle.srt_group_shown.specs.Ready.{storing};
ghost use Rattle.srt_group_words.specs.Words.{silent, words, PromisedWords, ReadyWords, PerformsWords};
ghost use Rattle.srt_group_c_queueing.specs.Queued.{queued};

use cell_set::{WORDS, of_words_mut};
use srt_group_model::Data;
use srt_group_queueing::queueing;
use srt_group_words::begin::begin_stored;
use srt_group_words::record::{RECORD, SHORT, read_group};
use srt_protocol::error::outcome_number;
use srt_protocol::time::Timestamp;

// `srt_group_raw_queue_data` for a valid state, of which `used` shows the cells in use.
#[tactic(auto, using(srt_group_words::specs::Laws::Words::group_ready))]
#[unsafe(no_mangle)]
pub extern "C" fn srt_group_valid_queue_data(
    record: &[u64],
    members: &mut [u64],
    pending: &[u64],
    waiting: &[u64],
    history: &[u64],
    sources: &[u64],
    store: &mut [u8],
    used: &mut [u64],
    id: u64,
    sequence: u64,
    count: u64,
    message: u64,
    timestamp: u64,
    source: u64,
    payload: &[u8],
) -> u32
    requires { ReadyWords «record».now (tables members.old pending.now waiting.now history.now sources.now)
        (length store.old) used.old }
    ensures { PerformsWords (call_queue_data id (queued sequence count message timestamp source) payload.now) silent
        (words «record».now
        (tables members.old pending.now waiting.now history.now sources.now)
        (storing store.old) []) result
        (words «record».now
        (tables members.new pending.now waiting.now history.now sources.now)
        (storing store.new) []) used.new }
{
    let queued = queueing::queue_data(
        read_group(record),
        members,
        pending,
        waiting,
        history,
        sources,
        store,
        of_words_mut(used),
        id,
        Data {
            sequence,
            count,
            message,
            timestamp,
            source: Timestamp(source),
            cell: 0,
            length: 0,
        },
        payload,
    );
    outcome_number(queued)
}

// A packet at the end of a leg's queue, its payload in the lowest free cell of the store.
#[tactic(auto, using(srt_group_words::specs::Laws::Words::record_refused, srt_group_words::specs::Laws::Begin::stored_ready))]
#[unsafe(no_mangle)]
pub extern "C" fn srt_group_raw_queue_data(
    record: &[u64],
    members: &mut [u64],
    pending: &[u64],
    waiting: &[u64],
    history: &[u64],
    sources: &[u64],
    store: &mut [u8],
    id: u64,
    sequence: u64,
    count: u64,
    message: u64,
    timestamp: u64,
    source: u64,
    payload: &[u8],
) -> u32
    ensures { PromisedWords (call_queue_data id (queued sequence count message timestamp source) payload.now) silent false
        (words «record».now
        (tables members.old pending.now waiting.now history.now sources.now)
        (storing store.old) []) result
        (words «record».now
        (tables members.new pending.now waiting.now history.now sources.now)
        (storing store.new) []) }
{
    if record.len() < RECORD {
        return SHORT;
    }
    let mut used = [0; WORDS];
    let begun = begin_stored(
        record,
        members,
        pending,
        waiting,
        history,
        sources,
        store.len(),
        &mut used,
    );
    if let Err(error) = begun {
        return u32::from(error);
    }
    srt_group_valid_queue_data(
        record, members, pending, waiting, history, sources, store, &mut used, id, sequence, count,
        message, timestamp, source, payload,
    )
}
