// `poll_data_bounded` and `poll_data`.
// Kept (2, 5, 6): C calls each by its name, and lends each table by its own name and length (docs/TABLES.md).
ghost use Rattle.std.specs.Prelude.{false, ◌≤◌, length};
ghost use Rattle.srt_protocol.specs.Cells.{output_size};
ghost use Rattle.srt_group_model.specs.Lent.{call_poll_data, call_poll_data_bounded};
ghost use Rattle.srt_group_shown.specs.Tables.{tables};
ghost use Rattle.srt_group_shown.specs.Ready.{lending};
ghost use Rattle.srt_group_words.specs.Words.{in_words, words, PromisedWords, ReadyWords, PerformsWords};

use crate::answers::put_poll;
use cell_set::{WORDS, of_words_mut};
use srt_group_collecting::collecting::MAX_VISITS;
use srt_group_data_poll::polls;
use srt_group_words::answers::{POLLED, put};
use srt_group_words::begin::begin_poll;
use srt_group_words::record::{RECORD, SHORT, read_group};
use srt_protocol::time::Timestamp;

// `srt_group_raw_poll_data_bounded` for a valid state, of which `used` shows the cells in use.
#[tactic(auto, using(srt_group_words::specs::Laws::Words::group_ready))]
#[unsafe(no_mangle)]
pub extern "C" fn srt_group_valid_poll_data_bounded(
    record: &mut [u64],
    members: &mut [u64],
    pending: &mut [u64],
    waiting: &mut [u64],
    history: &[u64],
    sources: &[u64],
    store: &[u8],
    output: &mut [u8],
    used: &mut [u64],
    time: u64,
    max_events: usize,
    answer: &mut [u64],
) -> u32
    requires ready_words { ReadyWords «record».old (tables members.old pending.old waiting.old history.now sources.now)
        (length store.now) used.old }
    requires output_size_in_bounds { (output_size ≤ length output.old) × (8 ≤ length answer.old) }
    ensures { PerformsWords (call_poll_data_bounded time max_events) (in_words 8)
        (words «record».old
        (tables members.old pending.old waiting.old history.now sources.now)
        (lending store.now output.old) answer.old) result
        (words «record».new
        (tables members.new pending.new waiting.new history.now sources.now)
        (lending store.now output.new) answer.new) used.new }
{
    let poll = polls::poll_data_bounded(
        read_group(record),
        members,
        pending,
        waiting,
        history,
        sources,
        store,
        output,
        of_words_mut(used),
        Timestamp(time),
        max_events,
    );
    put_poll(record, answer, poll)
}

// The next packet in order, after at most so many events, which are dropped. Its payload is written from byte 12 of the output on. The answer:
// whether to poll again at once, and of the packet its leg, sequence, count (0: none), message number, timestamp, source time and length.
#[tactic(auto, using(srt_group_words::specs::Laws::Words::record_refused, srt_group_words::specs::Laws::Words::answer_refused, srt_group_words::specs::Laws::Begin::poll_ready))]
#[unsafe(no_mangle)]
pub extern "C" fn srt_group_raw_poll_data_bounded(
    record: &mut [u64],
    members: &mut [u64],
    pending: &mut [u64],
    waiting: &mut [u64],
    history: &[u64],
    sources: &[u64],
    store: &[u8],
    output: &mut [u8],
    time: u64,
    max_events: usize,
    answer: &mut [u64],
) -> u32
    ensures { PromisedWords (call_poll_data_bounded time max_events) (in_words 8) false
        (words «record».old
        (tables members.old pending.old waiting.old history.now sources.now)
        (lending store.now output.old) answer.old) result
        (words «record».new
        (tables members.new pending.new waiting.new history.now sources.now)
        (lending store.now output.new) answer.new) }
{
    if record.len() < RECORD || answer.len() < POLLED {
        return SHORT;
    }
    let mut used = [0; WORDS];
    let begun = begin_poll(
        record,
        members,
        pending,
        waiting,
        history,
        sources,
        store.len(),
        output.len(),
        &mut used,
    );
    if let Err(error) = begun {
        put(answer, [0; POLLED]);
        return u32::from(error);
    }
    srt_group_valid_poll_data_bounded(
        record, members, pending, waiting, history, sources, store, output, &mut used, time,
        max_events, answer,
    )
}

// `poll_data_bounded` with as many events as it may pass, 64.
#[unsafe(no_mangle)]
pub extern "C" fn srt_group_raw_poll_data(
    record: &mut [u64],
    members: &mut [u64],
    pending: &mut [u64],
    waiting: &mut [u64],
    history: &[u64],
    sources: &[u64],
    store: &[u8],
    output: &mut [u8],
    time: u64,
    answer: &mut [u64],
) -> u32
    ensures { PromisedWords (call_poll_data time) (in_words 8) false
        (words «record».old
        (tables members.old pending.old waiting.old history.now sources.now)
        (lending store.now output.old) answer.old) result
        (words «record».new
        (tables members.new pending.new waiting.new history.now sources.now)
        (lending store.now output.new) answer.new) }
{
    srt_group_raw_poll_data_bounded(
        record, members, pending, waiting, history, sources, store, output, time, MAX_VISITS,
        answer,
    )
}
