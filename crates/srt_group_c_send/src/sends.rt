// `send` and `send_shared`.
// Kept (2, 5, 6): C calls each by its name, and lends each table by its own name and length (docs/TABLES.md).
ghost use Rattle.std.specs.Prelude.{false, ◌≤◌, length};
ghost use Rattle.srt_group_model.specs.Sending.{list_size};
ghost use Rattle.srt_group_model.specs.Lent.{call_send};
ghost use Rattle.srt_group_shown.specs.Tables.{tables};
ghost use Rattle.srt_group_shown.specs.Ready.{sending_into};
ghost use Rattle.srt_group_words.specs.Words.{sent_words, words, PromisedWords, ReadyWords, PerformsWords};

use crate::answers::{SENT, put_send};
use cell_set::{WORDS, of_words_mut};
use srt_group_send::sending;
use srt_group_sending::list::SENT_LENGTH;
use srt_group_words::answers::put;
use srt_group_words::begin::begin_stored;
use srt_group_words::record::{RECORD, SHORT, read_group};
use srt_protocol::time::Timestamp;

// `srt_group_raw_send` for a valid state, of which `used` shows the cells in use.
#[unsafe(no_mangle)]
pub extern "C" fn srt_group_valid_send(
    record: &mut [u64],
    members: &mut [u64],
    pending: &[u64],
    waiting: &[u64],
    history: &mut [u64],
    sources: &mut [u64],
    store: &mut [u8],
    list: &mut [u64],
    used: &mut [u64],
    time: u64,
    payload: &[u8],
    answer: &mut [u64],
) -> u32
    requires ready_words { ReadyWords «record».old (tables members.old pending.now waiting.now history.old sources.old)
        (length store.old) used.old }
    requires list_size_in_bounds { (list_size ≤ length list.old) × (2 ≤ length answer.old) }
    ensures { PerformsWords (call_send time payload.now) sent_words
        (words «record».old
        (tables members.old pending.now waiting.now history.old sources.old)
        (sending_into store.old list.old) answer.old) result
        (words «record».new
        (tables members.new pending.now waiting.now history.new sources.new)
        (sending_into store.new list.new) answer.new) used.new }
{
    let group = read_group(record);
    let sent = sending::send(
        &group,
        members,
        pending,
        waiting,
        history,
        sources,
        store,
        list,
        of_words_mut(used),
        Timestamp(time),
        payload,
    );
    put_send(record, answer, sent)
}

// One payload through the group, on every active leg or on the carrier; each send that a leg takes fills a row of the list: leg, sequence,
// history cell (4294967295 for this payload), source time, time. The answer: on how many legs, and how many rows were filled.
#[tactic(auto, using(srt_group_words::specs::Laws::Words::record_refused, srt_group_words::specs::Laws::Words::sent_refused))]
#[unsafe(no_mangle)]
pub extern "C" fn srt_group_raw_send(
    record: &mut [u64],
    members: &mut [u64],
    pending: &[u64],
    waiting: &[u64],
    history: &mut [u64],
    sources: &mut [u64],
    store: &mut [u8],
    list: &mut [u64],
    time: u64,
    payload: &[u8],
    answer: &mut [u64],
) -> u32
    ensures { PromisedWords (call_send time payload.now) sent_words false
        (words «record».old
        (tables members.old pending.now waiting.now history.old sources.old)
        (sending_into store.old list.old) answer.old) result
        (words «record».new
        (tables members.new pending.now waiting.now history.new sources.new)
        (sending_into store.new list.new) answer.new) }
{
    if record.len() < RECORD || answer.len() < SENT {
        return SHORT;
    }
    if list.len() < SENT_LENGTH {
        put(answer, [0, 0]);
        return SHORT;
    }
    let mut used = [0; WORDS];
    let begun = begin_stored(
        record,
        members,
        pending,
        waiting,
        history,
        sources,
        store.len(),
        &mut used,
    );
    if let Err(error) = begun {
        put(answer, [0, 0]);
        return u32::from(error);
    }
    srt_group_valid_send(
        record, members, pending, waiting, history, sources, store, list, &mut used, time, payload,
        answer,
    )
}

// The same: a lent payload is shared by all legs as it is, so the Rust's form for counted bytes is no other call.
#[unsafe(no_mangle)]
pub extern "C" fn srt_group_raw_send_shared(
    record: &mut [u64],
    members: &mut [u64],
    pending: &[u64],
    waiting: &[u64],
    history: &mut [u64],
    sources: &mut [u64],
    store: &mut [u8],
    list: &mut [u64],
    time: u64,
    payload: &[u8],
    answer: &mut [u64],
) -> u32
    ensures { PromisedWords (call_send time payload.now) sent_words false
        (words «record».old
        (tables members.old pending.now waiting.now history.old sources.old)
        (sending_into store.old list.old) answer.old) result
        (words «record».new
        (tables members.new pending.now waiting.now history.new sources.new)
        (sending_into store.new list.new) answer.new) }
{
    srt_group_raw_send(
        record, members, pending, waiting, history, sources, store, list, time, payload, answer,
    )
}
