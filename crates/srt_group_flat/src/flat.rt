// `poll_data`, `add_member` and `send` by value with answers of words: each makes the call and turns its answer into words.
// Kept (1, 5, 6): srt_group_lent exports these calls to C, which has no Result and lends each table by its own name.
ghost use Rattle.srt_group_model.specs.Guards.{no_answer};
ghost use Rattle.srt_group_model.specs.Lent.{call_poll_data, call_send};
ghost use Rattle.srt_group_shown.specs.Tables.{tables};
ghost use Rattle.srt_group_shown.specs.Ready.{lending, sending_into};
ghost use Rattle.srt_group.specs.Made.{parts_of};
ghost use Rattle.srt_group_refusals.specs.Promised.{nothing_lent, showing, Promised, PromisedRow};
ghost use Rattle.srt_group_addition.specs.Handed.{call_of_row};
ghost use Rattle.srt_group_flat.specs.Words.{words_answer, Cleared, send_words_answer, ClearedSent};

use crate::words::{DataWords, SendWords, words_of_send};
use srt_group::Group;
use srt_group_addition::calls as addition;
use srt_group_data_poll::calls as polls;
use srt_group_send_calls::calls as sends;
use srt_protocol::error::outcome_number;
use srt_protocol::time::Timestamp;

// The answer of a call in words, a code among them, and the record after it.
#[derive(Clone, Copy)]
pub struct AnsweredWords<T> {
    pub group: Group,
    pub answer: T,
}

// `poll_data` with its answer in words.
pub fn poll_data(
    group: Group,
    members: &mut [u64],
    pending: &mut [u64],
    waiting: &mut [u64],
    history: &[u64],
    sources: &[u64],
    store: &[u8],
    output: &mut [u8],
    time: Timestamp,
) -> AnsweredWords<DataWords>
    ensures promised { Promised (call_poll_data time.0) (parts_of group)
        (tables members.old pending.old waiting.old history.now sources.now)
        (lending store.now output.old)
        (showing (parts_of result.group)
        (tables members.new pending.new waiting.new history.now sources.now)
        (lending store.now output.new) result.answer.code (words_answer result.answer) 0) }
    ensures cleared { Cleared result.answer }
{
    let polled = polls::poll_data(
        group, members, pending, waiting, history, sources, store, output, time,
    );
    AnsweredWords {
        group: polled.record,
        answer: DataWords::from(polled.answer),
    }
}

// `add_member` with its outcome as a number.
pub fn add_member(
    group: Group,
    members: &mut [u64],
    pending: &[u64],
    waiting: &[u64],
    history: &[u64],
    sources: &[u64],
    row: &[u64],
    id: u64,
    weight: u64,
) -> AnsweredWords<u64>
    ensures { PromisedRow (call_of_row id weight row.now) (parts_of group)
        (tables members.old pending.now waiting.now history.now sources.now)
        row.now
        (showing (parts_of result.group)
        (tables members.new pending.now waiting.now history.now sources.now)
        nothing_lent result.answer no_answer 0) }
{
    let added = addition::add_member(
        group, members, pending, waiting, history, sources, row, id, weight,
    );
    AnsweredWords {
        group: added.record,
        answer: u64::from(outcome_number(added.answer)),
    }
}

// `send` with its answer in words.
pub fn send(
    group: Group,
    members: &mut [u64],
    pending: &[u64],
    waiting: &[u64],
    history: &mut [u64],
    sources: &mut [u64],
    store: &mut [u8],
    list: &mut [u64],
    time: Timestamp,
    payload: &[u8],
) -> AnsweredWords<SendWords>
    ensures promised { Promised (call_send time.0 payload.now) (parts_of group)
        (tables members.old pending.now waiting.now history.old sources.old)
        (sending_into store.old list.old)
        (showing (parts_of result.group)
        (tables members.new pending.now waiting.now history.new sources.new)
        (sending_into store.new list.new) result.answer.code (send_words_answer result.answer) result.answer.rows) }
    ensures cleared_sent { ClearedSent result.answer }
{
    let sent = sends::send(
        group, members, pending, waiting, history, sources, store, list, time, payload,
    );
    AnsweredWords {
        group: sent.record,
        answer: words_of_send(sent.answer, sent.rows),
    }
}
