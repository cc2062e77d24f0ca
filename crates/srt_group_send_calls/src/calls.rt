// `send` and the readiness tests with their refusals, over the record and the lent tables: 5 and 6, and then what follows them.
// Kept (5, 6): the calls are lent flat tables, as C lends them; of a struct of them each clause would name every `&mut` field by a ghost name (docs/DECISIONS.md, "What only reads a table").
// Kept (2): public names, each with the promise of its call; each is one call of `send` or of `test`.
ghost use Rattle.srt_group_model.specs.Lent.{call_send, call_can_send, call_can_send_with_pacing};
ghost use Rattle.srt_group_looks.specs.Looks.{truth_code, truth_answer};
ghost use Rattle.srt_group_shown.specs.Tables.{tables};
ghost use Rattle.srt_group_shown.specs.Ready.{sending_into};
ghost use Rattle.srt_group.specs.Made.{parts_of};
ghost use Rattle.srt_group_refusals.specs.Promised.{nothing_lent, showing, Promised};
ghost use Rattle.srt_group_sending.specs.Readiness.{pacing_in};
ghost use Rattle.srt_group_send.specs.Answers.{send_number, send_answer};
ghost use Rattle.srt_group_send.specs.Readiness.{call_paced, InWord};

use cell_set::WORDS;
use srt_group::{Answered, Group};
use srt_group_refusals::refusals::LentGroup;
use srt_group_send::sending::GroupSent;
use srt_group_send::{readiness, sending};
use srt_group_sending::list::SENT_LENGTH;
use srt_protocol::error::Error;
use srt_protocol::time::Timestamp;

// One payload through the group, on every active leg or on the carrier; each send that a leg takes fills a row of the list.
pub fn send(
    group: Group,
    members: &mut [u64],
    pending: &[u64],
    waiting: &[u64],
    history: &mut [u64],
    sources: &mut [u64],
    store: &mut [u8],
    list: &mut [u64],
    time: Timestamp,
    payload: &[u8],
) -> GroupSent
    ensures { Promised (call_send time.0 payload.now) (parts_of group)
        (tables members.old pending.now waiting.now history.old sources.old)
        (sending_into store.old list.old)
        (showing (parts_of result.«record»)
        (tables members.new pending.now waiting.now history.new sources.new)
        (sending_into store.new list.new) (send_number result.answer) (send_answer result.answer) result.rows) }
{
    if list.len() < SENT_LENGTH {
        return GroupSent::refused(group, Error::InsufficientBuffer);
    }
    let mut used = [0u64; WORDS];
    let lent = LentGroup {
        group,
        members,
        pending,
        waiting,
        history,
        sources,
    };
    if let Err(refusal) = lent.begin_stored(store.len(), &mut used) {
        return GroupSent::refused(group, refusal);
    }
    sending::send(
        &group, members, pending, waiting, history, sources, store, list, &mut used, time, payload,
    )
}

// The same: a lent payload is shared by all legs as it is, so the Rust's form for counted bytes is no other call.
pub fn send_shared(
    group: Group,
    members: &mut [u64],
    pending: &[u64],
    waiting: &[u64],
    history: &mut [u64],
    sources: &mut [u64],
    store: &mut [u8],
    list: &mut [u64],
    time: Timestamp,
    payload: &[u8],
) -> GroupSent
    ensures { Promised (call_send time.0 payload.now) (parts_of group)
        (tables members.old pending.now waiting.now history.old sources.old)
        (sending_into store.old list.old)
        (showing (parts_of result.«record»)
        (tables members.new pending.now waiting.now history.new sources.new)
        (sending_into store.new list.new) (send_number result.answer) (send_answer result.answer) result.rows) }
{
    send(
        group, members, pending, waiting, history, sources, store, list, time, payload,
    )
}

// ---- readiness

// Whether the group could send; with a time a leg counts that may send by its pace at it. The test refreshes the record and trims the
// history in it.
fn test(
    group: Group,
    members: &mut [u64],
    pending: &[u64],
    waiting: &[u64],
    history: &[u64],
    sources: &[u64],
    pacing: Option<Timestamp>,
) -> Answered<Group, bool>
    requires { InWord (pacing_in pacing) }
    ensures { Promised (call_paced (pacing_in pacing)) (parts_of group)
        (tables members.old pending.now waiting.now history.now sources.now)
        nothing_lent
        (showing (parts_of result.«record»)
        (tables members.new pending.now waiting.now history.now sources.now)
        nothing_lent (truth_code result.answer) (truth_answer result.answer) 0) }
{
    let lent = LentGroup {
        group,
        members,
        pending,
        waiting,
        history,
        sources,
    };
    if let Err(error) = lent.begin() {
        return Answered::refused(group, error);
    }
    let mut used = [0u64; WORDS];
    let tested = readiness::test(group, history, members, &mut used, pacing);
    Answered {
        record: tested.record,
        answer: Ok(tested.ready),
    }
}

// Whether the group could send now.
pub fn can_send(
    group: Group,
    members: &mut [u64],
    pending: &[u64],
    waiting: &[u64],
    history: &[u64],
    sources: &[u64],
) -> Answered<Group, bool>
    ensures { Promised call_can_send (parts_of group)
        (tables members.old pending.now waiting.now history.now sources.now)
        nothing_lent
        (showing (parts_of result.«record»)
        (tables members.new pending.now waiting.now history.now sources.now)
        nothing_lent (truth_code result.answer) (truth_answer result.answer) 0) }
{
    test(group, members, pending, waiting, history, sources, None)
}

// The same, where a leg counts that may send by its pace at this time.
pub fn can_send_with_pacing(
    group: Group,
    members: &mut [u64],
    pending: &[u64],
    waiting: &[u64],
    history: &[u64],
    sources: &[u64],
    time: Timestamp,
) -> Answered<Group, bool>
    ensures { Promised (call_can_send_with_pacing time.0) (parts_of group)
        (tables members.old pending.now waiting.now history.now sources.now)
        nothing_lent
        (showing (parts_of result.«record»)
        (tables members.new pending.now waiting.now history.now sources.now)
        nothing_lent (truth_code result.answer) (truth_answer result.answer) 0) }
{
    test(
        group,
        members,
        pending,
        waiting,
        history,
        sources,
        Some(time),
    )
}
