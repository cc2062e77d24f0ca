// Runs of sends. A step is one word: a leg times 2^32, and the sequence up to which that leg is acknowledged; with leg 0 it is a send of the
// payload, at the time that the word says. The step's answer, one number, takes its place.
// Kept (5, 6): each table is a parameter of its own, as C lends it and the calls that are timed take it.
// Kept (1): a step and its answer are one word of the row that the measuring program lends, and so is the field that a reading names.
// Kept (2): the two loops differ in their call; what the forms rest on, `Ready`, is said of the tables, which one loop over a closure would not see.
ghost use Rattle.std.specs.Prelude.{◌≤◌, length};
ghost use Rattle.srt_group_model.specs.Sending.{list_size};
ghost use Rattle.srt_group_shown.specs.Tables.{tables};
ghost use Rattle.srt_group_shown.specs.Ready.{Ready};
ghost use Rattle.srt_group.specs.Made.{parts_of};

use bench_steps::steps::{LEG, Stepped};
use cell_set::CellSet;
use srt_group::Group;
use srt_group_queueing::calls as queueing_calls;
use srt_group_queueing::readings::read_leg;
use srt_group_send::sending;
use srt_group_send_calls::calls;
use srt_protocol::error::{Error, outcome_number};
use srt_protocol::time::Timestamp;

// The answer that is no count of legs: a send that was refused.
const NOT_SENT: u64 = 4294967295;

// The field of a leg that says up to where it is acknowledged.
const ACKNOWLEDGED: u64 = 5;

// On how many legs a send went.
fn answered(answer: Result<usize, Error>) -> u64 {
    answer.map_or(NOT_SENT, |legs| legs as u64)
}

// A step by the public calls, which test 5 and 6. An acknowledgement is answered by the code.
fn call(
    group: Group,
    members: &mut [u64],
    pending: &[u64],
    waiting: &[u64],
    history: &mut [u64],
    sources: &mut [u64],
    store: &mut [u8],
    list: &mut [u64],
    word: u64,
    payload: &[u8],
) -> Stepped<Group> {
    let leg = word / LEG;
    if leg == 0 {
        let sent = calls::send(
            group,
            members,
            pending,
            waiting,
            history,
            sources,
            store,
            list,
            Timestamp(word),
            payload,
        );
        return Stepped {
            record: sent.record,
            answer: answered(sent.answer),
        };
    }
    let outcome = queueing_calls::read_leg(
        group,
        members,
        pending,
        waiting,
        history,
        sources,
        leg,
        ACKNOWLEDGED,
        word % LEG,
    );
    Stepped {
        record: group,
        answer: outcome_number(outcome) as u64,
    }
}

// Each step in turn by the public calls.
pub fn call_each(
    mut group: Group,
    members: &mut [u64],
    pending: &[u64],
    waiting: &[u64],
    history: &mut [u64],
    sources: &mut [u64],
    store: &mut [u8],
    list: &mut [u64],
    steps: &mut [u64],
    payload: &[u8],
) -> Group {
    for word in steps.iter_mut() {
        let called = call(
            group, members, pending, waiting, history, sources, store, list, *word, payload,
        );
        group = called.record;
        *word = called.answer;
    }
    group
}

// A step by the forms for a valid state, which test neither.
fn step(
    group: Group,
    members: &mut [u64],
    pending: &[u64],
    waiting: &[u64],
    history: &mut [u64],
    sources: &mut [u64],
    store: &mut [u8],
    list: &mut [u64],
    used: &mut CellSet,
    word: u64,
    payload: &[u8],
) -> Stepped<Group>
    requires ready { Ready (parts_of group)
        (tables members.old pending.now waiting.now history.old sources.old) (length store.old) used.old }
    requires list_size_in_bounds { list_size ≤ length list.old }
    ensures { Ready (parts_of result.«record»)
        (tables members.new pending.now waiting.now history.new sources.new)
        (length store.new) used.new }
{
    let leg = word / LEG;
    if leg == 0 {
        let sent = sending::send(
            &group,
            members,
            pending,
            waiting,
            history,
            sources,
            store,
            list,
            used,
            Timestamp(word),
            payload,
        );
        return Stepped {
            record: sent.record,
            answer: answered(sent.answer),
        };
    }
    let outcome = read_leg(
        group,
        members,
        pending,
        waiting,
        history,
        sources,
        store,
        used,
        leg,
        ACKNOWLEDGED,
        word % LEG,
    );
    Stepped {
        record: group,
        answer: outcome_number(outcome) as u64,
    }
}

// Each step in turn by the forms for a valid state.
pub fn step_each(
    mut group: Group,
    members: &mut [u64],
    pending: &[u64],
    waiting: &[u64],
    history: &mut [u64],
    sources: &mut [u64],
    store: &mut [u8],
    list: &mut [u64],
    used: &mut CellSet,
    steps: &mut [u64],
    payload: &[u8],
) -> Group
    requires ready { Ready (parts_of group)
        (tables members.old pending.now waiting.now history.old sources.old) (length store.old) used.old }
    requires list_size_in_bounds { list_size ≤ length list.old }
{
    for word in steps.iter_mut() {
        let stepped = step(
            group, members, pending, waiting, history, sources, store, list, used, *word, payload,
        );
        group = stepped.record;
        *word = stepped.answer;
    }
    group
}
