// Runs of steps. A step is one word: a leg times 2^32, and the sequence of the packet that is queued there; with leg 0 it is a poll. The step's
// answer, one number, takes its place.
// Kept (5, 6): each table is a parameter of its own, as C lends it and the calls that are timed take it.
// Kept (1): a step and its answer are one word of the row that the measuring program lends; an enum of a step would be read here and used at once.
// Kept (2): the two loops differ in their call; what the forms rest on, `Ready`, is said of the tables, which one loop over a closure would not see.
ghost use Rattle.std.specs.Prelude.{◌≤◌, length};
ghost use Rattle.srt_protocol.specs.Cells.{output_size};
ghost use Rattle.srt_group_shown.specs.Tables.{parts, tables};
ghost use Rattle.srt_group_shown.specs.Ready.{Ready};
ghost use Rattle.srt_group.specs.Made.{parts_of};

use bench_made::data;
use cell_set::CellSet;
use srt_group::Group;
use srt_group_collecting::collecting::MAX_VISITS;
use srt_group_data_poll::calls;
use srt_group_data_poll::calls::GroupDataPoll;
use srt_group_data_poll::polls::poll_data_bounded;
use srt_group_model::{Core, Packet};
use srt_group_queueing::calls as queueing_calls;
use srt_group_queueing::queueing::queue_data;
use srt_protocol::error::{Error, outcome_number};
use srt_protocol::time::Timestamp;

// The answers that are no sequence: no packet, and a poll that was refused.
const NO_PACKET: u64 = 4294967295;

const NOT_POLLED: u64 = 4294967294;

// What a step leaves of the record, the whole after a call and the core after a form, and the step's answer.
#[derive(Clone, Copy)]
pub struct Stepped<R> {
    pub record: R,
    pub answer: u64,
}

// The leg of a step, and its sequence.
pub const LEG: u64 = 4294967296;

// The sequence of the packet that a poll gave.
fn given(gave: Option<Packet>) -> u64 {
    gave.map_or(NO_PACKET, |packet| packet.content.sequence)
}

fn answered(answer: Result<GroupDataPoll, Error>) -> u64 {
    answer.map_or(NOT_POLLED, |poll| given(poll.packet))
}

// A step by the public calls, which test 5 and 6. A packet that is queued is answered by the code.
fn call(
    group: Group,
    members: &mut [u64],
    pending: &mut [u64],
    waiting: &mut [u64],
    history: &[u64],
    sources: &[u64],
    store: &mut [u8],
    output: &mut [u8],
    word: u64,
    payload: &[u8],
    time: u64,
) -> Stepped<Group> {
    let leg = word / LEG;
    if leg == 0 {
        let polled = calls::poll_data(
            group,
            members,
            pending,
            waiting,
            history,
            sources,
            store,
            output,
            Timestamp(time),
        );
        return Stepped {
            record: polled.record,
            answer: answered(polled.answer),
        };
    }
    let outcome = queueing_calls::queue_data(
        group,
        members,
        pending,
        waiting,
        history,
        sources,
        store,
        leg,
        data(word % LEG, 0, 0),
        payload,
    );
    Stepped {
        record: group,
        answer: outcome_number(outcome) as u64,
    }
}

// Each step in turn by the public calls.
pub fn call_each(
    mut group: Group,
    members: &mut [u64],
    pending: &mut [u64],
    waiting: &mut [u64],
    history: &[u64],
    sources: &[u64],
    store: &mut [u8],
    output: &mut [u8],
    steps: &mut [u64],
    payload: &[u8],
    time: u64,
) -> Group {
    for word in steps.iter_mut() {
        let called = call(
            group, members, pending, waiting, history, sources, store, output, *word, payload, time,
        );
        group = called.record;
        *word = called.answer;
    }
    group
}

// A step by the forms for a valid state, which test neither.
fn step(
    group: Group,
    members: &mut [u64],
    pending: &mut [u64],
    waiting: &mut [u64],
    history: &[u64],
    sources: &[u64],
    store: &mut [u8],
    output: &mut [u8],
    used: &mut CellSet,
    word: u64,
    payload: &[u8],
    time: u64,
) -> Stepped<Core>
    requires ready { Ready (parts_of group)
        (tables members.old pending.old waiting.old history.now sources.now) (length store.old) used.old }
    requires output_size_in_bounds { output_size ≤ length output.old }
    ensures { Ready (parts group.identity result.record group.sending group.ring)
        (tables members.new pending.new waiting.new history.now sources.now)
        (length store.new) used.new }
{
    let leg = word / LEG;
    if leg == 0 {
        let poll = poll_data_bounded(
            group,
            members,
            pending,
            waiting,
            history,
            sources,
            store,
            output,
            used,
            Timestamp(time),
            MAX_VISITS,
        );
        return Stepped {
            record: poll.core,
            answer: given(poll.gave),
        };
    }
    let outcome = queue_data(
        group,
        members,
        pending,
        waiting,
        history,
        sources,
        store,
        used,
        leg,
        data(word % LEG, 0, 0),
        payload,
    );
    Stepped {
        record: group.core,
        answer: outcome_number(outcome) as u64,
    }
}

// Each step in turn by the forms for a valid state.
pub fn step_each(
    mut group: Group,
    members: &mut [u64],
    pending: &mut [u64],
    waiting: &mut [u64],
    history: &[u64],
    sources: &[u64],
    store: &mut [u8],
    output: &mut [u8],
    used: &mut CellSet,
    steps: &mut [u64],
    payload: &[u8],
    time: u64,
) -> Core
    requires ready { Ready (parts_of group)
        (tables members.old pending.old waiting.old history.now sources.now) (length store.old) used.old }
    requires output_size_in_bounds { output_size ≤ length output.old }
{
    for word in steps.iter_mut() {
        let stepped = step(
            group, members, pending, waiting, history, sources, store, output, used, *word,
            payload, time,
        );
        group.core = stepped.record;
        *word = stepped.answer;
    }
    group.core
}
