// The verbs that add, remove or change a member, and those that queue an event or read a leg's field.
// Kept (2): `read`, `mark_broken` and `queue`, and so `add` and `remove`, differ in the call that they make; a closure for it is no plainer, since it takes all
// that the call takes.
// Kept (5, 6): tables and store are lent anew to each verb, of any length that suffices; of a struct of `&mut`, no plainer, each clause names each field.
ghost use Rattle.std.specs.Prelude.{◌≡◌, length};
ghost use Rattle.srt_protocol.specs.Errors.{outcome_number};
ghost use Rattle.srt_group_model.specs.Listing.{leg_of_line, refused_line};
ghost use Rattle.srt_group_shown.specs.Tables.{tables};
ghost use Rattle.srt_group_shown.specs.Ready.{Ready};
ghost use Rattle.srt_group.specs.Made.{parts_of};
ghost use Rattle.srt_group_traces.specs.VerbCalls.{addition, reading, removing, breaking, event};
ghost use Rattle.srt_group_listing.specs.Telling.{numbers_of, HandedOver, Tells};

use crate::{Line, Printed, Told};
use cell_set::CellSet;
use srt_connection_members::{clear_at, put_leg_at};
use srt_connection_queue::rows::{ROW, Row};
use srt_group::Group;
use srt_group_addition::handed::add_member;
use srt_group_member_states::broken::mark_member_broken;
use srt_group_model::{Leg, Link, Receiver, Sender, Trip};
use srt_group_queueing::events::queue_event;
use srt_group_queueing::readings::read_leg;
use srt_group_removal::connection::remove_member;
use srt_protocol::error::{Error, outcome_number};
use srt_protocol::time::Timestamp;

// The line of a verb that is refused, or accepted without columns of its own (0).
// Kept (1): verb and code are printed columns, the verb 0 where a line names none; an `Option` of an enum would be turned into the number at once: no plainer.
pub fn code_line(verb: u64, code: u64) -> Printed
    ensures { numbers_of result ≡ refused_line verb code }
{
    Printed {
        verb,
        code,
        ..Printed::default()
    }
}

// The line of a verb that answers its outcome alone.
// Kept (1): the verb is the printed column, as in `code_line`, which prints it.
pub fn outcome_line(verb: u64, outcome: Result<(), Error>) -> Printed
    ensures { numbers_of result ≡ refused_line verb (outcome_number outcome) }
{
    code_line(verb, outcome_number(outcome) as u64)
}

// The leg of verb 2. What the line does not say of it is 0, but for the receive window and the payload limit.
// Kept (4): the one leg that is made from no row; a `Default` of its four parts, in the crate below, for this place alone is no plainer.
fn leg_of_line(line: &Line) -> Leg
    ensures { result ≡ leg_of_line line.now }
{
    Leg {
        link: Link {
            state: line[3],
            peer: 0,
            limit: Group::CELL as u64,
        },
        sender: Sender {
            started: 0,
            next: line[4],
            flight: 0,
            window: line[6],
            oldest: Timestamp(0),
            pace: Timestamp(0),
        },
        receiver: Receiver {
            first: line[5],
            window: 8192,
            latency: line[7],
            reserved: 0,
            advanced: 0,
        },
        trip: Trip {
            srtt: 0,
            rttvar: 0,
            heard: Timestamp(0),
        },
    }
}

// The leg of verb 2 into a row, as an addition is handed one: with an empty queue.
fn hand_over(line: &Line) -> Row
    ensures { HandedOver (leg_of_line line.now) result }
{
    let mut row = [0; ROW];
    put_leg_at(&mut row, 0, leg_of_line(line));
    clear_at(&mut row, 0);
    row
}

// Verb 2: a leg is added.
pub fn add(
    group: Group,
    members: &mut [u64],
    pending: &[u64],
    waiting: &[u64],
    history: &[u64],
    sources: &[u64],
    store: &[u8],
    used: &CellSet,
    line: &Line,
) -> Told
    requires { Ready (parts_of group)
        (tables members.old pending.now waiting.now history.now sources.now) (length store.now) used.now }
    ensures { Tells 2 (addition line.now) group
        (tables members.old pending.now waiting.now history.now sources.now)
        (length store.now) result
        (tables members.new pending.now waiting.now history.now sources.now)
        used.now }
{
    let row = hand_over(line);
    let added = add_member(
        group, members, pending, waiting, history, sources, store, used, &row, line[1], line[2],
    );
    Told {
        group: Group {
            core: added.record,
            ..group
        },
        line: outcome_line(2, added.answer),
    }
}

// Verb 3: a number is read into a leg's field.
pub fn read(
    group: Group,
    members: &mut [u64],
    pending: &[u64],
    waiting: &[u64],
    history: &[u64],
    sources: &[u64],
    store: &[u8],
    used: &CellSet,
    line: &Line,
) -> Told
    requires { Ready (parts_of group)
        (tables members.old pending.now waiting.now history.now sources.now) (length store.now) used.now }
    ensures { Tells 3 (reading line.now) group
        (tables members.old pending.now waiting.now history.now sources.now)
        (length store.now) result
        (tables members.new pending.now waiting.now history.now sources.now)
        used.now }
{
    let outcome = read_leg(
        group, members, pending, waiting, history, sources, store, used, line[1], line[2], line[3],
    );
    Told {
        group,
        line: outcome_line(3, outcome),
    }
}

// Verb 7: a member is removed, and its leg dropped.
pub fn remove(
    group: Group,
    members: &mut [u64],
    pending: &mut [u64],
    waiting: &[u64],
    history: &[u64],
    sources: &[u64],
    store: &[u8],
    used: &mut CellSet,
    line: &Line,
) -> Told
    requires { Ready (parts_of group)
        (tables members.old pending.old waiting.now history.now sources.now) (length store.now) used.old }
    ensures { Tells 7 (removing line.now) group
        (tables members.old pending.old waiting.now history.now sources.now)
        (length store.now) result
        (tables members.new pending.new waiting.now history.now sources.now)
        used.new }
{
    let removed = remove_member(
        group, members, pending, waiting, history, sources, store, used, line[1],
    );
    Told {
        group: Group {
            core: removed.record,
            ..group
        },
        line: outcome_line(7, removed.answer),
    }
}

// Verb 8: a member is marked broken.
pub fn mark_broken(
    group: Group,
    members: &mut [u64],
    pending: &[u64],
    waiting: &[u64],
    history: &[u64],
    sources: &[u64],
    store: &[u8],
    used: &CellSet,
    line: &Line,
) -> Told
    requires { Ready (parts_of group)
        (tables members.old pending.now waiting.now history.now sources.now) (length store.now) used.now }
    ensures { Tells 8 (breaking line.now) group
        (tables members.old pending.now waiting.now history.now sources.now)
        (length store.now) result
        (tables members.new pending.now waiting.now history.now sources.now)
        used.now }
{
    let outcome = mark_member_broken(
        group, members, pending, waiting, history, sources, store, used, line[1],
    );
    Told {
        group,
        line: outcome_line(8, outcome),
    }
}

// Verb 9: an event is queued at a leg.
pub fn queue(
    group: Group,
    members: &mut [u64],
    pending: &[u64],
    waiting: &[u64],
    history: &[u64],
    sources: &[u64],
    store: &[u8],
    used: &CellSet,
    line: &Line,
) -> Told
    requires { Ready (parts_of group)
        (tables members.old pending.now waiting.now history.now sources.now) (length store.now) used.now }
    ensures { Tells 9 (event line.now) group
        (tables members.old pending.now waiting.now history.now sources.now)
        (length store.now) result
        (tables members.new pending.now waiting.now history.now sources.now)
        used.now }
{
    let outcome = queue_event(
        group, members, pending, waiting, history, sources, store, used, line[1], line[2], line[3],
    );
    Told {
        group,
        line: outcome_line(9, outcome),
    }
}
