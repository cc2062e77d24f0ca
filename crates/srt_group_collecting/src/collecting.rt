// The events of the legs, in turn: a packet is held or discarded, another event waits to be given. One visit takes one event; a
// poll visits until there is something to give, and before it skips a gap until every queue is empty.
// Kept (5, 6): a step that moves tables takes them one beside the other: a struct of `&mut` asks for loans that a call does not need, and for a clause to each field, that its slice is still the caller's (tried); what holds of them is one fact, `Usable`.
// Kept (5): what goes by value beside them is the group's record, which a step gives back, and the one or two numbers that this step is about; a struct of those would be made for a single call and is no plainer.
// Kept (1): the record's flag of the continuation is asked as the word that it is, as the definitions ask it.
ghost use Rattle.std.specs.Prelude.{◌≡◌, true, false, ◌&&◌, ◌||◌, ◌+◌, ◌*◌, ◌%◌, ◌≤◌, ◌<◌, eqb, length};
ghost use Rattle.srt_protocol.specs.Sequence.{sequence_before};
ghost use Rattle.srt_group_model.specs.Tools.{is_set, bit, flagged, if_some◌give◌otherwise◌};
ghost use Rattle.srt_group_model.specs.State.{on_membership, on_account};
ghost use Rattle.srt_group_model.specs.Accounts.{reserve, Fits};
ghost use Rattle.srt_group_model.specs.Core.{with_next, continued};
ghost use Rattle.srt_group_model.specs.Collecting.{is_discarded, take_front, collect_one_event, has_pending_data};
ghost use Rattle.srt_group_model.specs.Nearest.{is_held};
ghost use Rattle.srt_group_model.specs.Validity.{max_waiting, max_pending, max_members, ascends};
ghost use Rattle.srt_connection_members.specs.Members.{member_at, members_of, HasRow, Changed};
ghost use Rattle.srt_connection_queue.specs.Rows.{row_size};
ghost use Rattle.srt_group_members.specs.Scan.{Became};
ghost use Rattle.srt_group_tables.specs.Packets.{pending_size, packets};
ghost use Rattle.srt_group_tables.specs.Waitings.{waiting_size};
ghost use Rattle.srt_group_shown.specs.Tables.{receive_tables};
ghost use Rattle.cell_set.specs.Sets.{Freed};
ghost use Rattle.cell_set.specs.Shows.{freed_by};
ghost use Rattle.srt_group_collecting.specs.Leaves.{Usable};
ghost use Rattle.srt_group_collecting.specs.Follows.{Follows};
ghost use Rattle.srt_group_collecting.specs.Collect.{receive_of, Holdable, Retained, broken_by, Reported};
ghost use Rattle.srt_group_collecting.specs.Gather.{Shows, HeldVisit, Gathers, Empties};
ghost use Rattle.srt_group_collecting.specs.Visit.{freed_by_event, Collectable, Collected, Visits, Collects};

use cell_set::{CellSet, free};
use srt_connection_members::{
    account_at, poll_event_for_group_at, put_account_at, release_data_reservation_at, row, rows,
};
use srt_connection_queue::queue::LegPoll;
use srt_connection_queue::rows::member_id;
use srt_group_members::accounts;
use srt_group_members::collecting::in_turn;
use srt_group_members::promotion::promote_backup_member;
use srt_group_members::states::{BROKEN, is_backup, turn_at};
use srt_group_model::{Core, Event, Packet, Receiving, Waiting};
use srt_group_tables::{pending, waiting};
use srt_protocol::srt_packet::word_before;

// What a visit leaves: whether the visits may go on, since it took an event off a queue; the group's numbers, and what is left of the budget.
// Kept (2, 5): what several visits leave (`Gathered`) has no flag, since they have ended; a `Gathered` inside would be no plainer: the record is read after each visit, and each reading would name one field more.
#[derive(Clone, Copy)]
pub struct Visited {
    pub more: bool,
    pub core: Core,
    pub budget: u64,
}

// What visits until the queues are empty leave: whether they ended so.
// Kept (2, 5): no `Visited`, whose flag says the opposite, that an event was there; nor a `Gathered` inside, which is no plainer where the record alone is asked next.
#[derive(Clone, Copy)]
pub struct Emptied {
    pub emptied: bool,
    pub core: Core,
    pub budget: u64,
}

// What the visits of a poll leave.
// Kept (2): no `Visited`: these visits have ended, so a flag whether more may follow would say nothing.
#[derive(Clone, Copy)]
pub struct Gathered {
    pub core: Core,
    pub budget: u64,
}

// The visits of one loop, and the event polls of one data poll, at most.
pub const MAX_VISITS: usize = 64;

// The least kind of event that breaks its member: an error; behind it stands the disconnect.
const FIRST_BREAKING: u64 = 2;

// A flag's word.
// Kept (4): `u64::from` promises the byte of the bool, this the rules' `bit`: without it each caller would have to go from the one to the other, which is no plainer.
#[tactic(auto, using(crate::specs::Laws::Gather::word_of_flag))]
pub fn flag(set: bool) -> u64
    ensures { result ≡ bit set }
{
    u64::from(set)
}

// ---- a packet is held or discarded

// Whether a sequence is before the base.
fn is_late(receiving: Receiving, sequence: u64) -> bool
    ensures { result ≡ (if_some flagged (is_set receiving.based) receiving.base
        give (λ base. sequence_before sequence base) otherwise false) }
{
    receiving
        .base()
        .is_some_and(|base| word_before(sequence, base))
}

// The count of a packet that is held for a member is added to its sum.
fn reserve_at(members: &mut [u64], index: usize, count: u64)
    requires has_row { HasRow index members.old }
    requires fits { Fits (reserve count (member_at members.old index).membership.account) }
    ensures { Changed index (on_account (reserve count))
        members.old members.new }
{
    let account = accounts::reserve_packet(account_at(members, index), count);
    put_account_at(members, index, account);
}

// Whether the packet of a sequence is held already.
// Kept (6): held packets are an index ring and rows by their cells, so that no count cuts a slice of the table.
#[tactic(auto, using(srt_group_members::specs::Laws::Scan::any_found))]
pub fn is_held(pending: &[u64], held: usize, sequence: u64) -> bool
    requires pending_size_in_bounds { (pending_size ≤ length pending.now) × (held ≤ max_pending) }
    requires pending_value { ascends (packets held pending.now) ≡ true }
    ensures { result ≡ is_held sequence (packets held pending.now) }
{
    pending::find(pending, held, sequence).is_some()
}

// A packet is discarded if it is late or its sequence is held.
#[tactic(auto, using(crate::specs::Laws::Collect::discarded_late, crate::specs::Laws::Collect::discarded_if_held))]
fn is_discarded(core: Core, pending: &[u64], packet: Packet) -> bool
    requires pending_size_in_bounds { (pending_size ≤ length pending.now) × (core.counts.pending ≤ max_pending) }
    requires pending_value { ascends (packets core.counts.pending pending.now) ≡ true }
    ensures { result ≡ is_discarded packet (receive_of core pending.now) }
{
    let sequence = packet.content.sequence;
    is_late(core.receiving, sequence) || is_held(pending, core.counts.pending, sequence)
}

// The packet of the member at an index is held, and its reservation with it, or discarded, and the leg released.
#[tactic(auto, using(crate::specs::Laws::Collect::discarded, crate::specs::Laws::Collect::held, crate::specs::Laws::Collect::not_held, crate::specs::Laws::Used::held_kept))]
fn retain_group_packet(
    mut core: Core,
    members: &mut [u64],
    pending: &mut [u64],
    used: &mut CellSet,
    index: usize,
    packet: Packet,
) -> Core
    requires has_row { HasRow index members.old }
    requires holdable { Holdable core.counts.pending pending.old packet (member_at members.old index) }
    ensures retained { Retained index packet core members.old pending.old
        result members.new pending.new }
    ensures freed { Freed (freed_by packet (receive_of core pending.old))
        used.old used.new }
{
    let content = packet.content;
    if is_discarded(core, pending, packet) {
        release_data_reservation_at(members, index, content.count);
        free(used, content.cell as usize);
        return core;
    }
    pending::insert(pending, core.counts.pending, packet);
    reserve_at(members, index, content.count);
    core.counts.pending += 1;
    core
}

// ---- an event is reported

// An error or a disconnect breaks its member and, in Backup, promotes another, even if one is Active.
// Kept (1): a kind is a word of the lent row and of the lent waiting events, asked only whether it is data and whether it breaks the member; an enum would be made of the word for each question.
#[tactic(auto, using(crate::specs::Laws::Collect::not_broken, crate::specs::Laws::Collect::broken_alone, crate::specs::Laws::Collect::broken_promoted))]
fn break_member(members: &mut [u64], count: usize, mode: u64, kind: u64, index: usize)
    requires { (HasRow index members.old) × (count * row_size ≤ length members.old) }
    ensures { Became count (broken_by mode kind index (members_of count members.old))
        members.old members.new }
{
    if kind < FIRST_BREAKING {
        return;
    }
    turn_at(members, index, BROKEN);
    if !is_backup(mode) {
        return;
    }
    promote_backup_member(members, count);
}

// An event that is no data waits to be given.
#[tactic(auto, using(crate::specs::Laws::Collect::reported))]
fn report_event(
    mut core: Core,
    members: &mut [u64],
    waiting: &mut [u64],
    index: usize,
    event: Waiting,
) -> Core
    requires has_row { (HasRow index members.old) × (core.counts.members * row_size ≤ length members.old) }
    requires waiting_size_in_bounds { (waiting_size ≤ length waiting.old) × (core.counts.waiting < max_waiting) }
    ensures { Reported index event core members.old waiting.old
        result members.new waiting.new }
{
    break_member(members, core.counts.members, core.mode, event.kind, index);
    waiting::push_back(waiting, core.counts.waiting, event);
    core.counts.waiting += 1;
    core
}

// ---- one event of the legs, in turn

// The round goes on behind the member at an index.
fn turn_past(mut core: Core, index: usize) -> Core
    requires { (index < core.counts.members) × (core.counts.members ≤ max_members) }
    ensures { result ≡ with_next ((index + 1) % core.counts.members) core }
{
    core.visit.round = (index + 1) % core.counts.members;
    core
}

fn ask_to_continue(mut core: Core) -> Core
    ensures { result ≡ continued 1 core }
{
    core.visit.continuation = 1;
    core
}

// The event of the member at an index: a packet is held or discarded, another event waits.
fn collect_member_event(
    core: Core,
    members: &mut [u64],
    pending: &mut [u64],
    waiting: &mut [u64],
    used: &mut CellSet,
    index: usize,
    id: u64,
    event: Event,
) -> Core
    requires { Collectable index id event core (receive_tables members.old pending.old waiting.old) }
    ensures collected { Collected index id event core
        (receive_tables members.old pending.old waiting.old) result
        (receive_tables members.new pending.new waiting.new) }
    ensures freed { Freed (freed_by_event id event (receive_of core pending.old))
        used.old used.new }
{
    if event.is_data() {
        let packet = Packet {
            member: id,
            owned: 0,
            content: event.content,
        };
        return retain_group_packet(core, members, pending, used, index, packet);
    }
    let reported = Waiting {
        member: id,
        kind: event.kind,
        reason: event.reason,
    };
    report_event(core, members, waiting, index, reported)
}

// The front event of the member at an index. With the budget spent it stays, and the continuation is asked for.
fn take_front(
    core: Core,
    members: &mut [u64],
    pending: &mut [u64],
    waiting: &mut [u64],
    used: &mut CellSet,
    index: usize,
    budget: u64,
) -> Visited
    requires usable { Usable core (receive_tables members.old pending.old waiting.old) }
    requires index_lt_members { (index < core.counts.members) × (core.counts.waiting < max_waiting) }
    ensures visits { Visits (core.counts.waiting + 1) (take_front index (member_at members.old index)) core budget
        (receive_tables members.old pending.old waiting.old) result
        (receive_tables members.new pending.new waiting.new) }
    ensures follows { Follows core members.old pending.old used.old
        result.core members.new pending.new used.new }
{
    let id = member_id(row(members, index));
    match poll_event_for_group_at(members, index, budget) {
        LegPoll::Nothing => Visited {
            more: false,
            core,
            budget,
        },
        LegPoll::Continuation => {
            let next = ask_to_continue(turn_past(core, index));
            Visited {
                more: false,
                core: next,
                budget: 0,
            }
        }
        LegPoll::Event {
            event,
            budget: left,
        } => {
            let next = turn_past(core, index);
            let after = collect_member_event(
                next, members, pending, waiting, used, index, id, event,
            );
            Visited {
                more: true,
                core: after,
                budget: left,
            }
        }
    }
}

// One event of the legs: of the first member in turn that has one.
#[tactic(auto, using(crate::specs::Laws::Turn::in_turn_inside))]
pub fn collect_one_event(
    core: Core,
    members: &mut [u64],
    pending: &mut [u64],
    waiting: &mut [u64],
    used: &mut CellSet,
    budget: u64,
) -> Visited
    requires usable { Usable core (receive_tables members.old pending.old waiting.old) }
    requires waiting_lt_max_waiting { core.counts.waiting < max_waiting }
    ensures collects { Collects (core.counts.waiting + 1) collect_one_event core budget
        (receive_tables members.old pending.old waiting.old) result
        (receive_tables members.new pending.new waiting.new) }
    ensures follows { Follows core members.old pending.old used.old
        result.core members.new pending.new used.new }
{
    let found = in_turn(rows(members, core.counts.members), core.visit.round);
    let Some(index) = found else {
        return Visited {
            more: false,
            core,
            budget,
        };
    };
    take_front(core, members, pending, waiting, used, index, budget)
}

// ---- visits until there is something to give

// A packet is held, an event waits, or the continuation is asked for.
#[tactic(auto, using(crate::specs::Laws::Gather::pends_held, crate::specs::Laws::Gather::pends_waiting, crate::specs::Laws::Gather::pends_continuing))]
pub fn has_pending_data(core: Core) -> bool
    ensures { Shows has_pending_data core result }
{
    0 < core.counts.pending || 0 < core.counts.waiting || core.visit.continuation != 0
}

// The continuation is asked for as well.
#[tactic(auto, using(crate::specs::Laws::Gather::asked_as_well, crate::specs::Laws::Gather::not_asked))]
fn or_continue(core: Core, asked: bool) -> Core
    requires { core.visit.continuation ≤ 1 }
    ensures { result ≡ continued (bit (is_set core.visit.continuation || asked)) core }
{
    if asked {
        return ask_to_continue(core);
    }
    core
}

// No visit is left, and nothing is held.
fn ends_with_none_held(visits: usize, held: usize) -> bool
    ensures { result ≡ (eqb visits 0 && eqb held 0) }
{
    visits == 0 && held == 0
}

// One visit, unless an event waits, with so many left behind it.
#[tactic(auto, using(crate::specs::Laws::Gather::held_waits, crate::specs::Laws::Used::follows_continued))]
fn visit_until_held(
    before: Visited,
    members: &mut [u64],
    pending: &mut [u64],
    waiting: &mut [u64],
    used: &mut CellSet,
    visits: usize,
) -> Visited
    requires { Usable before.core (receive_tables members.old pending.old waiting.old) }
    ensures held_visit { HeldVisit visits before
        (receive_tables members.old pending.old waiting.old) result
        (receive_tables members.new pending.new waiting.new) }
    ensures follows { Follows before.core members.old pending.old used.old
        result.core members.new pending.new used.new }
{
    let here = before.core;
    if 0 < here.counts.waiting {
        return Visited {
            more: false,
            ..before
        };
    }
    let visited = collect_one_event(here, members, pending, waiting, used, before.budget);
    if !visited.more {
        return visited;
    }
    let collected = visited.core;
    let asked = ends_with_none_held(visits, collected.counts.pending);
    let after = or_continue(collected, asked);
    Visited {
        more: !has_pending_data(after),
        core: after,
        budget: visited.budget,
    }
}

// Visits until there is something to give or no event is left; none while an event waits. After the last of them with nothing
// held the continuation is asked for.
#[tactic(auto, using(crate::specs::Laws::Gather::holding_start, crate::specs::Laws::Follows::follows_same))]
pub fn collect_until_held(
    core: Core,
    members: &mut [u64],
    pending: &mut [u64],
    waiting: &mut [u64],
    used: &mut CellSet,
    budget: u64,
) -> Gathered
    requires { Usable core (receive_tables members.old pending.old waiting.old) }
    ensures gathers { Gathers core budget
        (receive_tables members.old pending.old waiting.old) result
        (receive_tables members.new pending.new waiting.new) }
    ensures follows { Follows core members.old pending.old used.old
        result.core members.new pending.new used.new }
{
    let mut visited = Visited {
        more: true,
        core,
        budget,
    };
    for left in (0..MAX_VISITS).rev() {
        visited = visit_until_held(visited, members, pending, waiting, used, left);
        if !visited.more {
            break;
        }
    }
    Gathered {
        core: visited.core,
        budget: visited.budget,
    }
}

// ---- visits until a sequence is held or every queue is empty

// The continuation is asked for, or the sequence is held.
fn is_settled(core: Core, pending: &[u64], sequence: u64) -> bool
    requires pending_size_in_bounds { (pending_size ≤ length pending.now) × (core.counts.pending ≤ max_pending) }
    requires pending_value { ascends (packets core.counts.pending pending.now) ≡ true }
    ensures { result ≡ (is_set core.visit.continuation
        || is_held sequence (packets core.counts.pending pending.now)) }
{
    core.visit.continuation != 0 || is_held(pending, core.counts.pending, sequence)
}

// Visits until the sequence is held, the continuation is asked for or every queue is empty. Only where the queues ended
// empty is a gap skipped.
// Kept (2): it shares one call with `collect_until_held`: what ends it is asked before a visit, there after one, and each has a last question of its own; closures for these are longer than the loop.
#[tactic(auto, using(crate::specs::Laws::Gather::emptying_start, crate::specs::Laws::Follows::follows_same))]
pub fn collect_until_empty(
    core: Core,
    members: &mut [u64],
    pending: &mut [u64],
    waiting: &mut [u64],
    used: &mut CellSet,
    budget: u64,
    sequence: u64,
) -> Emptied
    requires usable { Usable core (receive_tables members.old pending.old waiting.old) }
    requires waiting_value { core.counts.waiting ≡ 0 }
    ensures empties { Empties sequence core budget
        (receive_tables members.old pending.old waiting.old) result
        (receive_tables members.new pending.new waiting.new) }
    ensures follows { Follows core members.old pending.old used.old
        result.core members.new pending.new used.new }
{
    let mut visited = Visited {
        more: false,
        core,
        budget,
    };
    for _visit in 0..MAX_VISITS {
        let here = visited.core;
        if is_settled(here, pending, sequence) {
            return Emptied {
                emptied: false,
                core: here,
                budget: visited.budget,
            };
        }
        visited = collect_one_event(here, members, pending, waiting, used, visited.budget);
        if !visited.more {
            return Emptied {
                emptied: visited.core.visit.continuation == 0,
                core: visited.core,
                budget: visited.budget,
            };
        }
    }
    let here = visited.core;
    let held = is_held(pending, here.counts.pending, sequence);
    let after = or_continue(here, !held);
    Emptied {
        emptied: false,
        core: after,
        budget: visited.budget,
    }
}
