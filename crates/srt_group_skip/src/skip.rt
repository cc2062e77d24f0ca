// The skip: when a missing packet is passed over for good. A gap is skipped once it is given up and every queue was found empty.
// Kept (5, 6): a step that moves tables takes them one beside the other: a struct of `&mut` asks for loans that a call does not need, and for a clause to each field, that its slice is still the caller's (tried); what holds of them is one fact, `Usable` or `Deliverable`.
// Kept (5): what goes by value beside them is the group's record, which a step gives back, and the one or two numbers that this step is about; a struct of those would be made for a single call and is no plainer.
// Kept (1): the record's flag of the continuation is asked as the word that it is, as the definitions ask it.
ghost use Rattle.std.specs.Prelude.{◌≡◌, List, ℕ, length};
ghost use Rattle.srt_group_model.specs.State.{State};
ghost use Rattle.srt_group_model.specs.Delivery.{skip_nearest, skip_after, base_stays, skip_given_up_gap};
ghost use Rattle.srt_group_model.specs.Polls.{deliver_nearest, deliver_next};
ghost use Rattle.srt_group_shown.specs.Shown.{Rest, shown};
ghost use Rattle.srt_group_shown.specs.Tables.{receive_tables};
ghost use Rattle.srt_group_collecting.specs.Leaves.{every, Usable};
ghost use Rattle.srt_group_delivery.specs.Delivery.{Deliverable};
ghost use Rattle.srt_group_collecting.specs.Follows.{Follows};
ghost use Rattle.srt_group_delivery.specs.Poll.{Polls};
ghost use Rattle.srt_group_skip.specs.Skip.{PollsFrom};

use cell_set::CellSet;
use srt_group_collecting::collecting::{Emptied, collect_until_empty, is_held};
use srt_group_delivery::delivery::{Poll, deliver, gap_given_up, give_waiting, set_base, skip_to};
use srt_group_model::Core;
use srt_group_tables::pending;
use srt_protocol::time::Timestamp;

// ---- the skip

// The nearest held packet becomes the base, the distance counts as skipped, and the packet is delivered.
#[tactic(auto, using(srt_group_collecting::specs::Laws::Follows::follows_same))]
fn skip_to_nearest(
    core: Core,
    members: &mut [u64],
    pending: &mut [u64],
    used: &mut CellSet,
    base: u64,
) -> Poll
    requires { Deliverable core members.old pending.old }
    ensures by_index { (waiting : List ℕ) (tested : State) (time : ℕ) → Polls (skip_nearest tested time base) core
        (receive_tables members.old pending.old waiting) result
        (receive_tables members.new pending.new waiting) }
    ensures follows { Follows core members.old pending.old used.old
        result.core members.new pending.new used.new }
{
    let held = core.counts.pending;
    let nearest = pending::nearest(pending, held);
    let Some(at) = nearest else {
        return Poll { gave: None, core };
    };
    let next = pending::sequence_at(pending, at);
    let skipped = skip_to(core, base, next);
    deliver(skipped, members, pending, used, next)
}

// What is given after the queues were collected: a waiting event first. The gap is skipped only if they ended empty.
#[tactic(auto, using(srt_group_delivery::specs::Laws::Delivery::deliverable))]
fn skip_after(
    collected: Emptied,
    members: &mut [u64],
    pending: &mut [u64],
    waiting: &mut [u64],
    used: &mut CellSet,
    base: u64,
) -> Poll
    requires { Usable collected.core (receive_tables members.old pending.old waiting.old) }
    ensures polls { (tested : State) (time : ℕ) → Polls
        (λ run. skip_after time tested base (record { emptied = collected.emptied; run = run })) collected.core
        (receive_tables members.old pending.old waiting.old) result
        (receive_tables members.new pending.new waiting.new) }
    ensures follows { Follows collected.core members.old pending.old used.old
        result.core members.new pending.new used.new }
{
    let core = collected.core;
    if 0 < core.counts.waiting {
        return give_waiting(core, waiting);
    }
    if collected.emptied {
        return skip_to_nearest(core, members, pending, used, base);
    }
    deliver(core, members, pending, used, base)
}

// The base stays where it is if it is held, if the continuation is asked for, or while the gap is not given up.
#[tactic(auto, using(crate::specs::Laws::Skip::stays_held, crate::specs::Laws::Skip::stays_continuing, crate::specs::Laws::Skip::stays_until_given_up))]
fn base_stays(core: Core, members: &[u64], pending: &[u64], time: Timestamp, base: u64) -> bool
    requires { Deliverable core members.now pending.now }
    ensures { (others : Rest) (waiting : List ℕ)
        → result ≡ base_stays time.0 base (shown core others members.now pending.now waiting) }
{
    is_held(pending, core.counts.pending, base)
        || core.visit.continuation != 0
        || !gap_given_up(core, members, pending, time)
}

// The give-up test is made once, before the queues are collected: what they bring does not take it back.
#[tactic(auto, using(srt_group_delivery::specs::Laws::Delivery::deliverable))]
fn skip_given_up_gap(
    core: Core,
    members: &mut [u64],
    pending: &mut [u64],
    waiting: &mut [u64],
    used: &mut CellSet,
    time: Timestamp,
    base: u64,
    budget: u64,
) -> Poll
    requires usable { Usable core (receive_tables members.old pending.old waiting.old) }
    requires waiting_value { core.counts.waiting ≡ 0 }
    ensures polls_from { PollsFrom every (skip_given_up_gap time.0 base) core budget
        (receive_tables members.old pending.old waiting.old) result
        (receive_tables members.new pending.new waiting.new) }
    ensures follows { Follows core members.old pending.old used.old
        result.core members.new pending.new used.new }
{
    if base_stays(core, members, pending, time, base) {
        return deliver(core, members, pending, used, base);
    }
    let collected = collect_until_empty(core, members, pending, waiting, used, budget, base);
    skip_after(collected, members, pending, waiting, used, base)
}

// ---- the packet at the base

// The nearest held packet sets the base, and is delivered.
// Kept (2): `skip_to_nearest` counts the distance from the old base, and here there is none: one function for both would ask again which it is, as `deliver_next` has just done, and is no plainer.
#[tactic(auto, using(srt_group_collecting::specs::Laws::Follows::follows_same))]
fn deliver_nearest(core: Core, members: &mut [u64], pending: &mut [u64], used: &mut CellSet) -> Poll
    requires { Deliverable core members.old pending.old }
    ensures by_index { (waiting : List ℕ) → Polls deliver_nearest core
        (receive_tables members.old pending.old waiting) result
        (receive_tables members.new pending.new waiting) }
    ensures follows { Follows core members.old pending.old used.old
        result.core members.new pending.new used.new }
{
    let held = core.counts.pending;
    let nearest = pending::nearest(pending, held);
    let Some(at) = nearest else {
        return Poll { gave: None, core };
    };
    let first = pending::sequence_at(pending, at);
    let based = set_base(core, Some(first));
    deliver(based, members, pending, used, first)
}

// The packet at the base; while none is set, the nearest packet sets it.
#[tactic(auto, using(srt_group_delivery::specs::Laws::Delivery::deliverable))]
pub fn deliver_next(
    core: Core,
    members: &mut [u64],
    pending: &mut [u64],
    waiting: &mut [u64],
    used: &mut CellSet,
    time: Timestamp,
    budget: u64,
) -> Poll
    requires usable { Usable core (receive_tables members.old pending.old waiting.old) }
    requires waiting_value { core.counts.waiting ≡ 0 }
    ensures polls_from { PollsFrom every (deliver_next time.0) core budget
        (receive_tables members.old pending.old waiting.old) result
        (receive_tables members.new pending.new waiting.new) }
    ensures follows { Follows core members.old pending.old used.old
        result.core members.new pending.new used.new }
{
    match core.receiving.base() {
        Some(base) => {
            skip_given_up_gap(core, members, pending, waiting, used, time, base, budget)
        }
        None => deliver_nearest(core, members, pending, used),
    }
}
