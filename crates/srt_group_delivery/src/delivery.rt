// The give-up test, delivery and the skip: a packet at the base is given, its run passed, and what the run covers released; a gap
// is passed over once the leg of the nearest held packet gives up on it.
// Kept (5, 6): a step that moves tables takes them one beside the other: a struct of `&mut` asks for loans that a call does not need, and for a clause to each field, that its slice is still the caller's (tried); what holds of them is one fact, `Deliverable`.
// Kept (5): what goes by value beside them is the group's record, which a step gives back, and the one or two numbers that this step is about; a struct of those would be made for a single call and is no plainer.
ghost use Rattle.std.specs.Prelude.{◌≡◌, List, [], ◌∷◌, ℕ, ◌+◌, ◌-◌, ◌*◌, ◌≤◌, ◌<◌, min, length};
ghost use Rattle.srt_protocol.specs.Sequence.{sequence_distance};
ghost use Rattle.srt_group_model.specs.Legs.{largest_64};
ghost use Rattle.srt_group_model.specs.Delivery.{leg_gives_up, gap_given_up, deliver, give_waiting};
ghost use Rattle.srt_group_model.specs.Tools.{is_set, flagged};
ghost use Rattle.srt_connection_members.specs.Members.{members_in, HasRow, Changed};
ghost use Rattle.srt_connection_queue.specs.Rows.{row_size};
ghost use Rattle.srt_group_tables.specs.Packets.{pending_size, packet_at, packets_between};
ghost use Rattle.srt_group_tables.specs.Covered.{Within, packets_at};
ghost use Rattle.srt_group_tables.specs.Waitings.{waiting_size};
ghost use Rattle.srt_group_shown.specs.Shown.{Rest, shown};
ghost use Rattle.srt_group_shown.specs.Tables.{receive_tables};
ghost use Rattle.cell_set.specs.Sets.{Freed};
ghost use Rattle.srt_group_model.specs.Sound.{pending_cells};
ghost use Rattle.srt_group_model.specs.Validity.{max_waiting, max_pending};
ghost use Rattle.srt_group_collecting.specs.Follows.{Follows};
ghost use Rattle.srt_group_delivery.specs.Delivery.{Deliverable, HeldAt, leg_given_up, release_member, Released, Delivered};
ghost use Rattle.srt_group_delivery.specs.Poll.{Polls, Skips, Bases};

use cell_set::{CellSet, free};
use srt_connection::legs;
use srt_connection_members::{
    account_at, advance_receive_sequence_of_all, find, put_account_at, release_data_reservation_at,
    rows,
};
use srt_connection_queue::rows::{Row, leg, member_id};
use srt_group_members::accounts;
use srt_group_members::states::all_disconnected;
use srt_group_model::{Core, Leg, Packet, Waiting};
use srt_group_tables::pending::Covered;
use srt_group_tables::{pending, waiting};
use srt_protocol::srt_packet::{word_distance, word_further};
use srt_protocol::time::Timestamp;

// What an event poll gives, if it gives anything. As in the Rust's `GroupEvent`, data stands beside the other events.
#[derive(Clone, Copy)]
pub enum GroupEvent {
    Event(Waiting),
    Packet(Packet),
}

// What is given, and the group's record after it.
#[derive(Clone, Copy)]
pub struct Poll {
    pub gave: Option<GroupEvent>,
    pub core: Core,
}

// ---- the give-up test

// Whether a leg has given up by a time on a packet of that source time.
fn leg_given_up(leg: Leg, source: Timestamp, time: Timestamp) -> bool
    ensures { result ≡ leg_given_up time.0 source.0 leg }
{
    legs::gives_up_at(leg, source).is_some_and(|moment| moment <= time)
}

// The leg of the packet's member gives up on it; where that member is gone, the first leg.
fn leg_gives_up(rows: &[Row], packet: Packet, time: Timestamp) -> bool
    ensures { result ≡ leg_gives_up time.0 packet (members_in rows.now) }
{
    let source = packet.content.source;
    rows.iter()
        .find(|row| member_id(row) == packet.member)
        .or(rows.first())
        .is_some_and(|row| leg_given_up(leg(row), source, time))
}

// A gap is given up if all legs are disconnected, or if the nearest held packet's leg gives up on it.
#[tactic(auto, using(crate::specs::Laws::Delivery::nothing_held, crate::specs::Laws::Delivery::all_gone))]
pub fn gap_given_up(core: Core, members: &[u64], pending: &[u64], time: Timestamp) -> bool
    requires { Deliverable core members.now pending.now }
    ensures { (others : Rest) (waiting : List ℕ)
        → result ≡ gap_given_up time.0 (shown core others members.now pending.now waiting) }
{
    let held = core.counts.pending;
    let nearest = pending::nearest(pending, held);
    let Some(at) = nearest else {
        return false;
    };
    let rows = rows(members, core.counts.members);
    if all_disconnected(rows) {
        return true;
    }
    let nearest_held = pending::packet(pending, at);
    leg_gives_up(rows, nearest_held, time)
}

// ---- reservations

// The member's sum and its leg's reservation fall by a count.
fn release_at(members: &mut [u64], index: usize, count: u64)
    requires { HasRow index members.old }
    ensures { Changed index (release_member count) members.old members.new }
{
    let account = accounts::release_packet(account_at(members, index), count);
    put_account_at(members, index, account);
    release_data_reservation_at(members, index, count);
}

// A packet's count goes off the group's own sum, or off its member's and its leg's; where that member is gone, off none.
#[tactic(auto, using(crate::specs::Laws::Delivery::released_own, crate::specs::Laws::Delivery::released_nowhere, crate::specs::Laws::Delivery::released_member, crate::specs::Laws::Delivery::found_has_row))]
fn release_pending_reservation(mut core: Core, members: &mut [u64], packet: Packet) -> Core
    requires { core.counts.members * row_size ≤ length members.old }
    ensures { Released (packet ∷ []) core members.old result members.new }
{
    let run = packet.content.count;
    if packet.is_owned() {
        core.own = accounts::release_packet(core.own, run);
        return core;
    }
    if let Some(index) = find(rows(members, core.counts.members), packet.member) {
        release_at(members, index, run);
    }
    core
}

// The packet at a place is released, and its cell with it.
fn release_held(
    core: Core,
    members: &mut [u64],
    pending: &[u64],
    used: &mut CellSet,
    at: usize,
) -> Core
    requires row_size_in_bounds { core.counts.members * row_size ≤ length members.old }
    requires pending_size_in_bounds { (pending_size ≤ length pending.now) × (at < max_pending) }
    ensures released { Released (packet_at pending.now at ∷ []) core members.old result members.new }
    ensures freed { Freed (pending_cells (packet_at pending.now at ∷ [])) used.old used.new }
{
    let packet = pending::packet(pending, at);
    let content = packet.content;
    free(used, content.cell as usize);
    release_pending_reservation(core, members, packet)
}

// The held packets from a place up to another are released, in their order.
fn release_range(
    mut core: Core,
    members: &mut [u64],
    pending: &[u64],
    used: &mut CellSet,
    from: usize,
    end: usize,
) -> Core
    requires row_size_in_bounds { core.counts.members * row_size ≤ length members.old }
    requires pending_size_in_bounds { (pending_size ≤ length pending.now) × (from ≤ end) × (end ≤ max_pending) }
    ensures released { Released (packets_between from end pending.now) core members.old result members.new }
    ensures freed { Freed (pending_cells (packets_between from end pending.now)) used.old used.new }
{
    // Kept (3): the places of a ring are no slice; in a chain a closure would hold what the loop changes, and an invariant of its calls say it: no plainer.
    for at in from..end {
        core = release_held(core, members, pending, used, at);
    }
    core
}

// The held packets that a run covers are released, in their order.
fn release_covered(
    core: Core,
    members: &mut [u64],
    pending: &[u64],
    used: &mut CellSet,
    covered: Covered,
) -> Core
    requires deliverable { Deliverable core members.old pending.now }
    requires within { Within core.counts.pending covered }
    ensures released { Released (packets_at covered pending.now) core members.old result members.new }
    ensures freed { Freed (pending_cells (packets_at covered pending.now)) used.old used.new }
{
    let begun = release_range(core, members, pending, used, 0, covered.low);
    release_range(begun, members, pending, used, covered.from, covered.end)
}

// ---- delivery

// The base passes the whole run of the packet there; held packets that start inside it vanish, and every leg records how far the
// group has come.
fn deliver_packet(
    core: Core,
    members: &mut [u64],
    pending: &mut [u64],
    used: &mut CellSet,
    base: u64,
    at: usize,
    packet: Packet,
) -> Core
    requires deliverable { Deliverable core members.old pending.old }
    requires held_at { HeldAt pending.old core.counts.pending base at }
    ensures delivered { Delivered base packet core members.old pending.old
        result members.new pending.new }
    ensures follows { Follows core members.old pending.old used.old
        result members.new pending.new used.new }
{
    let run = packet.content.count;
    let held = core.counts.pending;
    let covered = pending::covered_places(pending, held, at, base, run);
    let mut after = release_covered(core, members, pending, used, covered);
    let next = word_further(base, run);
    let count = after.counts.members;
    advance_receive_sequence_of_all(members, count, next);
    let left = pending::remove_covered(pending, held, covered);
    after.counts.pending = left;
    after.receiving.set_base(next);
    after
}

// The packet at the base, if it is held, is delivered.
#[tactic(auto, using(crate::specs::Laws::Poll::found_in_table, srt_group_collecting::specs::Laws::Follows::follows_same))]
pub fn deliver(
    core: Core,
    members: &mut [u64],
    pending: &mut [u64],
    used: &mut CellSet,
    base: u64,
) -> Poll
    requires { Deliverable core members.old pending.old }
    ensures by_index { (waiting : List ℕ) → Polls (deliver base) core
        (receive_tables members.old pending.old waiting) result
        (receive_tables members.new pending.new waiting) }
    ensures follows { Follows core members.old pending.old used.old
        result.core members.new pending.new used.new }
{
    let held = core.counts.pending;
    let found = pending::find(pending, held, base);
    let Some(at) = found else {
        return Poll { gave: None, core };
    };
    let packet = pending::packet(pending, at);
    let after = deliver_packet(core, members, pending, used, base, at, packet);
    Poll {
        gave: Some(GroupEvent::Packet(packet)),
        core: after,
    }
}

// ---- the polls and the skip

// The first waiting event, if there is one, is given.
pub fn give_waiting(mut core: Core, waiting: &mut [u64]) -> Poll
    requires { (waiting_size ≤ length waiting.old) × (core.counts.waiting ≤ max_waiting) }
    ensures { (members pending : List ℕ) → Polls give_waiting core
        (receive_tables members pending waiting.old) result
        (receive_tables members pending waiting.new) }
{
    let waits = core.counts.waiting;
    if waits == 0 {
        return Poll { gave: None, core };
    }
    let event = waiting::waiting_event(waiting, 0);
    waiting::pop_front(waiting, waits);
    core.counts.waiting = waits - 1;
    Poll {
        gave: Some(GroupEvent::Event(event)),
        core,
    }
}

// The skipped total, once the base has gone from `base` ahead to `next`.
fn skipped_after(skipped: u64, base: u64, next: u64) -> u64
    ensures { result ≡ min (skipped + sequence_distance base next) largest_64 }
{
    skipped.saturating_add(word_distance(base, next))
}

// The base goes from `base` ahead to `next`, and the skipped total rises by the distance.
pub fn skip_to(mut core: Core, base: u64, next: u64) -> Core
    ensures { Skips base next core result }
{
    core.receiving.skipped = skipped_after(core.receiving.skipped, base, next);
    core.receiving.set_base(next);
    core
}

// The base is set, if one is given and none was set.
pub fn set_base(mut core: Core, base: Option<u64>) -> Core
    ensures { Bases base core result }
{
    if core.receiving.base().is_some() {
        return core;
    }
    let Some(base) = base else {
        return core;
    };
    core.receiving.set_base(base);
    core
}
