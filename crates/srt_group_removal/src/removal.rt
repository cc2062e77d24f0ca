// A member is taken out, and its leg given back.
// Kept (5): the core goes by value, and the tables are lent to change: a struct of `&mut` fields needs a clause for each of them (docs/DECISIONS.md).
ghost use Rattle.std.specs.Prelude.{◌≡◌, ◌-◌, min};
ghost use Rattle.srt_group_collecting.specs.Follows.{Follows};
ghost use Rattle.srt_group_removal.specs.Removal.{Removable, TakesOut, Removes};

use crate::queue::free_queue;
use crate::retirement::{bound_group_owned_pending, retirement_base};
use cell_set::CellSet;
use srt_connection_members::{membership_at, row, rows};
use srt_group_members::accounts;
use srt_group_members::removal::largest_window;
use srt_group_model::{Core, Leg};
use srt_group_tables::pending;

// The group's record after a removal, and the leg that is given back: an `SrtConnection` in the Rust.
#[derive(Clone, Copy)]
pub struct Removed {
    pub core: Core,
    pub leg: Leg,
}

// The round's place, lowered to the last of those that are left.
fn lowered(round: usize, left: usize) -> usize
    ensures { result ≡ min round (left - 1) }
{
    round.min(left.saturating_sub(1))
}

// The member at the index goes, with its queue, whose cells are free; its held packets become the group's own.
#[tactic(auto, using(crate::specs::Laws::Removal::taken_all))]
fn take_out(
    mut core: Core,
    members: &mut [u64],
    pending: &mut [u64],
    used: &mut CellSet,
    index: usize,
) -> Core
    requires { Removable index core members.old pending.old }
    ensures takes_out { TakesOut index core members.old pending.old
        result members.new pending.new }
    ensures follows { Follows core members.old pending.old used.old
        result members.new pending.new used.new }
{
    free_queue(row(members, index), used);
    let membership = membership_at(members, index);
    pending::own_packets(pending, core.counts.pending, membership.id);
    srt_connection_members::remove_member(members, core.counts.members, index);
    core.counts.members -= 1;
    core.visit.round = lowered(core.visit.round, core.counts.members);
    core.own = accounts::add_account(membership.account, core.own);
    core
}

// The member at the index is removed. What the group then holds itself beyond the largest receive window, the removed leg's
// included, is retired; the leg is given back with no reservation.
pub fn remove_member_at(
    core: Core,
    members: &mut [u64],
    pending: &mut [u64],
    used: &mut CellSet,
    index: usize,
) -> Removed
    requires { Removable index core members.old pending.old }
    ensures removes { Removes index core members.old pending.old
        result members.new pending.new }
    ensures follows { Follows core members.old pending.old used.old
        result.core members.new pending.new used.new }
{
    let mut leg = srt_connection_members::leg_at(members, index);
    let window = leg.receiver.window;
    let taken = take_out(core, members, pending, used, index);
    let left = taken.counts.members;
    let limit = largest_window(rows(members, left), window);
    let base = retirement_base(taken, pending);
    let after = bound_group_owned_pending(taken, pending, used, limit, base);
    leg.receiver.reserved = 0;
    Removed { core: after, leg }
}
