// Retirement: while the counts of the group's own packets exceed a limit, the one farthest ahead of a base is retired.
// Kept (5): `Held` is of the core, which goes by value, and of the table lent to change: a struct of both needs a clause for the table (docs/DECISIONS.md).
ghost use Rattle.std.specs.Prelude.{◌≡◌, List, ℕ, ◌≤◌, ◌<◌};
ghost use Rattle.srt_group_model.specs.Legs.{largest_sequence};
ghost use Rattle.srt_group_model.specs.Removal.{bound_group_owned_pending, retirement_base};
ghost use Rattle.srt_group_tables.specs.Packets.{packet_at};
ghost use Rattle.srt_group_shown.specs.Shown.{Rest, shown};
ghost use Rattle.srt_group_removal.specs.Retire.{Held, Retires, Retired, FollowsHeld, is_reached, Reachable, RetiresDownward};

use cell_set::{CellSet, free};
use srt_group_members::accounts;
use srt_group_model::{Core, Packet};
use srt_group_tables::pending;

// The packet at a place is taken out: its cell is free, and the group's own sum falls by its count.
#[tactic(auto, using(crate::specs::Laws::Retire::retired_one))]
fn retire_at(mut core: Core, pending: &mut [u64], used: &mut CellSet, at: usize) -> Core
    requires held { Held core pending.old }
    requires at_lt_pending { at < core.counts.pending }
    ensures retired { Retired (packet_at pending.old at) core pending.old
        result pending.new }
    ensures follows_held { FollowsHeld core pending.old used.old
        result pending.new used.new }
{
    let packet = pending::packet(pending, at);
    let content = packet.content;
    let held = core.counts.pending;
    pending::remove(pending, held, at);
    free(used, content.cell as usize);
    let own = accounts::release_packet(core.own, content.count);
    let left = held - 1;
    core.counts.pending = left;
    core.own = own;
    core
}

// Whether a packet is the group's own and in a walk's reach: of all packets, or of those below the base.
// Kept (1): what either walk promises is of the base, from which the farthest is told: an option, `None` for all, would leave it unsaid there.
#[tactic(auto, unfolding(crate::specs::Retire::is_reached))]
fn is_reached(packet: Packet, base: u64, all: bool) -> bool
    ensures { result ≡ is_reached base all packet }
{
    packet.is_owned() & (all | (packet.content.sequence < base))
}

// One walk from the highest held packet down: while the sum of the group's own exceeds the limit, each that is reached is retired. It is
// the farthest then: below the base the distance grows with the sequence, and so it does from the base on.
fn retire_downward(
    mut core: Core,
    pending: &mut [u64],
    used: &mut CellSet,
    limit: u64,
    base: u64,
    all: bool,
) -> Core
    requires held { Held core pending.old }
    requires reachable { Reachable limit base all core pending.old }
    ensures retires_downward { RetiresDownward limit base all core pending.old result pending.new }
    ensures follows_held { FollowsHeld core pending.old used.old
        result pending.new used.new }
{
    // Kept (3): the places of a ring are no slice; in a chain a closure would hold what the loop changes, and an invariant of its calls say it: no plainer.
    for at in (0..core.counts.pending).rev() {
        if core.own.reserved <= limit {
            return core;
        }
        let packet = pending::packet(pending, at);
        if is_reached(packet, base, all) {
            core = retire_at(core, pending, used, at);
        }
    }
    core
}

// While the sum of the group's own exceeds the limit, the one farthest ahead of the base is retired: first those below the base, which
// lie beyond the wrap, and then those from it on.
pub fn bound_group_owned_pending(
    core: Core,
    pending: &mut [u64],
    used: &mut CellSet,
    limit: u64,
    base: u64,
) -> Core
    requires held { Held core pending.old }
    requires base_le_largest_sequence { base ≤ largest_sequence }
    ensures retires { Retires (bound_group_owned_pending core.counts.pending limit base) core pending.old
        result pending.new }
    ensures follows_held { FollowsHeld core pending.old used.old
        result pending.new used.new }
{
    let wrapped = retire_downward(core, pending, used, limit, base, false);
    retire_downward(wrapped, pending, used, limit, base, true)
}

// Where distances are taken from: the base; while none is set, the nearest held packet.
#[tactic(auto, using(crate::specs::Laws::Retire::based_there, crate::specs::Laws::Retire::based_nowhere, crate::specs::Laws::Retire::based_nearest, crate::specs::Laws::Retire::based_upper, crate::specs::Laws::Retire::based_low, srt_group_tables::specs::Laws::PacketLaws::at_in_use))]
pub fn retirement_base(core: Core, pending: &[u64]) -> u64
    requires { Held core pending.now }
    ensures value { (others : Rest) (members waiting : List ℕ)
        → result ≡ retirement_base (shown core others members pending.now waiting) }
    ensures upper_bound { result ≤ largest_sequence }
{
    if let Some(base) = core.receiving.base() {
        return base;
    }
    let held = core.counts.pending;
    pending::nearest(pending, held).map_or(0, |at| pending::sequence_at(pending, at))
}
