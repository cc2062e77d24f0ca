// The refresh of the members' states: members that arrived are admitted, which may set the base and bind the group; then Pending
// members settle, and Unstable ones requalify. Where a refresh would change nothing none of this is gone through. From the Rust's
// `admit_connected_peer_groups`, `refresh_pending_states`, `refresh_states`.
// Kept (5): of core, sending and members a refresh changes the first and the last and gives the first back, so a struct of the three would be made and taken apart again in each poll.
ghost use Rattle.std.specs.Prelude.{◌≡◌, ◌*◌, ◌≤◌, length};
ghost use Rattle.srt_group_model.specs.Tools.{is_set, flagged};
ghost use Rattle.srt_group_model.specs.Run.{admit_connected_peer_groups, refresh_pending_states, refresh_states};
ghost use Rattle.srt_connection_queue.specs.Rows.{row_size};
ghost use Rattle.srt_group_collecting.specs.Leaves.{every, sends};
ghost use Rattle.srt_group_polls.specs.Refresh.{Refreshes};

use srt_connection_members::rows;
use srt_group_delivery::delivery::set_base;
use srt_group_members::quiet::is_quiet;
use srt_group_members::refresh::Refresh;
use srt_group_members::{admission, refresh};
use srt_group_model::{Core, Sending};

// Members whose handshake completed are admitted; the first of them may set the base, and bind the group to its peer group.
fn admit_connected_peer_groups(core: Core, members: &mut [u64]) -> Core
    requires { core.counts.members * row_size ≤ length members.old }
    ensures { Refreshes every admit_connected_peer_groups core members.old result members.new }
{
    let count = core.counts.members;
    let admission = admission::admit_connected_peer_groups(members, count, core.peer);
    let mut after = set_base(core, admission.base);
    after.peer = admission.peer;
    after
}

// What a refresh is told of the group: its mode, and the number of the next packet.
fn told(core: Core, sending: Sending) -> Refresh
    ensures { (result.mode ≡ core.mode) × (result.number ≡ flagged (is_set sending.numbered) sending.next) }
{
    Refresh {
        mode: core.mode,
        number: sending.next_send_sequence(),
    }
}

// Members are admitted, and Pending ones that connected settle.
pub fn refresh_pending_states(core: Core, sending: Sending, members: &mut [u64]) -> Core
    requires { core.counts.members * row_size ≤ length members.old }
    ensures { Refreshes (sends sending) refresh_pending_states core
        members.old result members.new }
{
    let after = admit_connected_peer_groups(core, members);
    let count = after.counts.members;
    refresh::settle_members(members, count, told(after, sending));
    after
}

// And members whose leg is disconnected turn Broken, and Unstable ones that can send again requalify.
pub fn refresh_all_states(core: Core, sending: Sending, members: &mut [u64]) -> Core
    requires { core.counts.members * row_size ≤ length members.old }
    ensures { Refreshes (sends sending) refresh_states core
        members.old result members.new }
{
    let after = refresh_pending_states(core, sending, members);
    let count = after.counts.members;
    refresh::requalify_members(members, count, told(after, sending));
    after
}

// The same, left out where it would change nothing.
pub fn refresh_states(core: Core, sending: Sending, members: &mut [u64]) -> Core
    requires { core.counts.members * row_size ≤ length members.old }
    ensures { Refreshes (sends sending) refresh_states core
        members.old result members.new }
{
    if is_quiet(rows(members, core.counts.members), core.mode) {
        return core;
    }
    refresh_all_states(core, sending, members)
}
