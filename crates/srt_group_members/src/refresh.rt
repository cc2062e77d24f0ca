// The refresh of the members' states: what is left of `refresh_pending_states` and `refresh_states` after admission.
//
// Kept (3, 5, 6): a C host lends the members as words, with the count of rows in use; `as_chunks_mut` says nothing of what the words end as.
// Kept (1): the mode is the record's word, which a C host lends so that 6 can refuse it; an enum of two modes says what `is_backup` says, and is no plainer.
// Kept (1): a state that is written goes into the lent row as it is; an enum that is turned into its number at once is no plainer.
ghost use Rattle.std.specs.Prelude.{◌≡◌, ◌*◌, ◌≤◌, ◌<◌, length};
ghost use Rattle.srt_group_model.specs.Tools.{is_set, flagged, each};
ghost use Rattle.srt_group_model.specs.Members.{at_each_place, settle, requalify, break_disconnected};
ghost use Rattle.srt_group_model.specs.Members.{settle_members, requalify_members};
ghost use Rattle.srt_connection_queue.specs.Rows.{row_size, member_of};
ghost use Rattle.srt_connection_members.specs.Members.{members_of, HasRow, Changed};
ghost use Rattle.srt_group_members.specs.Scan.{Became};
ghost use Rattle.srt_group_members.specs.Refresh.{settles, settled_state, requalifies};

use crate::alignment::align_member_sequence;
use crate::promotion::promote_if_none;
use crate::states::{
    ACTIVE, BROKEN, PENDING, STANDBY, UNSTABLE, is_backup, is_connected_in, leg_disconnected,
    requalified_state, turn_at,
};
use srt_connection::legs::can_send;
use srt_connection_members::{row, rows};
use srt_connection_queue::rows::{Row, leg, member_state};

// What its steps are told of the group: the mode, and the send number, if there is one.
#[derive(Clone, Copy)]
pub struct Refresh {
    pub mode: u64,
    pub number: Option<u64>,
}

// ---- Pending members

#[tactic(auto, unfolding(crate::specs::Refresh::settles))]
fn settles(row: &Row) -> bool
    ensures { result ≡ settles (member_of row.now) }
{
    is_connected_in(row, PENDING)
}

#[tactic(auto, using(srt_group_model::specs::Laws::Reason::when_true, srt_group_model::specs::Laws::Reason::when_false), unfolding(crate::specs::Refresh::settled_state))]
fn settled_state(mode: u64) -> u64
    ensures { result ≡ settled_state mode }
{
    if is_backup(mode) {
        return STANDBY;
    }
    ACTIVE
}

// A Pending member that has connected turns Active, in Backup Standby, if it can be aligned.
#[tactic(auto, using(crate::specs::Laws::Refresh::turn_left_out, crate::specs::Laws::Refresh::turn_refused, crate::specs::Laws::Refresh::turn_made), unfolding(srt_group_model::specs::Members::settle, crate::specs::Refresh::settles, crate::specs::Refresh::settled_state))]
fn settle_at(members: &mut [u64], count: usize, refresh: Refresh, index: usize)
    requires row_size_in_bounds { count * row_size ≤ length members.old }
    requires index_lt_count { index < count }
    ensures { Became count
        (settle refresh.mode refresh.number index (members_of count members.old))
        members.old members.new }
{
    if settles(row(members, index))
        && align_member_sequence(members, count, refresh.number, index)
    {
        turn_at(members, index, settled_state(refresh.mode));
    }
}

#[tactic(auto, using(crate::specs::Laws::Refresh::stepping_start, crate::specs::Laws::Refresh::stepping_on, crate::specs::Laws::Refresh::stepping_done))]
fn settle_pending_members(members: &mut [u64], count: usize, refresh: Refresh)
    requires { count * row_size ≤ length members.old }
    ensures { Became count
        (at_each_place (settle refresh.mode refresh.number) (members_of count members.old))
        members.old members.new }
{
    for i in 0..count {
        settle_at(members, count, refresh, i);
    }
}

// What is left of `refresh_pending_states` after admission.
#[tactic(auto, using(crate::specs::Laws::Refresh::settled))]
pub fn settle_members(members: &mut [u64], count: usize, refresh: Refresh)
    requires { count * row_size ≤ length members.old }
    ensures { Became count
        (settle_members refresh.mode refresh.number (members_of count members.old))
        members.old members.new }
{
    settle_pending_members(members, count, refresh);
    promote_if_none(members, count, refresh.mode);
}

// ---- Unstable members

// The leg, which is long, is read of an Unstable member alone.
#[tactic(auto, using(crate::specs::Laws::Refresh::stays_unstable, crate::specs::Laws::Refresh::requalifies_if_sending))]
fn requalifies(row: &Row) -> bool
    ensures { result ≡ requalifies (member_of row.now) }
{
    is_connected_in(row, UNSTABLE) && can_send(leg(row))
}

// An Unstable member that can send again requalifies, if it can be aligned.
// Kept (2): as one with `settle_at`, over a trait of test and state, it is as long, by two impls with a ghost for each: no plainer.
#[tactic(auto, using(crate::specs::Laws::Refresh::turn_left_out, crate::specs::Laws::Refresh::turn_refused, crate::specs::Laws::Refresh::turn_made), unfolding(srt_group_model::specs::Members::requalify, crate::specs::Refresh::requalifies, crate::specs::Refresh::requalified_state))]
fn requalify_at(members: &mut [u64], count: usize, refresh: Refresh, index: usize)
    requires row_size_in_bounds { count * row_size ≤ length members.old }
    requires index_lt_count { index < count }
    ensures { Became count
        (requalify refresh.mode refresh.number index (members_of count members.old))
        members.old members.new }
{
    if requalifies(row(members, index))
        && align_member_sequence(members, count, refresh.number, index)
    {
        let state = requalified_state(rows(members, count), refresh.mode);
        turn_at(members, index, state);
    }
}

// Kept (2): as one with `settle_pending_members`, over a closure, a clause would say of the closure what `Became` says of each step: longer than the loop.
#[tactic(auto, using(crate::specs::Laws::Refresh::stepping_start, crate::specs::Laws::Refresh::stepping_on, crate::specs::Laws::Refresh::stepping_done))]
fn requalify_unstable_members(members: &mut [u64], count: usize, refresh: Refresh)
    requires { count * row_size ≤ length members.old }
    ensures { Became count
        (at_each_place (requalify refresh.mode refresh.number) (members_of count members.old))
        members.old members.new }
{
    for i in 0..count {
        requalify_at(members, count, refresh, i);
    }
}

// ---- disconnected members

#[tactic(auto, using(crate::specs::Laws::Refresh::broken_already, crate::specs::Laws::Refresh::not_broken, crate::specs::Laws::Refresh::broken_now))]
fn break_disconnected_at(members: &mut [u64], index: usize)
    requires { HasRow index members.old }
    ensures { Changed index break_disconnected members.old members.new }
{
    let row = row(members, index);
    if member_state(row) != BROKEN && leg_disconnected(row) {
        turn_at(members, index, BROKEN);
    }
}

// Each member whose leg is disconnected turns Broken.
#[tactic(auto, using(crate::specs::Laws::Refresh::became_each, srt_connection_members::specs::Laws::Members::changing_done))]
pub fn break_disconnected(members: &mut [u64], count: usize)
    requires { count * row_size ≤ length members.old }
    ensures { Became count
        (each break_disconnected (members_of count members.old))
        members.old members.new }
{
    for i in 0..count {
        break_disconnected_at(members, i);
    }
}

// What is left of `refresh_states` after `refresh_pending_states`.
#[tactic(auto, using(crate::specs::Laws::Refresh::requalified))]
pub fn requalify_members(members: &mut [u64], count: usize, refresh: Refresh)
    requires { count * row_size ≤ length members.old }
    ensures { Became count
        (requalify_members refresh.mode refresh.number (members_of count members.old))
        members.old members.new }
{
    break_disconnected(members, count);
    requalify_unstable_members(members, count, refresh);
    promote_if_none(members, count, refresh.mode);
}
