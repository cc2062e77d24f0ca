// Admission of the members whose handshake completed since the last look. As in the Rust, the first of them fixes the receive base
// before it is compared, and the first peer group that one answers from binds the group.
//
// Kept (3, 5, 6): a C host lends the members as words, with the count of rows in use; `as_chunks_mut` says nothing of what the words end as.
ghost use Rattle.std.specs.Prelude.{◌≡◌, ◌*◌, ◌≤◌, length, eqb};
ghost use Rattle.srt_group_model.specs.Tools.{if_true◌then◌else◌};
ghost use Rattle.srt_group_model.specs.Members.{arrives};
ghost use Rattle.srt_connection_queue.specs.Rows.{row_size, member_of};
ghost use Rattle.srt_connection_members.specs.Members.{HasRow};
ghost use Rattle.srt_group_members.specs.Admission.{membership_after, Answered, AdmittedAt, Admitted};

use crate::states::{BROKEN, leg_connected};
use srt_connection::legs::peer_initial_sequence;
use srt_connection_members::{put_membership_at, row};
use srt_connection_queue::rows::{Row, admitted, leg, member_state, membership};
use srt_group_model::{Collision, Leg, Membership};

// The peer group that the group is bound to, 0 while it is not, and the base if the members that arrived gave one.
// Kept (1): the peer is the record's word, which the definitions compare; it comes in and goes back as it is.
#[derive(Clone, Copy)]
pub struct Admission {
    pub peer: u64,
    pub base: Option<u64>,
}

// Kept (1): a state or a flag of the row is asked as the word that it is, as the definitions ask it.
// Not admitted yet, not Broken, and connected.
#[tactic(auto, unfolding(srt_group_model::specs::Members::arrives))]
pub fn arrives(row: &Row) -> bool
    ensures { result ≡ arrives (member_of row.now) }
{
    (admitted(row) == 0) & ((member_state(row) != BROKEN) & leg_connected(row))
}

#[tactic(auto, using(srt_group_model::specs::Laws::Reason::when_true, srt_group_model::specs::Laws::Reason::when_false))]
fn bound_peer(peer: u64, actual: u64) -> u64
    ensures { result ≡ (if_true eqb peer 0 then actual else peer) }
{
    if peer == 0 {
        return actual;
    }
    peer
}

// What an arriving leg adds: a base and a peer group, each if there was none.
#[tactic(auto, using(crate::specs::Laws::Admission::answered_as))]
fn answered(before: Admission, leg: Leg) -> Admission
    ensures { Answered before leg result }
{
    Admission {
        peer: bound_peer(before.peer, leg.link.peer),
        base: before.base.or(peer_initial_sequence(leg)),
    }
}

// A member that answers from no group, or from that one, is admitted; from another, it is Broken, and the collision stays.
#[tactic(auto, using(srt_group_model::specs::Laws::Reason::when_true, srt_group_model::specs::Laws::Reason::when_false), unfolding(crate::specs::Admission::membership_after))]
fn membership_after(mut membership: Membership, peer: u64, actual: u64) -> Membership
    ensures { result ≡ membership_after peer actual membership }
{
    if (actual == 0) | (actual == peer) {
        membership.admitted = 1;
        return membership;
    }
    let collision = Collision {
        expected: peer,
        actual,
    };
    membership.state = BROKEN;
    membership.collision = collision;
    membership
}

// One member, if it arrives.
pub fn admit_peer_group(members: &mut [u64], index: usize, before: Admission) -> Admission
    requires { HasRow index members.old }
    ensures { AdmittedAt index members.old before result members.new }
{
    let row = row(members, index);
    if !arrives(row) {
        return before;
    }
    let leg = leg(row);
    let after = answered(before, leg);
    let membership = membership_after(membership(row), after.peer, leg.link.peer);
    put_membership_at(members, index, membership);
    after
}

// In one pass: a member that arrives while the group is not bound either binds it or answers from no group, so what a later
// member binds the group to does not change what becomes of it.
#[tactic(auto, using(crate::specs::Laws::Admission::admitting_start, crate::specs::Laws::Admission::admitting_done))]
pub fn admit_connected_peer_groups(members: &mut [u64], count: usize, peer: u64) -> Admission
    requires { count * row_size ≤ length members.old }
    ensures { Admitted count peer members.old result members.new }
{
    let mut admission = Admission { peer, base: None };
    for i in 0..count {
        admission = admit_peer_group(members, i, admission);
    }
    admission
}
