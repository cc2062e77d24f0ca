// A member is added behind the others. If its leg is connected it is admitted, which may set the base and bind the group, and, if
// that succeeds, its send sequence is aligned with the group's. Where that fails, 22, it stays added, as in the Rust.
// Kept (1): state and admission are the words that the member's row holds: an enum or a bool, made to be taken apart again at the write, would be no plainer.
ghost use Rattle.std.specs.Prelude.{◌≡◌, ◌≤◌, ◌<◌, length};
ghost use Rattle.srt_group_model.specs.Validity.{max_members};
ghost use Rattle.srt_connection_members.specs.Members.{members_size};
ghost use Rattle.srt_group_addition.specs.Addition.{membership_at_addition, Joins, Adds};

use srt_connection::legs::handed_over;
use srt_connection_members::{admitted_at, append_member, rows};
use srt_group::Answered;
use srt_group_delivery::delivery::set_base;
use srt_group_members::accounts::NO_PACKETS;
use srt_group_members::admission::{Admission, admit_peer_group};
use srt_group_members::alignment::align_member_sequence;
use srt_group_members::states::state_at_addition;
use srt_group_model::{Collision, Core, Leg, Membership, Sending};
use srt_protocol::error::Error;

// A member that is to be added: its leg is the one that is handed over.
#[derive(Clone, Copy)]
pub struct NewMember {
    pub id: u64,
    pub weight: u64,
    pub leg: Leg,
}

// A member for which nothing is held yet, not admitted, without collision.
fn membership_at_addition(id: u64, weight: u64, state: u64) -> Membership
    ensures { result ≡ membership_at_addition id weight state }
{
    Membership {
        id,
        weight,
        state,
        admitted: 0,
        account: NO_PACKETS,
        collision: Collision {
            expected: 0,
            actual: 0,
        },
    }
}

// The member stands behind the others and, if its leg is connected, is admitted: it may set the base, and bind the group.
fn join(core: Core, members: &mut [u64], member: NewMember) -> Core
    requires { (core.counts.members < max_members) × (members_size ≤ length members.old) }
    ensures { Joins member.id member.weight member.leg core members.old result members.new }
{
    let count = core.counts.members;
    let leg = member.leg;
    let state = state_at_addition(rows(members, count), core.mode, leg);
    append_member(
        members,
        count,
        membership_at_addition(member.id, member.weight, state),
        leg,
    );
    let before = Admission {
        peer: core.peer,
        base: None,
    };
    let admission = admit_peer_group(members, count, before);
    let mut after = set_base(core, admission.base);
    after.peer = admission.peer;
    after.counts.members = count + 1;
    after
}

// `add_member` once no code refuses it but 22.
// Kept (5): the two parts of the record that it reads: what is proved holds over any identity and ring, so the whole group would be no plainer.
pub fn add_member_at_end(
    core: Core,
    sending: Sending,
    members: &mut [u64],
    member: NewMember,
) -> Answered<Core, ()>
    requires { (core.counts.members < max_members) × (members_size ≤ length members.old) }
    ensures { Adds member.id member.weight member.leg core sending members.old result members.new }
{
    let index = core.counts.members;
    let leg = handed_over(member.leg);
    let after = join(core, members, NewMember { leg, ..member });
    if admitted_at(members, index) == 1
        && !align_member_sequence(members, index + 1, sending.next_send_sequence(), index)
    {
        return Answered::refused(after, Error::AlignmentFailed);
    }
    Answered {
        record: after,
        answer: Ok(()),
    }
}
