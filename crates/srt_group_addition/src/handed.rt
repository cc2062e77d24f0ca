// `add_member` of a leg that is handed over in a lent row of the members' table. The row's membership part is not read: the member
// gets its own. Its queue must be empty and its reservation 0, since no payload and no packet of it is the group's.
// Kept (5, 6): the members are changed, so they are in no struct of lent readings, and a call's promise names each table: a struct of the others alone would be no plainer.
ghost use Rattle.std.specs.Prelude.{◌≡◌, not, ◌||◌, ◌≤◌, eqb, length};
ghost use Rattle.srt_protocol.specs.Errors.{outcome_number};
ghost use Rattle.srt_group_model.specs.Tools.{is_empty, any};
ghost use Rattle.srt_group_model.specs.Members.{has_id};
ghost use Rattle.srt_group_model.specs.Guards.{no_answer};
ghost use Rattle.srt_connection_queue.specs.Rows.{member_of};
ghost use Rattle.srt_connection_members.specs.Members.{members_size, members_of, members_in, HasRow};
ghost use Rattle.srt_group.specs.Made.{parts_of};
ghost use Rattle.srt_group_shown.specs.Tables.{parts, tables};
ghost use Rattle.srt_group_shown.specs.Ready.{Ready, storing, Performs};
ghost use Rattle.srt_group_addition.specs.Handed.{in_use, unfit, addition_refused, call_of_member, call_of_row, StepsAdding};

use crate::addition::{NewMember, add_member_at_end};
use cell_set::CellSet;
use srt_connection::legs::{LARGEST_16, LARGEST_32, handed_over};
use srt_connection_members::{MAX_MEMBERS, find, rows};
use srt_connection_queue::queue::queue_is_empty;
use srt_connection_queue::rows::{Row, leg};
use srt_group::{Answered, Group};
use srt_group_model::{Core, Leg, Sending};
use srt_group_rules::ranges::{leg_out_of_range, leg_sequence_too_large};
use srt_protocol::error::{Error, outcome_number};

// 6: the leg has an event in its queue, or a reservation.
fn leg_in_use(row: &Row, leg: Leg) -> bool
    ensures { result ≡ in_use leg (member_of row.now).queue }
{
    !queue_is_empty(row) | (leg.receiver.reserved != 0)
}

// 2: an id, a weight or a field of the leg out of range. The leg's sender is that of a leg handed over.
fn leg_unfit(member: NewMember) -> bool
    ensures { result ≡ unfit member.id member.weight member.leg }
{
    (LARGEST_32 < member.id)
        | (LARGEST_16 < member.weight)
        | leg_out_of_range(handed_over(member.leg))
        | leg_sequence_too_large(member.leg)
}

// 21: a member has the id.
#[tactic(auto, using(srt_group_members::specs::Laws::Scan::any_found))]
fn has_member(rows: &[Row], id: u64) -> bool
    ensures { result ≡ any (has_id id) (members_in rows.now) }
{
    find(rows, id).is_some()
}

// What refuses an addition after 5 and 6 of the group's own state: 6 of the leg, 2, 20, 21.
// Kept (6): words and count, since the table may not have so many rows until 20 is tested.
#[tactic(auto, using(crate::specs::Laws::Handed::stops_in_use, crate::specs::Laws::Handed::stops_unfit, crate::specs::Laws::Handed::stops_full, crate::specs::Laws::Handed::stops_duplicate, crate::specs::Laws::Handed::none_stops))]
fn refusal(members: &[u64], count: usize, row: &Row, member: NewMember) -> Result<(), Error>
    requires { members_size ≤ length members.now }
    ensures { result ≡ addition_refused member.id member.weight member.leg (member_of row.now).queue
        (members_of count members.now) }
{
    if leg_in_use(row, member.leg) {
        return Err(Error::InvalidState);
    }
    if leg_unfit(member) {
        return Err(Error::OutOfRange);
    }
    if MAX_MEMBERS <= count {
        return Err(Error::MemberLimit);
    }
    if has_member(rows(members, count), member.id) {
        return Err(Error::DuplicateMember);
    }
    Ok(())
}

// `add_leg` over the handed row itself.
#[tactic(auto, using(crate::specs::Laws::Handed::leg_room, crate::specs::Laws::Handed::leg_added))]
fn add_row(
    core: Core,
    sending: Sending,
    members: &mut [u64],
    row: &Row,
    id: u64,
    weight: u64,
) -> Answered<Core, ()>
    requires { members_size ≤ length members.old }
    ensures { StepsAdding (call_of_member id weight (member_of row.now)) core sending members.old
        result members.new }
{
    let leg = leg(row);
    let member = NewMember { id, weight, leg };
    if let Err(error) = refusal(members, core.counts.members, row, member) {
        return Answered::refused(core, error);
    }
    add_member_at_end(core, sending, members, member)
}

// `add_member` after 5 and 6 of the group's own state. It touches the record's core and the members only.
pub fn add_leg(
    core: Core,
    sending: Sending,
    members: &mut [u64],
    row: &[u64],
    id: u64,
    weight: u64,
) -> Answered<Core, ()>
    requires { (members_size ≤ length members.old) × HasRow 0 row.now }
    ensures { StepsAdding (call_of_row id weight row.now) core sending members.old
        result members.new }
{
    let row = srt_connection_members::row(row, 0);
    add_row(core, sending, members, row, id, weight)
}

// `add_member` for a valid state. The cells in use stay the same; the store is lent for its length, over which the state is valid.
pub fn add_member(
    group: Group,
    members: &mut [u64],
    pending: &[u64],
    waiting: &[u64],
    history: &[u64],
    sources: &[u64],
    store: &[u8],
    used: &CellSet,
    row: &[u64],
    id: u64,
    weight: u64,
) -> Answered<Core, ()>
    requires ready { Ready (parts_of group)
        (tables members.old pending.now waiting.now history.now sources.now) (length store.now) used.now }
    requires has_row { HasRow 0 row.now }
    ensures { Performs (call_of_row id weight row.now) (parts_of group)
        (tables members.old pending.now waiting.now history.now sources.now)
        (storing store.now) (outcome_number result.answer) no_answer (parts group.identity result.«record» group.sending group.ring)
        (tables members.new pending.now waiting.now history.now sources.now)
        (storing store.now) used.now }
{
    add_leg(group.core, group.sending, members, row, id, weight)
}
