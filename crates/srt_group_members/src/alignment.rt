// Alignment of a member's send sequence with the group's, so that what it sends next has the group's number.
//
// Kept (5, 6): a C host lends the members as words, with the count of rows in use; `as_chunks_mut` says nothing of what the words end as.
ghost use Rattle.std.specs.Prelude.{◌≡◌, ◌&&◌, ◌*◌, ◌≤◌, length, eqb, None};
ghost use Rattle.std.specs.Option.{option_map};
ghost use Rattle.srt_group_model.specs.Tools.{first_such};
ghost use Rattle.srt_group_model.specs.Legs.{has_sender};
ghost use Rattle.srt_group_model.specs.Members.{alignment_source, align_leg, align_member_sequence};
ghost use Rattle.srt_connection_queue.specs.Rows.{row_size, member_of};
ghost use Rattle.srt_connection_members.specs.Members.{members_of, members_in, HasRow};
ghost use Rattle.srt_group_members.specs.Scan.{Tried};
ghost use Rattle.srt_group_members.specs.Alignment.{is_other_sender, AlignedAt};

use crate::states::{leg_connected, leg_has_sender};
use srt_connection::legs::{has_sender, synchronize_send_sequence};
use srt_connection_members::{leg_at, put_leg_at, row, rows};
use srt_connection_queue::rows::{Row, member_id, sender};
use srt_group_model::Leg;

// Another member than the one with the id, connected and with a sender.
#[tactic(auto, unfolding(crate::specs::Alignment::is_other_sender))]
fn is_other_sender(row: &Row, id: u64) -> bool
    ensures { result ≡ is_other_sender id (member_of row.now) }
{
    (member_id(row) != id) & (leg_connected(row) & leg_has_sender(row))
}

fn first_other_sender(rows: &[Row], id: u64) -> Option<&Row>
    ensures { option_map (λ row. member_of row.now) result
        ≡ first_such (is_other_sender id) (members_in rows.now) }
{
    rows.iter().find(|row| is_other_sender(row, id))
}

// The next number of the first other sender.
#[tactic(auto, using(crate::specs::Laws::Alignment::source_none))]
fn next_of_other_sender(rows: &[Row], id: u64) -> Option<u64>
    ensures { result ≡ alignment_source None id (members_in rows.now) }
{
    let row = first_other_sender(rows, id)?;
    Some(sender(row).next)
}

// The group's send number, else the next number of the first other connected leg, in order of addition.
#[tactic(auto, unfolding(srt_group_model::specs::Members::alignment_source, srt_group_model::specs::Tools::or_else))]
pub fn alignment_source(rows: &[Row], number: Option<u64>, id: u64) -> Option<u64>
    ensures { result ≡ alignment_source number id (members_in rows.now) }
{
    number.or_else(|| next_of_other_sender(rows, id))
}

// Whether the leg's next number is the sequence.
fn sends_next(leg: Leg, sequence: u64) -> bool
    ensures { result ≡ (has_sender leg && eqb leg.sender.next sequence) }
{
    has_sender(leg) && leg.sender.next == sequence
}

#[tactic(auto, using(srt_group_model::specs::Laws::Reason::when_true, srt_group_model::specs::Laws::Reason::when_false), unfolding(srt_group_model::specs::Members::align_leg))]
pub fn align_leg(leg: Leg, sequence: u64) -> Option<Leg>
    ensures { result ≡ align_leg sequence leg }
{
    if sends_next(leg, sequence) {
        return Some(leg);
    }
    synchronize_send_sequence(leg, sequence)
}

fn align_leg_at(members: &mut [u64], index: usize, sequence: u64) -> bool
    requires { HasRow index members.old }
    ensures { AlignedAt index sequence members.old result members.new }
{
    let result = align_leg(leg_at(members, index), sequence);
    let Some(leg) = result else {
        return false;
    };
    put_leg_at(members, index, leg);
    true
}

// Whether the member at the index is aligned. One that has packets in flight at other numbers is not, and nothing is changed.
// Kept (1): a member is aligned or it is not, as `Tried` says; a `Result` would name a refusal, which two of four callers do not give.
pub fn align_member_sequence(
    members: &mut [u64],
    count: usize,
    number: Option<u64>,
    index: usize,
) -> bool
    requires { count * row_size ≤ length members.old }
    ensures { Tried count
        (align_member_sequence number index (members_of count members.old))
        members.old result members.new }
{
    if count <= index {
        return false;
    }
    let id = member_id(row(members, index));
    let source = alignment_source(rows(members, count), number, id);
    let Some(sequence) = source else {
        return true;
    };
    align_leg_at(members, index, sequence)
}
