// The lent table of members, row by row. A row is lent as a part of the table, so that what is proved of a row holds of the
// table: the row at the index is changed, and no other. Rows past the count of members are free.
// Kept (5): the table comes as words through the C interface, and which of its rows are there is said of each call's own index or count.
// Kept (3, 6): what changes every member goes by the index, since of the words that `as_chunks_mut` lends nothing is promised once they are back.

#![tactic(auto)]

ghost use Rattle.std.specs.Prelude.{◌≡◌, ◌*◌, ◌≤◌, ◌<◌, length};
ghost use Rattle.std.specs.Fn.{FnOnceReturnsAtMut};
ghost use Rattle.srt_group_model.specs.State.{with_leg, on_leg, on_membership, with_account};
ghost use Rattle.srt_group_model.specs.Tools.{at_place, is_empty};
ghost use Rattle.srt_group_model.specs.Members.{find};
ghost use Rattle.srt_connection_queue.specs.Rows.{row_size, member_of, Kept, with_membership};
ghost use Rattle.srt_connection_queue.specs.Queue.{popped, cleared};
ghost use Rattle.srt_connection_members.specs.Members.{member_at, members_of, members_in, HasRow, new_member, RowLent, Changed, PushedAt, PolledAt, Appended, Removed, ChangedAll};
ghost use Rattle.srt_group_model.specs.Legs.{with_reservation, advance_receive_sequence, release_data_reservation, disconnect_leg};

use srt_connection::legs::disconnect;
use srt_connection_queue::queue::{
    LegPoll, clear, front, poll_event_for_group, pop, push, queue_is_empty,
};
use srt_connection_queue::rows::{
    ROW, Row, account, admitted, advance_receive_sequence, leg, link_state, member_id,
    member_state, membership, put_account, put_leg, put_membership, put_reservation, receiver,
    reservation, sender,
};
use srt_group_model::{Account, Event, Leg, Membership, Receiver, Sender};
use srt_protocol::error::Error;
use word_rows::close_gap;

// The most members that a group has.
pub const MAX_MEMBERS: usize = 64;

// The words of the table: a row for each of them.
pub const MEMBERS_LENGTH: usize = MAX_MEMBERS * ROW;

// ---- one row is read
// Kept (2): a reader for each part or word, and below a writer: each is one line over `row` or `with_row`, and what it promises is promised by
// a public name, which a rule of the project keeps.

// The rows of the first `count` members.
pub fn rows(members: &[u64], count: usize) -> &[Row]
    requires { count * row_size ≤ length members.now }
    ensures shows { members_in result.now ≡ members_of count members.now }
    ensures long { length result.now ≡ count }
{
    let (rows, _) = members.as_chunks::<ROW>();
    &rows[..count]
}

// The row at the index.
pub fn row(members: &[u64], index: usize) -> &Row
    requires { HasRow index members.now }
    ensures { member_of result.now ≡ member_at members.now index }
{
    let start = index * ROW;
    members[start..start + ROW].as_array().unwrap()
}

pub fn membership_at(members: &[u64], index: usize) -> Membership
    requires { HasRow index members.now }
    ensures { result ≡ (member_at members.now index).membership }
{
    membership(row(members, index))
}

pub fn leg_at(members: &[u64], index: usize) -> Leg
    requires { HasRow index members.now }
    ensures { result ≡ (member_at members.now index).leg }
{
    leg(row(members, index))
}

pub fn sender_at(members: &[u64], index: usize) -> Sender
    requires { HasRow index members.now }
    ensures { result ≡ (member_at members.now index).leg.sender }
{
    sender(row(members, index))
}

pub fn receiver_at(members: &[u64], index: usize) -> Receiver
    requires { HasRow index members.now }
    ensures { result ≡ (member_at members.now index).leg.receiver }
{
    receiver(row(members, index))
}

pub fn member_state_at(members: &[u64], index: usize) -> u64
    requires { HasRow index members.now }
    ensures { result ≡ (member_at members.now index).membership.state }
{
    member_state(row(members, index))
}

pub fn admitted_at(members: &[u64], index: usize) -> u64
    requires { HasRow index members.now }
    ensures { result ≡ (member_at members.now index).membership.admitted }
{
    admitted(row(members, index))
}

pub fn link_state_at(members: &[u64], index: usize) -> u64
    requires { HasRow index members.now }
    ensures { result ≡ (member_at members.now index).leg.link.state }
{
    link_state(row(members, index))
}

pub fn account_at(members: &[u64], index: usize) -> Account
    requires { HasRow index members.now }
    ensures { result ≡ (member_at members.now index).membership.account }
{
    account(row(members, index))
}

pub fn reservation_at(members: &[u64], index: usize) -> u64
    requires { HasRow index members.now }
    ensures { result ≡ (member_at members.now index).leg.receiver.reserved }
{
    reservation(row(members, index))
}

pub fn queue_is_empty_at(members: &[u64], index: usize) -> bool
    requires { HasRow index members.now }
    ensures { result ≡ is_empty (member_at members.now index).queue }
{
    queue_is_empty(row(members, index))
}

pub fn front_at(members: &[u64], index: usize) -> Option<Event>
    requires { HasRow index members.now }
    ensures { result ≡ at_place 0 (member_at members.now index).queue }
{
    front(row(members, index))
}

// ---- one row is changed

// The row at the index is lent to a call, and stands in the table as the call leaves it.
fn with_row<R, F: FnOnce(&mut Row) -> R>(members: &mut [u64], index: usize, call: F) -> R
    requires there { HasRow index members.old }
    requires callable { F.IsAlwaysCallable call }
    ensures { RowLent index members.old (λ lent left. FnOnceReturnsAtMut F.FnOnce call lent result left) members.new }
{
    let (_, rest) = members.split_at_mut(index * ROW);
    let (row, _) = rest.split_at_mut(ROW);
    call(row.as_mut_array().unwrap())
}

pub fn put_membership_at(members: &mut [u64], index: usize, membership: Membership)
    requires { HasRow index members.old }
    ensures { Changed index (with_membership membership) members.old members.new }
{
    with_row(members, index, |row| put_membership(row, membership));
}

pub fn put_leg_at(members: &mut [u64], index: usize, leg: Leg)
    requires { HasRow index members.old }
    ensures { Changed index (with_leg leg) members.old members.new }
{
    with_row(members, index, |row| put_leg(row, leg));
}

pub fn put_account_at(members: &mut [u64], index: usize, account: Account)
    requires { HasRow index members.old }
    ensures { Changed index (on_membership (with_account account)) members.old members.new }
{
    with_row(members, index, |row| put_account(row, account));
}

pub fn put_reservation_at(members: &mut [u64], index: usize, reserved: u64)
    requires { HasRow index members.old }
    ensures { Changed index (on_leg (with_reservation reserved)) members.old members.new }
{
    with_row(members, index, |row| put_reservation(row, reserved));
}

pub fn pop_at(members: &mut [u64], index: usize)
    requires { HasRow index members.old }
    ensures { Changed index popped members.old members.new }
{
    with_row(members, index, |row| pop(row));
}

pub fn clear_at(members: &mut [u64], index: usize)
    requires { HasRow index members.old }
    ensures { Changed index cleared members.old members.new }
{
    with_row(members, index, |row| clear(row));
}

pub fn push_at(members: &mut [u64], index: usize, event: Event) -> Result<(), Error>
    requires { HasRow index members.old }
    ensures { PushedAt index event members.old result members.new }
{
    with_row(members, index, |row| push(row, event))
}

pub fn poll_event_for_group_at(members: &mut [u64], index: usize, budget: u64) -> LegPoll
    requires { HasRow index members.old }
    ensures { PolledAt index budget members.old result members.new }
{
    with_row(members, index, |row| poll_event_for_group(row, budget))
}

// ---- what the group does to one leg, or to every leg

// Records at a leg how far the group has delivered.
pub fn advance_receive_sequence_at(members: &mut [u64], index: usize, sequence: u64)
    requires { HasRow index members.old }
    ensures { Changed index (on_leg (advance_receive_sequence sequence)) members.old members.new }
{
    with_row(
        members,
        index,
        |row| advance_receive_sequence(row, sequence),
    );
}

pub fn release_data_reservation_at(members: &mut [u64], index: usize, count: u64)
    requires { HasRow index members.old }
    ensures { Changed index (on_leg (release_data_reservation count)) members.old members.new }
{
    let reserved = reservation_at(members, index).saturating_sub(count);
    put_reservation_at(members, index, reserved);
}

pub fn disconnect_at(members: &mut [u64], index: usize)
    requires { HasRow index members.old }
    ensures { Changed index (on_leg disconnect_leg) members.old members.new }
{
    let leg = disconnect(leg_at(members, index));
    put_leg_at(members, index, leg);
}

// Every leg of the first `count` members is advanced.
#[tactic(auto, using(crate::specs::Laws::Members::changing_done))]
pub fn advance_receive_sequence_of_all(members: &mut [u64], count: usize, sequence: u64)
    requires { count * row_size ≤ length members.old }
    ensures { ChangedAll count (on_leg (advance_receive_sequence sequence)) members.old members.new }
{
    for i in 0..count {
        advance_receive_sequence_at(members, i, sequence);
    }
}

// Every leg of the first `count` members is disconnected.
// Kept (2): as one with the advance of all, over a closure, a clause would say of the closure that it changes its row and no other: longer than the loop.
#[tactic(auto, using(crate::specs::Laws::Members::changing_done))]
pub fn disconnect_all(members: &mut [u64], count: usize)
    requires { count * row_size ≤ length members.old }
    ensures { ChangedAll count (on_leg disconnect_leg) members.old members.new }
{
    for i in 0..count {
        disconnect_at(members, i);
    }
}

// ---- rows are appended, removed and found

// A member with an empty queue in a row.
fn put_new_member(row: &mut Row, membership: Membership, leg: Leg)
    ensures { Kept row.new (new_member membership leg) }
{
    put_membership(row, membership);
    put_leg(row, leg);
    clear(row);
}

// A member behind the first `count`, with an empty queue.
pub fn append_member(members: &mut [u64], count: usize, membership: Membership, leg: Leg)
    requires { HasRow count members.old }
    ensures { Appended count (new_member membership leg) members.old members.new }
{
    with_row(members, count, |row| put_new_member(row, membership, leg));
}

// Of the first `count` members the one at the index goes, with its queue; the later ones move down.
#[tactic(auto, using(crate::specs::Laws::Members::removed))]
pub fn remove_member(members: &mut [u64], count: usize, index: usize)
    requires { (index < count) × (count * row_size ≤ length members.old) }
    ensures { Removed index count members.old members.new }
{
    close_gap(members, index * ROW, count * ROW, ROW);
}

// The index of the member with that id.
pub fn find(rows: &[Row], id: u64) -> Option<usize>
    ensures { result ≡ find id (members_in rows.now) }
{
    rows.iter().position(|row| member_id(row) == id)
}
