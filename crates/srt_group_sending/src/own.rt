// The call's own payload on one member.
// Kept (5, 6): a host lends each table as words; a struct of `&mut` fields wants a clause a field, in every function, that its slice is still the caller's (docs/DECISIONS.md).
// Kept (5, 6): the list goes with its rows in use: `Wrote` says of the whole list which rows are written, a rest of it (`&mut list[..]`) would say so of the rest alone.
// Kept (5): time, size and sequence come with no cell, which an `Entry` has: a struct of the three would be taken apart in each clause.
ghost use Rattle.std.specs.Prelude.{◌+◌, ◌*◌, ◌≤◌, length};
ghost use Rattle.srt_group_model.specs.Sending.{sent_row_size};
ghost use Rattle.srt_connection_members.specs.Members.{HasRow};
ghost use Rattle.srt_group_sending.specs.SentList.{send_tables};
ghost use Rattle.srt_group_sending.specs.OwnSend.{SentOn};

use crate::list::{Sent, write_sent};
use srt_connection::legs::send_shared_with_sequence;
use srt_connection_members::{leg_at, put_leg_at, row};
use srt_connection_queue::rows::member_id;
use srt_protocol::time::Timestamp;

// A payload of `size` bytes on the member at an index, at a sequence: whether it was sent. If it was, the list has its row.
pub fn send_on(
    members: &mut [u64],
    index: usize,
    time: Timestamp,
    size: u64,
    sequence: u64,
    list: &mut [u64],
    sent: usize,
) -> bool
    requires has_row { HasRow index members.old }
    requires sent_row_size_in_bounds { sent * sent_row_size + sent_row_size ≤ length list.old }
    ensures { SentOn time.0 size sequence index sent
        (send_tables members.old list.old) result
        (send_tables members.new list.new) }
{
    let result = send_shared_with_sequence(leg_at(members, index), time, size, sequence);
    let Some(leg) = result else {
        return false;
    };
    let id = member_id(row(members, index));
    put_leg_at(members, index, leg);
    write_sent(list, sent, Sent::own(id, sequence, time));
    true
}
