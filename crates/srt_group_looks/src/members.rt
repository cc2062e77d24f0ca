// `members`: all members as rows of a lent list, in the order of their addition. The words behind the rows stay as they were.
ghost use Rattle.std.specs.Prelude.{◌≡◌, ◌*◌, ◌+◌, ◌≤◌, length};
ghost use Rattle.srt_protocol.specs.Cells.{overwritten};
ghost use Rattle.srt_group_model.specs.Tools.{each};
ghost use Rattle.srt_group_model.specs.Calls.{member_shown};
ghost use Rattle.srt_group_model.specs.Answers.{member_values, all_values};
ghost use Rattle.srt_connection_queue.specs.Rows.{member_of};
ghost use Rattle.srt_connection_members.specs.Members.{members_in};
ghost use Rattle.srt_group.specs.Made.{parts_of};
ghost use Rattle.srt_group_refusals.specs.LentGroup.{tables_of};
ghost use Rattle.srt_group_looks.specs.Looks.{member_row_size, ListsMembers};

use crate::member::shown;
use srt_connection_members::{MAX_MEMBERS, rows};
use srt_connection_queue::rows::Row;
use srt_group_model::{Core, MemberShown};
use srt_group_refusals::refusals::LentGroup;
use srt_protocol::error::Error;

// The words of a row of the list: id, weight, label, the leg's state, admitted, reserved, the collision's expected and actual peer group.
pub const MEMBER_WORDS: usize = 8;

// The words of a list: a row for each member that there may be.
pub const LIST_LENGTH: usize = MAX_MEMBERS * MEMBER_WORDS;

// The words of a member that is shown.
pub fn words_of(shown: MemberShown) -> [u64; MEMBER_WORDS]
    ensures { result ≡ member_values shown }
{
    let membership = shown.membership;
    let collision = membership.collision;
    [
        membership.id,
        membership.weight,
        membership.state,
        shown.connection,
        membership.admitted,
        membership.account.reserved,
        collision.expected,
        collision.actual,
    ]
}

// The member in a row is written as the list's row at the index.
fn list_member(row: &Row, index: usize, list: &mut [u64])
    requires { index * member_row_size + member_row_size ≤ length list.old }
    ensures { list.new
        ≡ overwritten (index * member_row_size) (member_values (member_shown (member_of row.now))) list.old }
{
    word_rows::put_row(list, index, words_of(shown(row)));
}

#[tactic(auto, using(crate::specs::Laws::Members::row_written, crate::specs::Laws::Members::all_written))]
fn list_members(rows: &[Row], list: &mut [u64])
    requires { length rows.now * member_row_size ≤ length list.old }
    ensures { list.new ≡ overwritten 0 (all_values (each member_shown (members_in rows.now))) list.old }
{
    // Kept (3): of the words that `as_chunks_mut` lends nothing is promised once they are back, so the rows go by the index.
    for (index, row) in rows.iter().enumerate() {
        list_member(row, index, list);
    }
}

// All members. A list shorter than 64 rows is 5.
#[tactic(auto, using(crate::specs::Laws::Members::list_too_short))]
pub fn members(lent: &LentGroup, list: &mut [u64]) -> Result<usize, Error>
    ensures { ListsMembers (parts_of lent.now.group) (tables_of lent.now)
        list.old result list.new }
{
    if list.len() < LIST_LENGTH {
        return Err(Error::InsufficientBuffer);
    }
    lent.begin()?;
    let count = lent.group.core.counts.members;
    list_members(rows(lent.members, count), list);
    Ok(count)
}
