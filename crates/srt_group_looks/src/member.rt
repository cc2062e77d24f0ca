// The looks at one member: 2 and 3 come behind 5 and 6, before any leg is read.
ghost use Rattle.std.specs.Prelude.{◌≡◌, Some, MatchResult};
ghost use Rattle.srt_group_model.specs.Calls.{member_shown};
ghost use Rattle.srt_group_model.specs.Lent.{look_member, look_backup_stability_timeout_micros};
ghost use Rattle.srt_connection_queue.specs.Rows.{member_of};
ghost use Rattle.srt_group_model.specs.Guards.{shown, optional, one_member};
ghost use Rattle.srt_group.specs.Made.{parts_of};
ghost use Rattle.srt_group_refusals.specs.LentGroup.{tables_of};
ghost use Rattle.srt_group_looks.specs.Looks.{LookGives, RowFound, LooksRefused};

use srt_connection::legs::{LARGEST_32, has_sender};
use srt_connection_members::rows;
use srt_connection_queue::rows::{Row, leg, link_state, member_id, membership};
use srt_group_backup::stale::stability_timeout;
use srt_group_model::{Core, MemberShown};
use srt_group_refusals::refusals::LentGroup;
use srt_protocol::error::Error;

// What is shown of the member in a row.
pub fn shown(row: &Row) -> MemberShown
    ensures { result ≡ member_shown (member_of row.now) }
{
    MemberShown {
        membership: membership(row),
        connection: link_state(row),
    }
}

// The row of the member with the id.
#[tactic(auto, using(crate::specs::Laws::Member::unfit_refuses))]
fn member_row<'a>(lent: &LentGroup<'a>, id: u64) -> Result<&'a Row, Error>
    ensures { MatchResult result
        (λ row. RowFound id (parts_of lent.now.group) (tables_of lent.now) row.now)
        (λ e. LooksRefused id (parts_of lent.now.group) (tables_of lent.now) e) }
{
    lent.begin()?;
    // Kept (2): 2, then 3, in the order of the call's own definition; a function of the two lines is no plainer.
    if LARGEST_32 < id {
        return Err(Error::OutOfRange);
    }
    let rows = rows(lent.members, lent.group.core.counts.members);
    let Some(row) = rows.iter().find(|row| member_id(row) == id) else {
        return Err(Error::UnknownMember);
    };
    Ok(row)
}

// A member: its membership, with its label and its collision, and its leg's state.
pub fn member(lent: &LentGroup, id: u64) -> Result<MemberShown, Error>
    ensures { LookGives (λ m. shown (one_member (Some m))) (look_member id) (parts_of lent.now.group) (tables_of lent.now) result }
{
    let row = member_row(lent, id)?;
    Ok(shown(row))
}

// How long the member may be silent as the carrier of a Backup group, in microseconds; nothing for a leg without a sender.
pub fn backup_stability_timeout_micros(lent: &LentGroup, id: u64) -> Result<Option<u64>, Error>
    ensures { LookGives (λ n. shown (optional n)) (look_backup_stability_timeout_micros id) (parts_of lent.now.group) (tables_of lent.now) result }
{
    let carrier = member_row(lent, id)?;
    let leg = leg(carrier);
    Ok(has_sender(leg).then_some(stability_timeout(leg)))
}
