// `mark_member_broken`: a member turns Broken, and nobody is promoted by it.
// Kept (5, 6): the members are changed, so they are in no struct of lent readings, and a call's promise names each table: a struct of the others alone would be no plainer.
ghost use Rattle.std.specs.Prelude.{◌*◌, ◌≤◌, length};
ghost use Rattle.srt_protocol.specs.Errors.{outcome_number};
ghost use Rattle.srt_group_model.specs.Guards.{no_answer};
ghost use Rattle.srt_group_model.specs.Lent.{call_mark_member_broken};
ghost use Rattle.srt_connection_queue.specs.Rows.{row_size};
ghost use Rattle.srt_group.specs.Made.{parts_of};
ghost use Rattle.srt_group_shown.specs.Tables.{tables};
ghost use Rattle.srt_group_shown.specs.Ready.{Ready, storing, Performs};
ghost use Rattle.srt_group_shown.specs.Steps.{StepsOver};

use cell_set::CellSet;
use srt_connection::legs::LARGEST_32;
use srt_connection_members::{find, rows};
use srt_group::Group;
use srt_group_members::states::{BROKEN, turn_at};
use srt_group_model::Core;
use srt_protocol::error::{Error, outcome_number};

// `mark_member_broken` after 5 and 6: 2 or 3, or the member turns Broken. It touches the members only.
pub fn turn_broken(core: Core, members: &mut [u64], id: u64) -> Result<(), Error>
    requires { core.counts.members * row_size ≤ length members.old }
    ensures { StepsOver (call_mark_member_broken id) core members.old (outcome_number result) members.new }
{
    // Kept (2): 2, then 3, in the order of the call's own definition; a function of the two lines is no plainer.
    if LARGEST_32 < id {
        return Err(Error::OutOfRange);
    }
    let Some(index) = find(rows(members, core.counts.members), id) else {
        return Err(Error::UnknownMember);
    };
    turn_at(members, index, BROKEN);
    Ok(())
}

// `mark_member_broken` for a valid state. The cells in use stay the same; the store is lent for its length, over which the state is valid.
pub fn mark_member_broken(
    group: Group,
    members: &mut [u64],
    pending: &[u64],
    waiting: &[u64],
    history: &[u64],
    sources: &[u64],
    store: &[u8],
    used: &CellSet,
    id: u64,
) -> Result<(), Error>
    requires { Ready (parts_of group)
        (tables members.old pending.now waiting.now history.now sources.now) (length store.now) used.now }
    ensures { Performs (call_mark_member_broken id) (parts_of group)
        (tables members.old pending.now waiting.now history.now sources.now)
        (storing store.now) (outcome_number result) no_answer (parts_of group)
        (tables members.new pending.now waiting.now history.now sources.now)
        (storing store.now) used.now }
{
    turn_broken(group.core, members, id)
}
