// The calls that change the members' states with their refusals, over the record and the lent tables: 5 and 6, and then what follows them.
// Kept (2): public names; each makes its own call behind 5 and 6.
// Kept (5, 6): the members are changed, so they are in no struct of lent readings, and a call's promise names each table: a struct of the others alone would be no plainer.
ghost use Rattle.srt_protocol.specs.Errors.{outcome_number};
ghost use Rattle.srt_group_model.specs.Guards.{no_answer};
ghost use Rattle.srt_group_model.specs.Lent.{call_mark_member_broken, call_refresh_member_states, call_disconnect};
ghost use Rattle.srt_group.specs.Made.{parts_of};
ghost use Rattle.srt_group_shown.specs.Tables.{tables};
ghost use Rattle.srt_group_refusals.specs.Promised.{nothing_lent, showing, Promised};

use crate::broken::turn_broken;
use srt_connection_members::disconnect_all;
use srt_group::{Answered, Group};
use srt_group_polls::refresh::refresh_states;
use srt_group_refusals::refusals::LentGroup;
use srt_protocol::error::{Error, outcome_number};
use srt_protocol::time::Timestamp;

// A member turns Broken. The record stays as it was.
pub fn mark_member_broken(
    group: Group,
    members: &mut [u64],
    pending: &[u64],
    waiting: &[u64],
    history: &[u64],
    sources: &[u64],
    id: u64,
) -> Result<(), Error>
    ensures { Promised (call_mark_member_broken id) (parts_of group)
        (tables members.old pending.now waiting.now history.now sources.now)
        nothing_lent
        (showing (parts_of group)
        (tables members.new pending.now waiting.now history.now sources.now)
        nothing_lent (outcome_number result) no_answer 0) }
{
    let lent = LentGroup {
        group,
        members,
        pending,
        waiting,
        history,
        sources,
    };
    lent.begin()?;
    turn_broken(group.core, members, id)
}

// The members' states follow their legs; a member that arrives may set the base and bind the group.
pub fn refresh_member_states(
    group: Group,
    members: &mut [u64],
    pending: &[u64],
    waiting: &[u64],
    history: &[u64],
    sources: &[u64],
) -> Answered<Group, ()>
    ensures { Promised call_refresh_member_states (parts_of group)
        (tables members.old pending.now waiting.now history.now sources.now)
        nothing_lent
        (showing (parts_of result.«record»)
        (tables members.new pending.now waiting.now history.now sources.now)
        nothing_lent (outcome_number result.answer) no_answer 0) }
{
    let lent = LentGroup {
        group,
        members,
        pending,
        waiting,
        history,
        sources,
    };
    if let Err(error) = lent.begin() {
        return Answered::refused(group, error);
    }
    let core = refresh_states(group.core, group.sending, members);
    Answered {
        record: Group { core, ..group },
        answer: Ok(()),
    }
}

// Every leg is disconnected; nothing is queued. The record stays as it was. The stand-in's legs need no time.
pub fn disconnect(
    group: Group,
    members: &mut [u64],
    pending: &[u64],
    waiting: &[u64],
    history: &[u64],
    sources: &[u64],
    time: Timestamp,
) -> Result<(), Error>
    ensures { Promised (call_disconnect time.0) (parts_of group)
        (tables members.old pending.now waiting.now history.now sources.now)
        nothing_lent
        (showing (parts_of group)
        (tables members.new pending.now waiting.now history.now sources.now)
        nothing_lent (outcome_number result) no_answer 0) }
{
    let lent = LentGroup {
        group,
        members,
        pending,
        waiting,
        history,
        sources,
    };
    lent.begin()?;
    disconnect_all(members, group.core.counts.members);
    Ok(())
}
