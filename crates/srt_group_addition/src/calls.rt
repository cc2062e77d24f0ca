// `add_member` with its refusals, over the record and the lent tables: 5 and 6, and then what follows them.
// Kept (5, 6): the members are changed, so they are in no struct of lent readings, and a call's promise names each table: a struct of the others alone would be no plainer.
ghost use Rattle.srt_protocol.specs.Errors.{outcome_number};
ghost use Rattle.srt_group_model.specs.Guards.{no_answer};
ghost use Rattle.srt_group_shown.specs.Tables.{tables};
ghost use Rattle.srt_group.specs.Made.{parts_of};
ghost use Rattle.srt_group_refusals.specs.Promised.{nothing_lent, showing, PromisedRow};
ghost use Rattle.srt_group_addition.specs.Handed.{call_of_row};

use crate::handed::add_leg;
use srt_connection_queue::rows::ROW;
use srt_group::{Answered, Group};
use srt_group_refusals::refusals::LentGroup;
use srt_protocol::error::{Error, outcome_number};

// A leg is added, handed over in a row of the members' table, of which the membership part is not read. 22 leaves it added.
pub fn add_member(
    group: Group,
    members: &mut [u64],
    pending: &[u64],
    waiting: &[u64],
    history: &[u64],
    sources: &[u64],
    row: &[u64],
    id: u64,
    weight: u64,
) -> Answered<Group, ()>
    ensures { PromisedRow (call_of_row id weight row.now) (parts_of group)
        (tables members.old pending.now waiting.now history.now sources.now)
        row.now
        (showing (parts_of result.«record»)
        (tables members.new pending.now waiting.now history.now sources.now)
        nothing_lent (outcome_number result.answer) no_answer 0) }
{
    if row.len() < ROW {
        return Answered::refused(group, Error::InsufficientBuffer);
    }
    let lent = LentGroup {
        group,
        members,
        pending,
        waiting,
        history,
        sources,
    };
    if let Err(error) = lent.begin() {
        return Answered::refused(group, error);
    }
    let added = add_leg(group.core, group.sending, members, row, id, weight);
    Answered {
        record: Group {
            core: added.record,
            ..group
        },
        answer: added.answer,
    }
}
