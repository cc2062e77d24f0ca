// `remove_member_connection` and `remove_member` with their refusals, over the record and the lent tables: 5 and 6, and then what follows
// them.
// Kept (5, 6): members and pending packets are lent to change, as flat words: a struct of `&mut` fields needs a clause for each field's ghost name (docs/DECISIONS.md).
ghost use Rattle.srt_protocol.specs.Errors.{outcome_number};
ghost use Rattle.srt_group_model.specs.Lent.{call_remove_member_connection};
ghost use Rattle.srt_group_shown.specs.Tables.{tables};
ghost use Rattle.srt_group.specs.Made.{parts_of};
ghost use Rattle.srt_group_refusals.specs.Promised.{nothing_lent, showing, PromisedRow};
ghost use Rattle.srt_group_removal.specs.Connection.{RowAfter, given_back, PromisedDropping};

use crate::connection::remove_named;
use cell_set::WORDS;
use srt_connection_queue::rows::ROW;
use srt_group::{Answered, Group};
use srt_group_refusals::refusals::LentGroup;
use srt_protocol::error::{Error, outcome_number};

// A member is removed, and its leg given back in the lent row: 5 too where that is shorter than a row of the members' table.
pub fn remove_member_connection(
    group: Group,
    members: &mut [u64],
    pending: &mut [u64],
    waiting: &[u64],
    history: &[u64],
    sources: &[u64],
    row: &mut [u64],
    id: u64,
) -> Answered<Group, ()>
    ensures promised_row { PromisedRow (call_remove_member_connection id) (parts_of group)
        (tables members.old pending.old waiting.now history.now sources.now)
        row.old
        (showing (parts_of result.«record»)
        (tables members.new pending.new waiting.now history.now sources.now)
        nothing_lent (outcome_number result.answer) (given_back result.answer row.new) 0) }
    ensures row_after { RowAfter result.answer row.old row.new }
{
    if row.len() < ROW {
        return Answered::refused(group, Error::InsufficientBuffer);
    }
    let lent = LentGroup {
        group,
        members,
        pending,
        waiting,
        history,
        sources,
    };
    if let Err(error) = lent.begin() {
        return Answered::refused(group, error);
    }
    let mut used = [0; WORDS];
    let removed = remove_named(group.core, members, pending, row, &mut used, id);
    Answered {
        record: Group {
            core: removed.record,
            ..group
        },
        answer: removed.answer,
    }
}

// A member is removed, and its leg dropped.
pub fn remove_member(
    group: Group,
    members: &mut [u64],
    pending: &mut [u64],
    waiting: &[u64],
    history: &[u64],
    sources: &[u64],
    id: u64,
) -> Answered<Group, ()>
    ensures { PromisedDropping id (parts_of group)
        (tables members.old pending.old waiting.now history.now sources.now)
        result.answer (parts_of result.«record»)
        (tables members.new pending.new waiting.now history.now sources.now) }
{
    let mut row = [0; ROW];
    remove_member_connection(
        group, members, pending, waiting, history, sources, &mut row, id,
    )
}
