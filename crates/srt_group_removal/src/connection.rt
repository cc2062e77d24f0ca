// `remove_member_connection` and `remove_member` after 5 and 6, and their forms for a valid state. The leg is given back in a lent row
// of the members' table.
// Kept (5, 6): members, pending packets, row and cells are lent to change: a struct of `&mut` fields needs a clause for each field's ghost name (docs/DECISIONS.md).
ghost use Rattle.std.specs.Prelude.{length};
ghost use Rattle.srt_protocol.specs.Errors.{outcome_number};
ghost use Rattle.srt_group_model.specs.Lent.{call_remove_member_connection};
ghost use Rattle.srt_connection_members.specs.Members.{HasRow};
ghost use Rattle.srt_group.specs.Made.{parts_of};
ghost use Rattle.srt_group_shown.specs.Tables.{parts, tables};
ghost use Rattle.srt_group_shown.specs.Ready.{Ready, storing, Performs};
ghost use Rattle.srt_group_collecting.specs.Follows.{Follows};
ghost use Rattle.srt_group_removal.specs.Connection.{AnyRemovable, GivesBack, RowAfter, given_back, StepsRemoval, PerformsDropping};

use crate::removal::remove_member_at;
use cell_set::CellSet;
use srt_connection::legs::LARGEST_32;
use srt_connection_members::{clear_at, find, put_leg_at, rows};
use srt_connection_queue::rows::ROW;
use srt_group::{Answered, Group};
use srt_group_model::{Core, Leg};
use srt_protocol::error::{Error, outcome_number};

// The host's row may be longer than a row, and what lies behind it stays: so it is changed as a table of rows.

// A leg into the first of the lent rows, with an empty queue. The row's membership stays: it is not the leg's.
fn give_back(row: &mut [u64], leg: Leg)
    requires { HasRow 0 row.old }
    ensures { GivesBack leg row.old row.new }
{
    put_leg_at(row, 0, leg);
    clear_at(row, 0);
}

// `remove_member_connection` after 5 and 6: 2 or 3, or the member is removed and its leg stands in the row.
#[tactic(auto, using(crate::specs::Laws::Connection::unfit_removal, crate::specs::Laws::Connection::named_removed, srt_connection_members::specs::Laws::Members::found_below))]
pub fn remove_named(
    core: Core,
    members: &mut [u64],
    pending: &mut [u64],
    row: &mut [u64],
    used: &mut CellSet,
    id: u64,
) -> Answered<Core, ()>
    requires any_removable { AnyRemovable core members.old pending.old }
    requires has_row { HasRow 0 row.old }
    ensures steps_removal { StepsRemoval id core members.old pending.old
        result members.new pending.new row.new }
    ensures row_after { RowAfter result.answer row.old row.new }
    ensures follows { Follows core members.old pending.old used.old
        result.«record» members.new pending.new used.new }
{
    // Kept (2): 2, then 3, in the order of the call's own definition; a function of the two lines is no plainer.
    if LARGEST_32 < id {
        return Answered::refused(core, Error::OutOfRange);
    }
    let Some(index) = find(rows(members, core.counts.members), id) else {
        return Answered::refused(core, Error::UnknownMember);
    };
    let removed = remove_member_at(core, members, pending, used, index);
    give_back(row, removed.leg);
    Answered {
        record: removed.core,
        answer: Ok(()),
    }
}

// `remove_member_connection` for a valid state. The store is lent for its length, over which the state is valid.
pub fn remove_member_connection(
    group: Group,
    members: &mut [u64],
    pending: &mut [u64],
    waiting: &[u64],
    history: &[u64],
    sources: &[u64],
    store: &[u8],
    row: &mut [u64],
    used: &mut CellSet,
    id: u64,
) -> Answered<Core, ()>
    requires ready { Ready (parts_of group)
        (tables members.old pending.old waiting.now history.now sources.now) (length store.now) used.old }
    requires has_row { HasRow 0 row.old }
    ensures performs { Performs (call_remove_member_connection id) (parts_of group)
        (tables members.old pending.old waiting.now history.now sources.now)
        (storing store.now) (outcome_number result.answer) (given_back result.answer row.new)
        (parts group.identity result.«record» group.sending group.ring)
        (tables members.new pending.new waiting.now history.now sources.now)
        (storing store.now) used.new }
    ensures row_after { RowAfter result.answer row.old row.new }
{
    remove_named(group.core, members, pending, row, used, id)
}

// `remove_member` for a valid state: the same, and the leg is dropped.
pub fn remove_member(
    group: Group,
    members: &mut [u64],
    pending: &mut [u64],
    waiting: &[u64],
    history: &[u64],
    sources: &[u64],
    store: &[u8],
    used: &mut CellSet,
    id: u64,
) -> Answered<Core, ()>
    requires { Ready (parts_of group)
        (tables members.old pending.old waiting.now history.now sources.now) (length store.now) used.old }
    ensures { PerformsDropping id (parts_of group)
        (tables members.old pending.old waiting.now history.now sources.now)
        (storing store.now) (outcome_number result.answer) (parts group.identity result.«record» group.sending group.ring)
        (tables members.new pending.new waiting.now history.now sources.now)
        (storing store.now) used.new }
{
    let mut row = [0; ROW];
    remove_member_connection(
        group, members, pending, waiting, history, sources, store, &mut row, used, id,
    )
}
