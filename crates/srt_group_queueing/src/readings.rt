// `read_leg` of the stand-in leg: a number into a field of a leg.
// Kept (2): the form for a valid state is a public name, as that of `queue_event`: each makes its own call.
// Kept (5, 6): the calls and their forms are lent flat tables, as C lends them; of a struct of them, with the members that each call changes,
// every clause would name each `&mut` field by a ghost name (docs/DECISIONS.md, "What only reads a table").
// Kept (1): field and number are words of the C call: any is a legal question, and 2 refuses what is none.
ghost use Rattle.std.specs.Prelude.{◌≡◌, ◌||◌, ◌*◌, ◌≤◌, length};
ghost use Rattle.srt_protocol.specs.Errors.{outcome_number};
ghost use Rattle.srt_group_model.specs.Legs.{largest_32};
ghost use Rattle.srt_group_model.specs.Validity.{above};
ghost use Rattle.srt_group_model.specs.Guards.{no_answer};
ghost use Rattle.srt_group_model.specs.Calls.{reading_out_of_range};
ghost use Rattle.srt_group_model.specs.Lent.{call_read_leg};
ghost use Rattle.srt_connection_queue.specs.Rows.{row_size};
ghost use Rattle.srt_group_shown.specs.Tables.{tables};
ghost use Rattle.srt_group_shown.specs.Ready.{Ready, storing, Performs};
ghost use Rattle.srt_group_shown.specs.Steps.{StepsOver};
ghost use Rattle.srt_group.specs.Made.{parts_of};

use cell_set::CellSet;
use srt_connection::legs::LARGEST_32;
use srt_connection::readings::{goes_back, read_field, reading_out_of_range};
use srt_connection_members::{find, leg_at, put_leg_at, rows};
use srt_group::Group;
use srt_group_model::Core;
use srt_protocol::error::{Error, outcome_number};

// Kept (1): the field goes on as the word of the C call: the definitions of a reading that the contracts cite are over any word. Over a `Field` made here each of
// the three steps would go from its row of `readings` back to that word by a law of its own, and is no plainer.

// 2: an id, a field or a number out of range.
fn reading_unfit(id: u64, field: u64, number: u64) -> bool
    ensures { result ≡ (above largest_32 id || reading_out_of_range field number) }
{
    (LARGEST_32 < id) | reading_out_of_range(field, number)
}

// `read_leg` after 5 and 6: 2, 3 or 32, or the number in the leg's field. It touches the members only.
pub fn put_reading(
    core: Core,
    members: &mut [u64],
    id: u64,
    field: u64,
    number: u64,
) -> Result<(), Error>
    requires { core.counts.members * row_size ≤ length members.old }
    ensures { StepsOver (call_read_leg id field number) core members.old (outcome_number result) members.new }
{
    if reading_unfit(id, field, number) {
        return Err(Error::OutOfRange);
    }
    let Some(index) = find(rows(members, core.counts.members), id) else {
        return Err(Error::UnknownMember);
    };
    let leg = leg_at(members, index);
    if goes_back(leg, field, number) {
        return Err(Error::OutOfTurn);
    }
    put_leg_at(members, index, read_field(leg, field, number));
    Ok(())
}

// `read_leg` for a valid state. The cells in use stay the same; the store is lent for its length, over which the state is valid.
pub fn read_leg(
    group: Group,
    members: &mut [u64],
    pending: &[u64],
    waiting: &[u64],
    history: &[u64],
    sources: &[u64],
    store: &[u8],
    used: &CellSet,
    id: u64,
    field: u64,
    number: u64,
) -> Result<(), Error>
    requires { Ready (parts_of group)
        (tables members.old pending.now waiting.now history.now sources.now) (length store.now) used.now }
    ensures { Performs (call_read_leg id field number) (parts_of group)
        (tables members.old pending.now waiting.now history.now sources.now)
        (storing store.now) (outcome_number result) no_answer (parts_of group)
        (tables members.new pending.now waiting.now history.now sources.now)
        (storing store.now) used.now }
{
    put_reading(group.core, members, id, field, number)
}
