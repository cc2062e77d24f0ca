// `queue_event` of the stand-in leg: a lifecycle event into a leg's queue.
// Kept (2): the form for a valid state is a public name, as that of `read_leg`: each makes its own call.
// Kept (5, 6): the calls and their forms are lent flat tables, as C lends them; of a struct of them, with the members that each call changes,
// every clause would name each `&mut` field by a ghost name (docs/DECISIONS.md, "What only reads a table").
// Kept (1): a kind is a word of the C call: any is a legal question, and 2 refuses what is none.
ghost use Rattle.std.specs.Prelude.{◌≡◌, ◌||◌, ◌*◌, ◌≤◌, eqb, length};
ghost use Rattle.srt_protocol.specs.Errors.{outcome_number};
ghost use Rattle.srt_group_model.specs.Legs.{largest_32};
ghost use Rattle.srt_group_model.specs.Validity.{above};
ghost use Rattle.srt_group_model.specs.Guards.{no_answer};
ghost use Rattle.srt_group_model.specs.Calls.{lifecycle_event};
ghost use Rattle.srt_group_model.specs.Lent.{call_queue_event};
ghost use Rattle.srt_connection_queue.specs.Rows.{row_size};
ghost use Rattle.srt_group_shown.specs.Tables.{tables};
ghost use Rattle.srt_group_shown.specs.Ready.{Ready, storing, Performs};
ghost use Rattle.srt_group_shown.specs.Steps.{StepsOver};
ghost use Rattle.srt_group.specs.Made.{parts_of};

use cell_set::CellSet;
use srt_connection::legs::LARGEST_32;
use srt_connection_members::{find, push_at, rows};
use srt_group::Group;
use srt_group_model::{Core, Data, Event};
use srt_protocol::error::{Error, outcome_number};

// Kept (1): a kind that is queued goes into the row as the word it is, so an enum of it would be made and undone at once.

// 2: an id, a kind (0 is data, which is queued with its payload) or a reason out of range.
fn event_unfit(id: u64, kind: u64, reason: u64) -> bool
    ensures { result ≡ (above largest_32 id || (eqb kind 0 || (above 3 kind || above largest_32 reason))) }
{
    (LARGEST_32 < id) | (kind == 0) | (3 < kind) | (LARGEST_32 < reason)
}

// The event, without data.
fn lifecycle_event(kind: u64, reason: u64) -> Event
    ensures { result ≡ lifecycle_event kind reason }
{
    Event {
        kind,
        reason,
        content: Data::default(),
    }
}

// `queue_event` after 5 and 6: 2, 3 or 31, or the event at the end of the leg's queue. It touches the members only.
pub fn push_event(
    core: Core,
    members: &mut [u64],
    id: u64,
    kind: u64,
    reason: u64,
) -> Result<(), Error>
    requires { core.counts.members * row_size ≤ length members.old }
    ensures { StepsOver (call_queue_event id kind reason) core members.old (outcome_number result) members.new }
{
    if event_unfit(id, kind, reason) {
        return Err(Error::OutOfRange);
    }
    let Some(index) = find(rows(members, core.counts.members), id) else {
        return Err(Error::UnknownMember);
    };
    push_at(members, index, lifecycle_event(kind, reason))
}

// `queue_event` for a valid state. The cells in use stay the same; the store is lent for its length, over which the state is valid.
pub fn queue_event(
    group: Group,
    members: &mut [u64],
    pending: &[u64],
    waiting: &[u64],
    history: &[u64],
    sources: &[u64],
    store: &[u8],
    used: &CellSet,
    id: u64,
    kind: u64,
    reason: u64,
) -> Result<(), Error>
    requires { Ready (parts_of group)
        (tables members.old pending.now waiting.now history.now sources.now) (length store.now) used.now }
    ensures { Performs (call_queue_event id kind reason) (parts_of group)
        (tables members.old pending.now waiting.now history.now sources.now)
        (storing store.now) (outcome_number result) no_answer (parts_of group)
        (tables members.new pending.now waiting.now history.now sources.now)
        (storing store.now) used.now }
{
    push_event(group.core, members, id, kind, reason)
}
