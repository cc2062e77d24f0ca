// The stand-in's calls with their refusals, over the record and the lent tables: 5 and 6, and then what follows them.
// Kept (2): public names; each makes its own call behind 5 and 6.
// Kept (5, 6): the calls and their forms are lent flat tables, as C lends them; of a struct of them, with the members that each call changes,
// every clause would name each `&mut` field by a ghost name (docs/DECISIONS.md, "What only reads a table").
// Kept (1): kind, field and number are words of the C call: any is a legal question, and 2 refuses what is none.
ghost use Rattle.srt_protocol.specs.Errors.{outcome_number};
ghost use Rattle.srt_group_model.specs.Guards.{no_answer};
ghost use Rattle.srt_group_model.specs.Lent.{call_queue_data, call_queue_event, call_read_leg};
ghost use Rattle.srt_group_shown.specs.Tables.{tables};
ghost use Rattle.srt_group_shown.specs.Ready.{storing};
ghost use Rattle.srt_group.specs.Made.{parts_of};
ghost use Rattle.srt_group_refusals.specs.Promised.{nothing_lent, showing, Promised};

use crate::events::push_event;
use crate::queueing;
use crate::readings::put_reading;
use cell_set::WORDS;
use srt_group::Group;
use srt_group_model::Data;
use srt_group_refusals::refusals::LentGroup;
use srt_protocol::error::{Error, outcome_number};

// A packet at the end of a leg's queue, its payload in the lowest free cell of the store. The record stays as it was.
pub fn queue_data(
    group: Group,
    members: &mut [u64],
    pending: &[u64],
    waiting: &[u64],
    history: &[u64],
    sources: &[u64],
    store: &mut [u8],
    id: u64,
    content: Data,
    payload: &[u8],
) -> Result<(), Error>
    ensures { Promised (call_queue_data id content payload.now) (parts_of group)
        (tables members.old pending.now waiting.now history.now sources.now)
        (storing store.old)
        (showing (parts_of group)
        (tables members.new pending.now waiting.now history.now sources.now)
        (storing store.new) (outcome_number result) no_answer 0) }
{
    let mut used = [0; WORDS];
    let lent = LentGroup {
        group,
        members,
        pending,
        waiting,
        history,
        sources,
    };
    lent.begin_stored(store.len(), &mut used)?;
    queueing::queue_data(
        group, members, pending, waiting, history, sources, store, &mut used, id, content, payload,
    )
}

// A lifecycle event at the end of a leg's queue. The record stays as it was.
pub fn queue_event(
    group: Group,
    members: &mut [u64],
    pending: &[u64],
    waiting: &[u64],
    history: &[u64],
    sources: &[u64],
    id: u64,
    kind: u64,
    reason: u64,
) -> Result<(), Error>
    ensures { Promised (call_queue_event id kind reason) (parts_of group)
        (tables members.old pending.now waiting.now history.now sources.now)
        nothing_lent
        (showing (parts_of group)
        (tables members.new pending.now waiting.now history.now sources.now)
        nothing_lent (outcome_number result) no_answer 0) }
{
    let lent = LentGroup {
        group,
        members,
        pending,
        waiting,
        history,
        sources,
    };
    lent.begin()?;
    push_event(group.core, members, id, kind, reason)
}

// A number into a field of a leg. The record stays as it was.
pub fn read_leg(
    group: Group,
    members: &mut [u64],
    pending: &[u64],
    waiting: &[u64],
    history: &[u64],
    sources: &[u64],
    id: u64,
    field: u64,
    number: u64,
) -> Result<(), Error>
    ensures { Promised (call_read_leg id field number) (parts_of group)
        (tables members.old pending.now waiting.now history.now sources.now)
        nothing_lent
        (showing (parts_of group)
        (tables members.new pending.now waiting.now history.now sources.now)
        nothing_lent (outcome_number result) no_answer 0) }
{
    let lent = LentGroup {
        group,
        members,
        pending,
        waiting,
        history,
        sources,
    };
    lent.begin()?;
    put_reading(group.core, members, id, field, number)
}
