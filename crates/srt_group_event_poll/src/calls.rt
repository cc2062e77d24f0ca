// `poll_event` with its refusals, over the record and the lent tables: 5 and 6, and then the form for a valid state.
// Kept (5, 6): the three tables that a poll moves go beside the two that it reads: of a struct of `&mut` fields each clause names every field's ghost name, and one more says that its slice is still the caller's (docs/DECISIONS.md, "What only reads a table").
ghost use Rattle.srt_group_model.specs.Lent.{call_poll_event};
ghost use Rattle.srt_group_shown.specs.Tables.{tables};
ghost use Rattle.srt_group_shown.specs.Ready.{lending};
ghost use Rattle.srt_group.specs.Made.{parts_of};
ghost use Rattle.srt_group_refusals.specs.Promised.{showing, Promised};
ghost use Rattle.srt_group_event_poll.specs.Answers.{event_number, event_answer};

use crate::polls;
use cell_set::{CellSet, WORDS};
use srt_group::{Answered, Group};
use srt_group_delivery::delivery::GroupEvent;
use srt_group_refusals::refusals::LentGroup;
use srt_protocol::time::Timestamp;

// The next event, or the next packet in order, its payload written from byte 12 of the output on.
pub fn poll_event(
    group: Group,
    members: &mut [u64],
    pending: &mut [u64],
    waiting: &mut [u64],
    history: &[u64],
    sources: &[u64],
    store: &[u8],
    output: &mut [u8],
    time: Timestamp,
) -> Answered<Group, Option<GroupEvent>>
    ensures { Promised (call_poll_event time.0) (parts_of group)
        (tables members.old pending.old waiting.old history.now sources.now)
        (lending store.now output.old)
        (showing (parts_of result.record)
        (tables members.new pending.new waiting.new history.now sources.now)
        (lending store.now output.new) (event_number result.answer) (event_answer result.answer) 0) }
{
    let mut used: CellSet = [0; WORDS];
    let lent = LentGroup {
        group,
        members,
        pending,
        waiting,
        history,
        sources,
    };
    let begun = lent.begin_poll(store.len(), output.len(), &mut used);
    if let Err(error) = begun {
        return Answered::refused(group, error);
    }
    let poll = polls::poll_event(
        group, members, pending, waiting, history, sources, store, output, &mut used, time,
    );
    Answered {
        record: Group {
            core: poll.core,
            ..group
        },
        answer: Ok(poll.gave),
    }
}
