// The polls: what is collected is given in order, a waiting event first.
// Kept (5, 6): the tables and the set that a poll moves go one beside the other: of a struct of `&mut` fields each clause names every field's ghost name, and one more says that its slice is still the caller's (docs/DECISIONS.md, "What only reads a table"); what holds of them is one fact, `Usable`.
// Kept (5): what goes by value beside them is the group's record, which a step gives back, its sending, the time, and what this step alone asks; a struct of those would be made for a single call and is no plainer.
ghost use Rattle.std.specs.Prelude.{◌≡◌, ℕ, ◌≤◌, ◌*◌, length};
ghost use Rattle.srt_group_model.specs.Sound.{SendingFit};
ghost use Rattle.srt_group_model.specs.Polls.{poll_event, poll_until_data, poll_data_bounded};
ghost use Rattle.srt_group_shown.specs.Tables.{receive_tables};
ghost use Rattle.srt_group_collecting.specs.Leaves.{sends, Usable};
ghost use Rattle.srt_group_collecting.specs.Follows.{Follows};
ghost use Rattle.srt_group_polls.specs.Refresh.{Known, Refreshes};
ghost use Rattle.srt_group_model.specs.Run.{refresh_states, refresh_pending_states};
ghost use Rattle.srt_connection_queue.specs.Rows.{row_size};
ghost use Rattle.srt_group_polls.specs.EventPoll.{give_next};
ghost use Rattle.srt_group_polls.specs.DataPoll.{PollsData, Passes};
ghost use Rattle.srt_group_skip.specs.Skip.{PollsFrom};

use crate::refresh::{refresh_all_states, refresh_pending_states};
use crate::straight::{Straight, give_straight, next_straight};
use cell_set::CellSet;
use srt_connection_members::rows;
use srt_group_collecting::collecting::{
    Gathered, MAX_VISITS, collect_until_held, flag, has_pending_data,
};
use srt_group_delivery::delivery::{GroupEvent, Poll, give_waiting};
use srt_group_members::quiet::is_quiet;
use srt_group_model::{Core, Packet, Sending};
use srt_group_skip::skip::deliver_next;
use srt_group_tables::pending;
use srt_protocol::time::Timestamp;

// What a data poll gives: a packet or none, whether it should be called again at once, and the group's record after it.
#[derive(Clone, Copy)]
pub struct DataPoll {
    pub gave: Option<Packet>,
    // Kept (1): the record's word (the C interface), which a poll without a packet hands on as it stands.
    pub continuation: u64,
    pub core: Core,
}

// The packets that one event poll collects, at most.
const DELIVERY_BUDGET: u64 = 32;

// ---- the event poll

// The states are refreshed, if `quiet` does not say that it would change nothing.
fn refresh_unless_quiet(core: Core, sending: Sending, members: &mut [u64], quiet: bool) -> Core
    requires long { core.counts.members * row_size ≤ length members.old }
    requires known { Known quiet core members.old }
    ensures { Refreshes (sends sending) refresh_states core
        members.old result members.new }
{
    if quiet {
        return core;
    }
    refresh_all_states(core, sending, members)
}

// The same of the part of a refresh that stands before the visits.
// Kept (2): as one with the refresh, over a closure, a clause would say of the closure what each refresh promises: longer than the two.
fn settle_unless_quiet(core: Core, sending: Sending, members: &mut [u64], quiet: bool) -> Core
    requires long { core.counts.members * row_size ≤ length members.old }
    requires known { Known quiet core members.old }
    ensures { Refreshes (sends sending) refresh_pending_states core
        members.old result members.new }
{
    if quiet {
        return core;
    }
    refresh_pending_states(core, sending, members)
}

// A waiting event; if none waits, the next packet. `quiet` says that then a refresh would change nothing.
fn give_next(
    gathered: Gathered,
    sending: Sending,
    members: &mut [u64],
    pending: &mut [u64],
    waiting: &mut [u64],
    used: &mut CellSet,
    time: Timestamp,
    quiet: bool,
) -> Poll
    requires usable { Usable gathered.core (receive_tables members.old pending.old waiting.old) }
    requires sending_fit { SendingFit sending }
    requires known { gathered.core.counts.waiting ≤ 0 → Known quiet gathered.core members.old }
    ensures polls_from { PollsFrom (sends sending) (give_next time.0) gathered.core gathered.budget
        (receive_tables members.old pending.old waiting.old) result
        (receive_tables members.new pending.new waiting.new) }
    ensures follows { Follows gathered.core members.old pending.old used.old
        result.core members.new pending.new used.new }
{
    let here = gathered.core;
    if 0 < here.counts.waiting {
        return give_waiting(here, waiting);
    }
    let refreshed = refresh_unless_quiet(here, sending, members, quiet);
    deliver_next(
        refreshed,
        members,
        pending,
        waiting,
        used,
        time,
        gathered.budget,
    )
}

// The states are refreshed, events collected, and a waiting event or the next packet given. `quiet` says that a refresh would change nothing.
// What the visits take from a quiet group leaves it quiet, unless an event waits then: one test serves both refreshes.
fn poll_collecting(
    mut core: Core,
    sending: Sending,
    members: &mut [u64],
    pending: &mut [u64],
    waiting: &mut [u64],
    used: &mut CellSet,
    time: Timestamp,
    quiet: bool,
) -> Poll
    requires usable { Usable core (receive_tables members.old pending.old waiting.old) }
    requires sending_fit { SendingFit sending }
    requires known { Known quiet core members.old }
    ensures by_index { (budget : ℕ) → PollsFrom (sends sending) (poll_event time.0) core budget
        (receive_tables members.old pending.old waiting.old) result
        (receive_tables members.new pending.new waiting.new) }
    ensures follows { Follows core members.old pending.old used.old
        result.core members.new pending.new used.new }
{
    core.visit.continuation = 0;
    let begun = settle_unless_quiet(core, sending, members, quiet);
    let gathered = collect_until_held(begun, members, pending, waiting, used, DELIVERY_BUDGET);
    give_next(
        gathered, sending, members, pending, waiting, used, time, quiet,
    )
}

// A packet that is next in turn and at the base is given straight; else the legs are visited.
#[tactic(auto, using(srt_group_delivery::specs::Laws::Delivery::deliverable))]
pub fn poll_event(
    core: Core,
    sending: Sending,
    members: &mut [u64],
    pending: &mut [u64],
    waiting: &mut [u64],
    used: &mut CellSet,
    time: Timestamp,
) -> Poll
    requires usable { Usable core (receive_tables members.old pending.old waiting.old) }
    requires sending_fit { SendingFit sending }
    ensures by_index { (budget : ℕ) → PollsFrom (sends sending) (poll_event time.0) core budget
        (receive_tables members.old pending.old waiting.old) result
        (receive_tables members.new pending.new waiting.new) }
    ensures follows { Follows core members.old pending.old used.old
        result.core members.new pending.new used.new }
{
    let quiet = is_quiet(rows(members, core.counts.members), core.mode);
    let next = next_straight(core, members, pending, quiet);
    if let Some(Straight { index, packet }) = next {
        return give_straight(core, members, used, index, packet);
    }
    poll_collecting(core, sending, members, pending, waiting, used, time, quiet)
}

// ---- the data poll

// What the data poll gives if it ends with this event poll; an event is passed over.
#[tactic(auto, using(crate::specs::Laws::DataPoll::event_passed))]
fn pass_event(poll: Poll) -> Option<DataPoll>
    ensures { Passes poll result }
{
    let core = poll.core;
    match poll.gave {
        None => Some(DataPoll {
            gave: None,
            continuation: core.visit.continuation,
            core,
        }),
        Some(GroupEvent::Event(_)) => None,
        Some(GroupEvent::Packet(packet)) => Some(DataPoll {
            gave: Some(packet),
            continuation: 0,
            core,
        }),
    }
}

// Event polls until one gives no event, at most so many; after the last there is no packet, and the continuation is asked for.
fn poll_until_data(
    core: Core,
    sending: Sending,
    members: &mut [u64],
    pending: &mut [u64],
    waiting: &mut [u64],
    used: &mut CellSet,
    time: Timestamp,
    visits: usize,
) -> DataPoll
    requires usable { Usable core (receive_tables members.old pending.old waiting.old) }
    requires sending_fit { SendingFit sending }
    ensures polls_data { PollsData (sends sending) (poll_until_data time.0 visits) core
        (receive_tables members.old pending.old waiting.old) result
        (receive_tables members.new pending.new waiting.new) }
    ensures follows { Follows core members.old pending.old used.old
        result.core members.new pending.new used.new }
{
    let mut here = core;
    for _visit in 0..visits {
        let poll = poll_event(here, sending, members, pending, waiting, used, time);
        if let Some(answer) = pass_event(poll) {
            return answer;
        }
        here = poll.core;
    }
    DataPoll {
        gave: None,
        continuation: 1,
        core: here,
    }
}

// A packet, passing over at most so many events; with none allowed there is no packet, and nothing changes.
pub fn poll_data_bounded(
    core: Core,
    sending: Sending,
    members: &mut [u64],
    pending: &mut [u64],
    waiting: &mut [u64],
    used: &mut CellSet,
    time: Timestamp,
    max_events: usize,
) -> DataPoll
    requires usable { Usable core (receive_tables members.old pending.old waiting.old) }
    requires sending_fit { SendingFit sending }
    ensures polls_data { PollsData (sends sending) (poll_data_bounded time.0 max_events) core
        (receive_tables members.old pending.old waiting.old) result
        (receive_tables members.new pending.new waiting.new) }
    ensures follows { Follows core members.old pending.old used.old
        result.core members.new pending.new used.new }
{
    if max_events == 0 {
        let continuation = flag(has_pending_data(core));
        return DataPoll {
            gave: None,
            continuation,
            core,
        };
    }
    let visits = max_events.min(MAX_VISITS);
    poll_until_data(core, sending, members, pending, waiting, used, time, visits)
}
