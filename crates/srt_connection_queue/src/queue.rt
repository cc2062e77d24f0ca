// A leg's queue of events: a ring of MAX_QUEUED places in its row. Its front stands at the ring's start, read modulo that.
ghost use Rattle.std.specs.Prelude.{◌≡◌, length, ◌<◌};
ghost use Rattle.srt_group_model.specs.Tools.{at_place, is_empty};
ghost use Rattle.srt_connection_queue.specs.Rows.{row_size, member_of, Kept};
ghost use Rattle.srt_connection_queue.specs.Queue.{Pushed, Polled, popped, cleared, budget_after};

use crate::rows::{MAX_QUEUED, Ring, Row, event_part, put_event_part, put_ring, ring_of};
use srt_group_model::Event;
use srt_protocol::error::Error;

// What polling a leg gives: nothing, nothing with the continuation asked for, or the front event and what is left of the
// budget.
#[derive(Clone, Copy)]
pub enum LegPoll {
    Nothing,
    Continuation,
    Event { event: Event, budget: u64 },
}

#[tactic(auto, using(crate::specs::Laws::Queue::length_is))]
pub fn queue_length(row: &Row) -> u64
    ensures { result ≡ length (member_of row.now).queue }
{
    ring_of(row).length
}

#[tactic(auto, using(crate::specs::Laws::Queue::empty_is))]
pub fn queue_is_empty(row: &Row) -> bool
    ensures { result ≡ is_empty (member_of row.now).queue }
{
    ring_of(row).length == 0
}

#[tactic(auto, using(crate::specs::Laws::Queue::front_none, crate::specs::Laws::Queue::front_is))]
pub fn front(row: &Row) -> Option<Event>
    ensures { result ≡ at_place 0 (member_of row.now).queue }
{
    let ring = ring_of(row);
    if ring.length == 0 {
        return None;
    }
    Some(event_part(row, ring.slot(0)))
}

// The front event goes; an empty queue stays.
#[tactic(auto, using(crate::specs::Laws::Queue::popped_empty, crate::specs::Laws::Queue::popped_is))]
pub fn pop(row: &mut Row)
    ensures { Kept row.new (popped (member_of row.old)) }
{
    let ring = ring_of(row);
    if ring.length == 0 {
        return;
    }
    let start = (ring.start % MAX_QUEUED + 1) % MAX_QUEUED;
    let length = ring.length - 1;
    put_ring(row, Ring { start, length });
}

// An event behind the others; a full queue refuses it (code 31), and stays.
#[tactic(auto, using(crate::specs::Laws::Queue::push_accepted))]
pub fn push(row: &mut Row, event: Event) -> Result<(), Error>
    ensures { Pushed (member_of row.old) event result row.new }
{
    let ring = ring_of(row);
    if MAX_QUEUED <= ring.length {
        return Err(Error::QueueFull);
    }
    let start = ring.start;
    let length = ring.length + 1;
    put_event_part(row, ring.slot(ring.length), event);
    put_ring(row, Ring { start, length });
    Ok(())
}

// The queue is dropped.
#[tactic(auto, using(crate::specs::Laws::Queue::cleared_is))]
pub fn clear(row: &mut Row)
    ensures { Kept row.new (cleared (member_of row.old)) }
{
    put_ring(
        row,
        Ring {
            start: 0,
            length: 0,
        },
    );
}

// What is left of a budget that is not spent, once this event was given: data lowers it by one.
#[tactic(auto, using(srt_group_model::specs::Laws::Reason::when_true, srt_group_model::specs::Laws::Reason::when_false))]
fn budget_after(event: Event, budget: u64) -> u64
    requires { 0 < budget }
    ensures { result ≡ budget_after event budget }
{
    budget - event.is_data() as u64
}

// One event of the leg. An empty queue gives nothing; with the budget spent and an event in front, the continuation is asked
// for; else the front event is given and goes.
pub fn poll_event_for_group(row: &mut Row, budget: u64) -> LegPoll
    ensures { Polled (member_of row.old) budget result row.new }
{
    let first = front(row);
    let Some(event) = first else {
        return LegPoll::Nothing;
    };
    if budget == 0 {
        return LegPoll::Continuation;
    }
    pop(row);
    LegPoll::Event {
        event,
        budget: budget_after(event, budget),
    }
}
