// Whose queue is next: the members take turns, from the round's place on and then from the first.
ghost use Rattle.std.specs.Prelude.{◌≡◌, not};
ghost use Rattle.srt_group_model.specs.Tools.{place_of};
ghost use Rattle.srt_group_model.specs.Collecting.{in_turn};
ghost use Rattle.srt_connection_queue.specs.Rows.{member_of};
ghost use Rattle.srt_connection_members.specs.Members.{members_in};
ghost use Rattle.srt_group_members.specs.Turns.{has_event};

use srt_connection_queue::queue::queue_is_empty;
use srt_connection_queue::rows::Row;

#[tactic(auto, unfolding(crate::specs::Turns::has_event))]
fn has_event(row: &Row) -> bool
    ensures { result ≡ has_event (member_of row.now) }
{
    !queue_is_empty(row)
}

fn first_with_event(rows: &[Row]) -> Option<usize>
    ensures { result ≡ place_of has_event (members_in rows.now) }
{
    rows.iter().position(has_event)
}

// The first member with a queue that is not empty, from the round's place on, and then from the first.
#[tactic(auto, using(crate::specs::Laws::Turns::turn_later, crate::specs::Laws::Turns::turn_again, crate::specs::Laws::Turns::event_inside))]
pub fn in_turn(rows: &[Row], round: usize) -> Option<usize>
    ensures { result ≡ in_turn round (members_in rows.now) }
{
    let (before, later) = rows.split_at(round.min(rows.len()));
    first_with_event(later)
        .map(|place| before.len() + place)
        .or_else(|| first_with_event(before))
}
