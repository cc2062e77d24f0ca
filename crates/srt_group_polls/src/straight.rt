// A packet that is next in turn and at the base is given straight: nearly every packet that arrives in order. To hold it and to deliver it at once
// would leave the same.
// Kept (5): this, the give-up test and `base_stays` read core, members and pending; each caller would write a struct of the three, of five lines, for its one call.
ghost use Rattle.std.specs.Prelude.{◌≡◌, ◌&&◌, [], ◌∷◌, ◌*◌, ◌≤◌, ◌<◌, eqb, length};
ghost use Rattle.srt_group_model.specs.Validity.{max_members};
ghost use Rattle.srt_connection_queue.specs.Rows.{row_size};
ghost use Rattle.srt_group_shown.specs.Tables.{receive_tables};
ghost use Rattle.cell_set.specs.Sets.{Freed};
ghost use Rattle.srt_group_delivery.specs.Delivery.{Deliverable};
ghost use Rattle.srt_group_polls.specs.Refresh.{Known};
ghost use Rattle.srt_group_polls.specs.Straight.{goes, Given};

use cell_set::{CellSet, free};
use srt_connection_members::{
    advance_receive_sequence_of_all, pop_at, release_data_reservation_at, row, rows,
};
use srt_connection_queue::queue::front;
use srt_connection_queue::rows::member_id;
use srt_group_collecting::collecting::is_held;
use srt_group_delivery::delivery::{GroupEvent, Poll};
use srt_group_members::collecting::in_turn;
use srt_group_model::{Core, Event, Packet};
use srt_protocol::srt_packet::word_further;

// A packet that can be given straight, with the index of its member.
#[derive(Clone, Copy)]
pub struct Straight {
    pub index: usize,
    pub packet: Packet,
}

// Data of this sequence, alone in its run.
fn is_alone_at(event: Event, sequence: u64) -> bool
    ensures { result ≡ (eqb event.kind 0 && (eqb event.content.sequence sequence && eqb event.content.count 1)) }
{
    let content = event.content;
    event.is_data() & ((content.sequence == sequence) & (content.count == 1))
}

// The packet at the base, if it is next in turn, alone in its run and not held, no event waits, and `quiet` says that a refresh would change nothing.
#[tactic(auto, using(crate::specs::Laws::StraightPolls::turn_has_row))]
pub fn next_straight(core: Core, members: &[u64], pending: &[u64], quiet: bool) -> Option<Straight>
    requires deliverable { Deliverable core members.now pending.now }
    requires known { Known quiet core members.now }
    ensures { goes result core members.now pending.now }
{
    if !quiet {
        return None;
    }
    if 0 < core.counts.waiting {
        return None;
    }
    let base = core.receiving.base()?;
    let index = in_turn(rows(members, core.counts.members), core.visit.round)?;
    let row = row(members, index);
    let event = front(row)?;
    if !is_alone_at(event, base) {
        return None;
    }
    if is_held(pending, core.counts.pending, base) {
        return None;
    }
    Some(Straight {
        index,
        packet: Packet {
            member: member_id(row),
            owned: 0,
            content: event.content,
        },
    })
}

// The packet goes off its queue and its leg's reservation, its cell is free, and the base passes its run.
#[tactic(auto, using(crate::specs::Laws::StraightPolls::given_all))]
pub fn give_straight(
    mut core: Core,
    members: &mut [u64],
    used: &mut CellSet,
    index: usize,
    packet: Packet,
) -> Poll
    requires index_lt_members { (index < core.counts.members) × (core.counts.members ≤ max_members) }
    requires row_size_in_bounds { core.counts.members * row_size ≤ length members.old }
    ensures given { Given index packet core members.old result members.new }
    ensures freed { Freed (packet.content.cell ∷ []) used.old used.new }
{
    let content = packet.content;
    let count = core.counts.members;
    let next = word_further(content.sequence, content.count);
    pop_at(members, index);
    release_data_reservation_at(members, index, content.count);
    free(used, content.cell as usize);
    advance_receive_sequence_of_all(members, count, next);
    let round = (index + 1) % count;
    core.visit.continuation = 0;
    core.visit.round = round;
    core.receiving.set_base(next);
    Poll {
        gave: Some(GroupEvent::Packet(packet)),
        core,
    }
}
