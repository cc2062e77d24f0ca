// Document 01's code 6: a reserved sum unequal to its packets' counts. What a queued event counts, and the account that a held packet
// is added to.
ghost use Rattle.std.specs.Prelude.{◌≡◌, false};
ghost use Rattle.srt_group_model.specs.Tools.{each, counted};
ghost use Rattle.srt_group_model.specs.Members.{id_of};
ghost use Rattle.srt_group_model.specs.Cells.{is_data};
ghost use Rattle.srt_group_model.specs.Validity.{one_twice};
ghost use Rattle.srt_connection_members.specs.Members.{members_in};
ghost use Rattle.srt_group_rules.specs.Sums.{event_count, account_place};

use crate::ids::{PLACES, find_by_place};
use srt_connection_members::MAX_MEMBERS;
use srt_connection_queue::rows::Row;
use srt_group_model::{Event, Packet};

// The place of the group's own account, behind those of the members.
pub const OWN_PLACE: usize = MAX_MEMBERS;

#[tactic(auto, using(srt_group_model::specs::Laws::Reason::when_true, srt_group_model::specs::Laws::Reason::when_false))]
pub fn data_count(event: Event) -> u64
    ensures { result ≡ counted is_data event_count event }
{
    if event.is_data() {
        return event.content.count;
    }
    0
}

// The place of the account that a packet is added to.
// Kept (5): the table and that the ids are distinct are of the same rows; as in ids.rt a type of the two is no plainer.
#[tactic(auto, using(crate::specs::Laws::Sums::place_own, crate::specs::Laws::Sums::place_held))]
pub fn account_place(rows: &[Row], table: &[u8; PLACES], packet: Packet) -> Option<usize>
    requires { one_twice (each id_of (members_in rows.now)) ≡ false }
    ensures { result ≡ account_place (members_in rows.now) packet }
{
    if packet.is_owned() {
        return Some(OWN_PLACE);
    }
    find_by_place(rows, table, packet.member)
}
