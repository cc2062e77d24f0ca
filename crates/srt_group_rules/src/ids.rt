// Document 01's code 6: one id twice. And the member with an id, by a table of places: an id's place is its last bits, and the table
// says which member's id has it. Two ids can share a place, so what the table says is compared, and where it says nothing of use
// every member is asked.
// Kept (5): the pass tests once that the ids are distinct; a type of the rows with that fact is opened again where the rows are walked, and so no plainer.
ghost use Rattle.std.specs.Prelude.{◌≡◌, false, ◌%◌, ◌≤◌, ◌<◌, length, replicate};
ghost use Rattle.srt_group_model.specs.Tools.{any, each};
ghost use Rattle.srt_group_model.specs.Members.{id_of, has_id, find};
ghost use Rattle.srt_group_model.specs.Validity.{max_members, one_twice};
ghost use Rattle.srt_connection_members.specs.Members.{members_in};
ghost use Rattle.srt_group_rules.specs.Ids.{places, nobody, TakenBefore};

use srt_connection_members::find;
use srt_connection_queue::rows::{Row, member_id};

// The places of a table of ids.
pub const PLACES: usize = 64;

// What the table says of a place that no id has: no member has so high an index.
// Kept (1): `find_by_place` asks no test of it, since `get` gives nothing there; an option would be tested besides.
pub const NOBODY: u8 = 64;

fn place_of(id: u64) -> usize
    ensures { (result ≡ id % places) × (result < places) }
{
    (id % PLACES as u64) as usize
}

// Whether one of the members before has the id. They are asked only where one of them has the id's place.
#[tactic(auto, using(crate::specs::Laws::Ids::free_place))]
fn is_repeated(before: &[Row], id: u64, table: &[u8; PLACES]) -> bool
    requires { TakenBefore before.now (length before.now) table.now }
    ensures { result ≡ any (has_id id) (members_in before.now) }
{
    if table[place_of(id)] == NOBODY {
        return false;
    }
    before.iter().any(|row| member_id(row) == id)
}

// Whether an id stands twice. The table is filled on the way; what it then says of a place is the index of a member, or nobody, and
// nothing rests on which.
#[tactic(auto, using(crate::specs::Laws::Ids::once_in))]
pub fn id_twice(rows: &[Row], table: &mut [u8; PLACES]) -> bool
    requires few { length rows.now ≤ max_members }
    requires table_value { table.old ≡ replicate places nobody }
    ensures { result ≡ one_twice (each id_of (members_in rows.now)) }
{
    for (index, row) in rows.iter().enumerate() {
        let id = member_id(row);
        if is_repeated(&rows[..index], id, table) {
            return true;
        }
        table[place_of(id)] = index as u8;
    }
    false
}

// The index of the member with an id, of which there is at most one: the one that the table says, if it has the id.
#[tactic(auto, using(crate::specs::Laws::Ids::found_there))]
pub fn find_by_place(rows: &[Row], table: &[u8; PLACES], id: u64) -> Option<usize>
    requires { one_twice (each id_of (members_in rows.now)) ≡ false }
    ensures { result ≡ find id (members_in rows.now) }
{
    let index = table[place_of(id)] as usize;
    if rows.get(index).is_some_and(|row| member_id(row) == id) {
        return Some(index);
    }
    find(rows, id)
}
