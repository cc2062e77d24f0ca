// The legs as rows of one lent slice of records, for reading states: what `members` (srt_group_looks) fills, read as structs.
// Kept (1): the row is the words that `members` fills and C lends on, word for word; a state is read out as the number that it is.

#![tactic(auto)]

ghost use Rattle.std.specs.Prelude.{◌≡◌};
ghost use Rattle.srt_group_leg_rows.specs.Legs.{state_among};

// A row of the list, word for word.
#[repr(C)]
#[derive(Clone, Copy)]
pub struct LegRow {
    pub id: u64,
    pub weight: u64,
    // the member's: 0 pending, 1 active, 2 standby, 3 unstable, 4 broken
    pub label: u64,
    // the leg's: 0 handshaking, 1 connected, 2 disconnected
    pub state: u64,
    pub admitted: u64,
    pub reserved: u64,
    // the collision's peer groups
    pub expected: u64,
    pub actual: u64,
}

// The answer for an id that no row has. It is document 01's code for an unknown leg, and no state of a leg.
// Kept (1): a host reads one number, a leg's state or this code; an Option would be turned into that number at once, which is no plainer.
pub const UNKNOWN_LEG: u64 = 3;

// The state in the first row that has the id.
pub fn state_of(legs: &[LegRow], id: u64) -> u64
    ensures { result ≡ state_among id legs.now }
{
    legs.iter()
        .find(|row| row.id == id)
        .map_or(UNKNOWN_LEG, |row| row.state)
}
