// What state a member is in. A test reads the few words of a row that it needs.
// Kept (2): three are tests of a leg again (`srt_connection::legs`), of its row: those are handed a leg that was read whole, these read one word or part, and as
// one, over a trait of both, they would read the whole leg of a row: no plainer.
// Kept (1): the mode is the record's word, which a C host lends so that 6 can refuse it; an enum of two modes says what `is_backup` says, and is no plainer.
// Kept (1): a state or a flag is a word of the lent row: a C host may lend any number, and 6 has to read it to refuse it. What is written goes into
// the row as it is, and the definitions compare words; an enum that is turned into its number at once is no plainer.
ghost use Rattle.std.specs.Prelude.{◌≡◌, ◌&&◌, ◌*◌, ◌≤◌, length};
ghost use Rattle.srt_connection_queue.specs.Rows.{member_of};
ghost use Rattle.srt_connection_members.specs.Members.{members_in, HasRow, Changed};
ghost use Rattle.srt_group_model.specs.State.{is_backup, turned};
ghost use Rattle.srt_group_model.specs.Legs.{is_connected, is_disconnected, has_sender};
ghost use Rattle.srt_group_model.specs.Tools.{all};
ghost use Rattle.srt_group_model.specs.Members.{in_state, is_active, is_standby, has_active_member, first_active};
ghost use Rattle.srt_group_model.specs.Calls.{state_at_addition};
ghost use Rattle.srt_group_members.specs.Scan.{leg_disconnected};
ghost use Rattle.srt_group_members.specs.Refresh.{requalified_state};

use srt_connection::legs::is_connected;
pub use srt_connection::legs::{CONNECTED, DISCONNECTED, HANDSHAKING};
use srt_connection_members::{membership_at, put_membership_at};
use srt_connection_queue::rows::{Row, link_state, member_state, sender};
use srt_group_model::Leg;

// `GroupMemberState` as the numbers that a row holds.
pub const PENDING: u64 = 0;

pub const ACTIVE: u64 = 1;

pub const STANDBY: u64 = 2;

pub const UNSTABLE: u64 = 3;

pub const BROKEN: u64 = 4;

// The mode is 0 in Broadcast and 1 in Backup.
pub fn is_backup(mode: u64) -> bool
    ensures { result ≡ is_backup mode }
{
    mode != 0
}

// ---- one row

pub fn leg_connected(row: &Row) -> bool
    ensures { result ≡ is_connected (member_of row.now).leg }
{
    link_state(row) == CONNECTED
}

// The sender exists from the first connect on.
pub fn leg_has_sender(row: &Row) -> bool
    ensures { result ≡ has_sender (member_of row.now).leg }
{
    sender(row).started == 1
}

pub fn leg_disconnected(row: &Row) -> bool
    ensures { result ≡ leg_disconnected (member_of row.now) }
{
    link_state(row) == DISCONNECTED
}

// In that state, and connected.
pub fn is_connected_in(row: &Row, state: u64) -> bool
    ensures { result ≡ (in_state state (member_of row.now) && is_connected (member_of row.now).leg) }
{
    member_state(row) == state && leg_connected(row)
}

#[tactic(auto, unfolding(srt_group_model::specs::Members::is_active))]
pub fn is_active(row: &Row) -> bool
    ensures { result ≡ is_active (member_of row.now) }
{
    is_connected_in(row, ACTIVE)
}

#[tactic(auto, unfolding(srt_group_model::specs::Members::is_standby))]
pub fn is_standby(row: &Row) -> bool
    ensures { result ≡ is_standby (member_of row.now) }
{
    is_connected_in(row, STANDBY)
}

// Kept (5): the table comes as words through the C interface, and that its row is there is said of this call's own index.
pub fn turn_at(members: &mut [u64], index: usize, state: u64)
    requires { HasRow index members.old }
    ensures { Changed index (turned state) members.old members.new }
{
    let mut membership = membership_at(members, index);
    membership.state = state;
    put_membership_at(members, index, membership);
}

// ---- the rows

// The index of the first member that is active.
pub fn first_active(rows: &[Row]) -> Option<usize>
    ensures { result ≡ first_active (members_in rows.now) }
{
    rows.iter().position(is_active)
}

pub fn has_active_member(rows: &[Row]) -> bool
    ensures { result ≡ has_active_member (members_in rows.now) }
{
    rows.iter().any(is_active)
}

// Whether every leg is disconnected; true with no members.
pub fn all_disconnected(rows: &[Row]) -> bool
    ensures { result ≡ all (λ m. is_disconnected m.leg) (members_in rows.now) }
{
    rows.iter().all(leg_disconnected)
}

// The state of a member that is to send: Active, but in Backup only one is, so Standby if another is active.
#[tactic(auto, using(srt_group_model::specs::Laws::Reason::when_true, srt_group_model::specs::Laws::Reason::when_false), unfolding(crate::specs::Refresh::requalified_state))]
pub fn requalified_state(rows: &[Row], mode: u64) -> u64
    ensures { result ≡ requalified_state mode (members_in rows.now) }
{
    if is_backup(mode) && has_active_member(rows) {
        return STANDBY;
    }
    ACTIVE
}

// The state of a member at its addition. A leg that is not connected cannot be the one that sends.
#[tactic(auto, using(crate::specs::Laws::Refresh::added_connected, crate::specs::Laws::Refresh::added_standby, crate::specs::Laws::Refresh::added_pending))]
pub fn state_at_addition(rows: &[Row], mode: u64, leg: Leg) -> u64
    ensures { result ≡ state_at_addition mode leg (members_in rows.now) }
{
    if is_connected(leg) {
        return requalified_state(rows, mode);
    }
    if is_backup(mode) {
        return STANDBY;
    }
    PENDING
}
