// Document 01's code 6 in one pass over each lent table and one over the history: each row is read once, tested by itself and against the
// rows before it, and the cell that it names is marked. The held packets go before the members: each is added to the account of its
// member, or to that of the group, and then each member is compared with its own.
// A rule's test and the mark of a cell stand apart, since the mark changes the set.
// Kept (5, 6): the tables are words that a C host lends, with their counts of rows, and this is the test of them; of the set see cells.rt.
// Kept (3): a pass changes the set at each step and ends at the first row that breaks a rule. In a chain a closure would hold the set, and what it ends as
// would be said by an invariant of the closure's calls in place of the loop's: no plainer.
ghost use Rattle.std.specs.Prelude.{◌≡◌, false, ◌++◌, ◌*◌, ◌≤◌, length};
ghost use Rattle.srt_group_model.specs.Tools.{each};
ghost use Rattle.srt_group_model.specs.Members.{id_of};
ghost use Rattle.srt_group_model.specs.Cells.{queue_cells, queued_cells};
ghost use Rattle.srt_group_model.specs.Sound.{pending_cells, history_cells};
ghost use Rattle.srt_group_model.specs.Validity.{max_members, max_pending, one_twice};
ghost use Rattle.cell_set.specs.Marks.{Marking};
ghost use Rattle.srt_connection_queue.specs.Rows.{row_size, member_of};
ghost use Rattle.srt_connection_members.specs.Members.{members_of, members_in, members_size};
ghost use Rattle.srt_group_tables.specs.Packets.{pending_size, packets};
ghost use Rattle.srt_group_tables.specs.Ring.{Long, arrays, entries_of};
ghost use Rattle.srt_group_rules.specs.Rules.{history_breaks_rule};
ghost use Rattle.srt_group_state.specs.Passes.{Passes, PlacesPacket, QueueGood, MemberGood, RowsGood, TablesGood};

use crate::cells::mark_event;
use cell_set::{CellSet, mark};
use srt_connection_members::rows;
use srt_connection_queue::rows::{MAX_QUEUED, Row, leg, membership, ring_of};
use srt_group_members::accounts::{NO_PACKETS, is_unlike, reserve_packet};
use srt_group_model::{Account, Counts, Packet};
use srt_group_rules::ids::{NOBODY, PLACES, id_twice};
use srt_group_rules::ranges::membership_out_of_range;
use srt_group_rules::rows::{
    entry_breaks_rule, event_breaks_rule, leg_breaks_rule, packet_breaks_rule, queue_event,
};
use srt_group_rules::sums::{OWN_PLACE, account_place, data_count};
use srt_group_tables::history::{History, HistoryRing, HistoryWords, MAX_HISTORY};
use srt_group_tables::pending::packet;

// ---- members

// A leg's queue, whose data count for as many as are reserved. A queue of more than MAX_QUEUED events is not walked: its ring has no
// place for them.
#[tactic(auto, using(crate::specs::Laws::Passes::queue_long, crate::specs::Laws::Passes::queue_stopped, crate::specs::Laws::Passes::event_broken, crate::specs::Laws::Passes::event_refused, crate::specs::Laws::Passes::queue_passed, srt_group_rules::specs::Laws::Sums::queued_fits))]
fn queue_breaks_rule(row: &Row, reserved: u64, cells: usize, used: &mut CellSet) -> bool
    requires { Marking cells used.old }
    ensures { Passes cells (QueueGood reserved (member_of row.now).queue) (queue_cells (member_of row.now))
        used.old result used.new }
{
    let ring = ring_of(row);
    let count = ring.length;
    if MAX_QUEUED < count {
        return true;
    }
    let mut sum: u64 = 0;
    for at in 0..count {
        let event = queue_event(row, ring, at);
        if event_breaks_rule(event) {
            return true;
        }
        if !mark_event(used, cells, event) {
            return true;
        }
        sum += data_count(event);
    }
    sum != reserved
}

// A member's row, whose held packets have this account: its leg reserves what they count and what is queued.
#[tactic(auto, using(crate::specs::Laws::Passes::member_broken, crate::specs::Laws::Passes::member_short, crate::specs::Laws::Passes::member_queue))]
fn member_breaks_rule(row: &Row, held: Account, cells: usize, used: &mut CellSet) -> bool
    requires { Marking cells used.old }
    ensures { Passes cells (MemberGood held (member_of row.now)) (queue_cells (member_of row.now))
        used.old result used.new }
{
    let member = membership(row);
    let its = leg(row);
    if membership_out_of_range(member) | leg_breaks_rule(its) | is_unlike(member.account, held) {
        return true;
    }
    let reserved = its.receiver.reserved;
    if reserved < held.reserved {
        return true;
    }
    queue_breaks_rule(row, reserved - held.reserved, cells, used)
}

// ---- held packets, and then members

// Those of the members, and the group's own.
const ACCOUNTS: usize = OWN_PLACE + 1;

// The place of the account that a packet is added to, if the packet breaks no rule, its sequence is not below `lowest`, and its cell
// can be marked.
fn place_packet(
    rows: &[Row],
    table: &[u8; PLACES],
    packet: Packet,
    lowest: u64,
    cells: usize,
    used: &mut CellSet,
) -> Option<usize>
    requires few { length rows.now ≤ max_members }
    requires distinct { one_twice (each id_of (members_in rows.now)) ≡ false }
    requires marking { Marking cells used.old }
    ensures { PlacesPacket cells (members_in rows.now) lowest packet used.old result used.new }
{
    if packet_breaks_rule(packet) | (packet.content.sequence < lowest) {
        return None;
    }
    if !mark(used, cells, packet.content.cell) {
        return None;
    }
    account_place(rows, table, packet)
}

#[tactic(auto, using(crate::specs::Laws::Passes::placed_low))]
fn rows_break_rule(
    own: Account,
    rows: &[Row],
    table: &[u8; PLACES],
    pending: &[u64],
    held: usize,
    cells: usize,
    used: &mut CellSet,
) -> bool
    requires few { length rows.now ≤ max_members }
    requires distinct { one_twice (each id_of (members_in rows.now)) ≡ false }
    requires pending_size_in_bounds { (pending_size ≤ length pending.now) × (held ≤ max_pending) }
    requires marking { Marking cells used.old }
    ensures { Passes cells (RowsGood (members_in rows.now) (packets held pending.now) own)
        (pending_cells (packets held pending.now) ++ queued_cells (members_in rows.now))
        used.old result used.new }
{
    let mut accounts = [NO_PACKETS; ACCOUNTS];
    let mut lowest: u64 = 0;
    for at in 0..held {
        let next = packet(pending, at);
        let found = place_packet(rows, table, next, lowest, cells, used);
        let Some(place) = found else {
            return true; // no account takes it
        };
        let account = &mut accounts[place];
        *account = reserve_packet(*account, next.content.count);
        lowest = next.content.sequence + 1;
    }
    if is_unlike(own, accounts[OWN_PLACE]) {
        return true;
    }
    for (index, row) in rows.iter().enumerate() {
        if member_breaks_rule(row, accounts[index], cells, used) {
            return true;
        }
    }
    false
}

// The members and the held packets, with the account of those that the group holds itself.
pub fn tables_break_rule(
    own: Account,
    counts: Counts,
    members: &[u64],
    pending: &[u64],
    cells: usize,
    used: &mut CellSet,
) -> bool
    requires members_size_in_bounds { (members_size ≤ length members.now) × (counts.members ≤ max_members) }
    requires pending_size_in_bounds { (pending_size ≤ length pending.now) × (counts.pending ≤ max_pending) }
    requires marking { Marking cells used.old }
    ensures { Passes cells
        (TablesGood (members_of counts.members members.now) (packets counts.pending pending.now) own)
        (pending_cells (packets counts.pending pending.now) ++ queued_cells (members_of counts.members members.now))
        used.old result used.new }
{
    let rows = rows(members, counts.members);
    let mut table = [NOBODY; PLACES];
    if id_twice(rows, &mut table) {
        return true;
    }
    rows_break_rule(own, rows, &table, pending, counts.pending, cells, used)
}

// ---- the history

// The entries of a ring that has a place for each.
#[tactic(auto, using(crate::specs::Laws::Passes::history_stopped, crate::specs::Laws::Passes::entry_broken, crate::specs::Laws::Passes::entry_refused, crate::specs::Laws::Passes::history_passed))]
fn entries_break_rule(entries: &History, cells: usize, used: &mut CellSet) -> bool
    requires { Marking cells used.old }
    ensures { Passes cells (history_breaks_rule (entries_of entries.now.words.ring (arrays entries.now.words.history.now entries.now.sources.now)) ≡ false)
        (history_cells (entries_of entries.now.words.ring (arrays entries.now.words.history.now entries.now.sources.now)))
        used.old result used.new }
{
    for index in 0..entries.words.ring.length {
        let entry = entries.entry_at(index);
        if entry_breaks_rule(entry) {
            return true;
        }
        if !mark(used, cells, entry.cell) {
            return true;
        }
    }
    false
}

// A history of more than MAX_HISTORY entries is not walked: its ring has no place for them.
#[tactic(auto, using(crate::specs::Laws::Passes::history_long))]
pub fn history_breaks_rule(
    ring: HistoryRing,
    history: &[u64],
    sources: &[u64],
    cells: usize,
    used: &mut CellSet,
) -> bool
    requires long { Long (arrays history.now sources.now) }
    requires marking { Marking cells used.old }
    ensures { Passes cells (history_breaks_rule (entries_of ring (arrays history.now sources.now)) ≡ false)
        (history_cells (entries_of ring (arrays history.now sources.now)))
        used.old result used.new }
{
    if MAX_HISTORY < ring.length {
        return true;
    }
    let words = HistoryWords { ring, history };
    entries_break_rule(&History { words, sources }, cells, used)
}
