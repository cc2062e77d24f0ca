// Complete payloads waiting behind a sequence gap, in a lent table. Its first words are an index that ascends: a word is a
// sequence times MAX_CELLS, plus a cell. Behind the index each cell has a row of eight words with the rest of its packet. The
// index is a ring: `count` of its words are in use, from the one on that the free word of the first row tells. What the others hold
// is free, and so is the row of a cell that none in use names. A packet put in or taken out moves one word of each packet on its
// shorter side, and no row.
// Kept (3): the index is a ring, so the words that move in it, and the packets that are walked, are not one slice in order.
// Kept (5, 6): table and count come through the C interface, the count in the record; a struct that lends both to read would be made anew
// at each read between two changes.
ghost use Rattle.std.specs.Prelude.{◌≡◌, true, false, ◌+◌, ◌-◌, ◌*◌, ◌≤◌, ◌<◌, length, ltb};
ghost use Rattle.word_rows.specs.Tab.{removed};
ghost use Rattle.srt_protocol.specs.Sequence.{sequence_distance};
ghost use Rattle.srt_protocol.specs.Cells.{max_cells, overwritten};
ghost use Rattle.srt_group_model.specs.Cells.{is_among};
ghost use Rattle.srt_group_model.specs.Sound.{pending_cells};
ghost use Rattle.srt_group_model.specs.Nearest.{sequence_of, insert, is_held, nearest};
ghost use Rattle.srt_group_model.specs.Tools.{each};
ghost use Rattle.srt_group_model.specs.Removal.{own_packet};
ghost use Rattle.srt_group_model.specs.Validity.{max_pending, ascends};
ghost use Rattle.srt_group_model.specs.Legs.{largest_sequence};
ghost use Rattle.srt_group_tables.specs.Packets.{index_size, pending_size, packet_row_size, packet_size, index_rows, start_of, slot_of, MovedUp, MovedDown, WithRoom, packet_of, row_words, packet_at, packets, Placed, Holds, Without, place_found, FoundPacket};
ghost use Rattle.srt_group_tables.specs.Covered.{Small, CoveredUntil, Covers, Within, packets_elsewhere};

use srt_group_model::{Data, Packet};
use srt_protocol::received_payload::MAX_CELLS;
use srt_protocol::srt_packet::{SEQUENCE_HALF_SPACE, word_distance};
use srt_protocol::time::Timestamp;

// The most packets that are held: as many as a store has cells.
pub const MAX_PENDING: usize = MAX_CELLS;

// The words of the index.
const INDEX_WORDS: usize = MAX_PENDING;

// The words of a row.
const ROW_WORDS: usize = 8;

// The words of the table: the index, and behind it a row for each cell.
pub const PENDING_LENGTH: usize = INDEX_WORDS + MAX_CELLS * ROW_WORDS;

// The words of a row that a packet takes. The last is free.
const PACKET_WORDS: usize = 7;

// The word that tells where the ring starts, read modulo its size: the free one of the first row.
const START: usize = INDEX_WORDS + PACKET_WORDS;

// The word of a row that holds the packet's member.
const MEMBER: usize = 5;

// The word of a row that is 1 if the group holds the packet itself.
const OWNED: usize = 6;

// The most cells that a store has: an index word is a sequence times this, plus a cell.
pub const CELLS: u64 = MAX_CELLS as u64;

// Where the packets stand that a run covers: the first `low`, which lie beyond the wrap, and those from `from` up to `end`.
#[derive(Clone, Copy)]
pub struct Covered {
    pub low: usize,
    pub from: usize,
    pub end: usize,
}

// Where the row of a cell starts.
fn row_start(cell: usize) -> usize
    requires { cell < max_cells }
    ensures { result ≡ (index_rows + cell) * packet_row_size }
{
    INDEX_WORDS + cell * ROW_WORDS
}

// The packet of an index word and the row of its cell.
#[tactic(auto, unfolding(crate::specs::Packets::packet_of))]
fn read_packet(word: u64, row: &[u64; ROW_WORDS]) -> Packet
    ensures { result ≡ packet_of word row.now }
{
    Packet {
        member: row[MEMBER],
        owned: row[OWNED],
        content: Data {
            sequence: word / CELLS,
            count: row[0],
            message: row[1],
            timestamp: row[2],
            source: Timestamp(row[3]),
            cell: word % CELLS,
            length: row[4],
        },
    }
}

// All of a packet but its sequence and its cell.
// Kept (4): an array of the seven would say by place what MEMBER and OWNED say by name, and these two are read and changed alone elsewhere.
fn write_row(row: &mut [u64], packet: Packet)
    requires { length row.old ≡ packet_size }
    ensures { row.new ≡ row_words packet }
{
    row[0] = packet.content.count;
    row[1] = packet.content.message;
    row[2] = packet.content.timestamp;
    row[3] = packet.content.source.0;
    row[4] = packet.content.length;
    row[MEMBER] = packet.member;
    row[OWNED] = packet.owned;
}

// The index word at which the ring starts.
#[tactic(auto, unfolding(crate::specs::Packets::start_of))]
fn ring_start(pending: &[u64]) -> usize
    requires { pending_size ≤ length pending.now }
    ensures { (result ≡ start_of pending.now) × (result < index_size) }
{
    (pending[START] % INDEX_WORDS as u64) as usize
}

// The index word of a place.
fn slot(pending: &[u64], at: usize) -> usize
    requires { (pending_size ≤ length pending.now) × (at < max_pending) }
    ensures { (result ≡ slot_of pending.now at) × (result < index_size) }
{
    (ring_start(pending) + at) % INDEX_WORDS
}

// The sequence of the packet at a place.
#[tactic(auto, using(crate::specs::Laws::PacketIndex::index_sequence))]
pub fn sequence_at(pending: &[u64], at: usize) -> u64
    requires { (pending_size ≤ length pending.now) × (at < max_pending) }
    ensures { result ≡ sequence_of (packet_at pending.now at) }
{
    let place = slot(pending, at);
    pending[place] / CELLS
}

// The cell of the packet at a place.
#[tactic(auto, using(crate::specs::Laws::PacketIndex::index_cell))]
pub fn cell_at(pending: &[u64], at: usize) -> usize
    requires { (pending_size ≤ length pending.now) × (at < max_pending) }
    ensures { (result ≡ (packet_at pending.now at).content.cell) × (result < max_cells) }
{
    let place = slot(pending, at);
    (pending[place] % CELLS) as usize
}

// The packet at a place.
#[tactic(auto, using(crate::specs::Laws::PacketIndex::packet_part))]
pub fn packet(pending: &[u64], at: usize) -> Packet
    requires { (pending_size ≤ length pending.now) × (at < max_pending) }
    ensures { result ≡ packet_at pending.now at }
{
    let place = slot(pending, at);
    let word = pending[place];
    let start = row_start((word % CELLS) as usize);
    read_packet(word, pending[start..start + ROW_WORDS].as_array().unwrap())
}

// A packet's row is written at its cell.
#[tactic(auto, using(crate::specs::Laws::PacketIndex::row_written, crate::specs::Laws::PacketIndex::seven_words))]
fn put_row(pending: &mut [u64], packet: Packet)
    requires { (pending_size ≤ length pending.old) × (packet.content.cell < max_cells) }
    ensures { pending.new ≡ overwritten
        ((index_rows + packet.content.cell) * packet_row_size) (row_words packet) pending.old }
{
    let start = row_start(packet.content.cell as usize);
    write_row(&mut pending[start..start + PACKET_WORDS], packet);
}

// The first place whose packet's sequence is not below `sequence`: an end, most often, or else by halving.
fn place(pending: &[u64], count: usize, sequence: u64) -> usize
    requires pending_size_in_bounds { (pending_size ≤ length pending.now) × (count ≤ max_pending) }
    requires pending_value { ascends (packets count pending.now) ≡ true }
    ensures { Placed pending.now count sequence result }
{
    if count == 0 {
        return 0;
    }
    let last = count - 1;
    if sequence_at(pending, last) < sequence {
        return count;
    }
    if sequence <= sequence_at(pending, 0) {
        return 0;
    }
    let mut low: usize = 0;
    let mut high: usize = last;
    // Kept (3): `partition_point` is of a slice, and the words of a ring are not one in order.
    while low < high {
        let middle = low + (high - low) / 2;
        if sequence_at(pending, middle) < sequence {
            low = middle + 1;
        } else {
            high = middle;
        }
    }
    low
}

// The place of the packet with a sequence.
#[tactic(auto, using(crate::specs::Laws::PacketLaws::find_there, crate::specs::Laws::PacketLaws::find_other, crate::specs::Laws::PacketLaws::find_past))]
pub fn find(pending: &[u64], count: usize, sequence: u64) -> Option<usize>
    requires pending_size_in_bounds { (pending_size ≤ length pending.now) × (count ≤ max_pending) }
    requires pending_value { ascends (packets count pending.now) ≡ true }
    ensures { result ≡ place_found sequence (packets count pending.now) }
{
    let at = place(pending, count, sequence);
    (at < count && sequence_at(pending, at) == sequence).then_some(at)
}

// The index words of the places from `from` up to `end` move up by `width` places, round the ring.
#[tactic(auto, using(crate::specs::Laws::PacketLaws::up_start, crate::specs::Laws::PacketLaws::up_turn, crate::specs::Laws::PacketLaws::up_done))]
fn move_up(index: &mut [u64], start: usize, from: usize, end: usize, width: usize)
    requires index_len { (length index.old ≡ index_size) × (start < index_size) }
    requires from_le_end { (from ≤ end) × (end + width ≤ index_size) }
    ensures { MovedUp width start index.old from end index.new }
{
    for at in (from..end).rev() {
        index[(start + (at + width)) % INDEX_WORDS] = index[(start + at) % INDEX_WORDS];
    }
}

// The index words of the places from `from + width` up to `end` move down by `width` places, round the ring.
#[tactic(auto, using(crate::specs::Laws::PacketLaws::down_start, crate::specs::Laws::PacketLaws::down_turn, crate::specs::Laws::PacketLaws::down_done))]
fn move_down(index: &mut [u64], start: usize, from: usize, end: usize, width: usize)
    requires index_len { (length index.old ≡ index_size) × (start < index_size) }
    requires width_bound { (from + width ≤ end) × (end ≤ index_size) }
    ensures { MovedDown width start index.old from end index.new }
{
    for at in from..end - width {
        index[(start + at) % INDEX_WORDS] = index[(start + (at + width)) % INDEX_WORDS];
    }
}

// Room for a packet at a place: those on its shorter side move.
fn open_place(pending: &mut [u64], count: usize, at: usize)
    requires { (pending_size ≤ length pending.old) × (at ≤ count) × (count < max_pending) }
    ensures { WithRoom pending.old count at pending.new }
{
    let start = ring_start(pending);
    if at <= count / 2 {
        let before = (start + INDEX_WORDS - 1) % INDEX_WORDS;
        move_down(&mut pending[0..INDEX_WORDS], before, 0, at + 1, 1);
        pending[START] = before as u64;
        return;
    }
    move_up(&mut pending[0..INDEX_WORDS], start, at, count, 1);
}

// A packet into its place in ascending order. No held packet has its cell, so no row in use is written over.
#[tactic(auto, using(crate::specs::Laws::PacketLaws::room_enough))]
pub fn insert(pending: &mut [u64], count: usize, packet: Packet)
    requires pending_size_in_bounds { (pending_size ≤ length pending.old) × (count < max_pending) }
    requires pending_value { ascends (packets count pending.old) ≡ true }
    requires pending_value_2 { is_held packet.content.sequence (packets count pending.old) ≡ false }
    requires sequence_le_largest_sequence { (packet.content.sequence ≤ largest_sequence) × (packet.content.cell < max_cells) }
    requires pending_value_3 { is_among packet.content.cell (pending_cells (packets count pending.old)) ≡ false }
    ensures { Holds (length pending.old) pending.new (count + 1) (insert packet (packets count pending.old)) }
{
    let sequence = packet.content.sequence;
    let at = place(pending, count, sequence);
    open_place(pending, count, at);
    let word = slot(pending, at);
    pending[word] = sequence * CELLS + packet.content.cell;
    put_row(pending, packet);
}

// The packets from a place up to another are taken out: those on the shorter side move.
fn remove_range(pending: &mut [u64], count: usize, from: usize, end: usize)
    requires pending_size_in_bounds { (pending_size ≤ length pending.old) × (count ≤ max_pending) }
    requires from_le_end { (from ≤ end) × (end ≤ count) }
    ensures { Without pending.old count from end pending.new }
{
    let start = ring_start(pending);
    let width = end - from;
    if from <= count - end {
        move_up(&mut pending[0..INDEX_WORDS], start, 0, from, width);
        pending[START] = ((start + width) % INDEX_WORDS) as u64;
        return;
    }
    move_down(&mut pending[0..INDEX_WORDS], start, from, count, width);
}

// The packet at a place is taken out.
#[tactic(auto, using(crate::specs::Laws::PacketLaws::packet_removed))]
pub fn remove(pending: &mut [u64], count: usize, at: usize)
    requires { (pending_size ≤ length pending.old) × (at < count) × (count ≤ max_pending) }
    ensures { Holds (length pending.old) pending.new (count - 1) (removed at (packets count pending.old)) }
{
    remove_range(pending, count, at, at + 1);
}

// The nearest packet in wrapping order. Either none lies half a space above the lowest, and that one is nearest, or the first of
// those above is. It is the least far ahead of the base where all are less than half a space ahead: so by the schedule's premise
// (demand 3), not in every state.
#[tactic(auto, using(crate::specs::Laws::PacketLaws::nearest_wraps, crate::specs::Laws::PacketLaws::nearest_lowest, crate::specs::Laws::PacketLaws::nearest_none, crate::specs::Laws::PacketIndex::sequence_small), unfolding(srt_protocol::specs::Sequence::half))]
pub fn nearest(pending: &[u64], count: usize) -> Option<usize>
    requires pending_size_in_bounds { (pending_size ≤ length pending.now) × (count ≤ max_pending) }
    requires pending_value { ascends (packets count pending.now) ≡ true }
    ensures { FoundPacket pending.now count result (nearest (packets count pending.now)) }
{
    if count == 0 {
        return None;
    }
    let lowest = sequence_at(pending, 0);
    let wrapped = place(pending, count, lowest + SEQUENCE_HALF_SPACE as u64);
    if wrapped < count {
        return Some(wrapped);
    }
    Some(0)
}

// Whether a sequence starts inside a run of so many sequences from `first` on.
fn is_covered(first: u64, run: u64, sequence: u64) -> bool
    ensures { result ≡ ltb (sequence_distance first sequence) run }
{
    word_distance(first, sequence) < run
}

// The first place from `from` on whose packet starts outside a run, or `end`.
fn covered_until(pending: &[u64], from: usize, end: usize, first: u64, run: u64) -> usize
    requires { (pending_size ≤ length pending.now) × (from ≤ end) × (end ≤ max_pending) }
    ensures { CoveredUntil first run pending.now from end result }
{
    (from..end)
        .find(|at| !is_covered(first, run, sequence_at(pending, *at)))
        .unwrap_or(end)
}

// Where the packets stand that start inside a run, by the place of the run's first sequence. Only these and the two that end the search are read.
pub fn covered_places(pending: &[u64], count: usize, at: usize, first: u64, run: u64) -> Covered
    requires pending_size_in_bounds { (pending_size ≤ length pending.now) × (count ≤ max_pending) }
    requires pending_value { ascends (packets count pending.now) ≡ true }
    requires small { Small pending.now count first }
    requires placed { Placed pending.now count first at }
    ensures { Covers first run pending.now count result }
{
    let low = covered_until(pending, 0, at, first, run);
    let end = covered_until(pending, at, count, first, run);
    Covered { low, from: at, end }
}

// The packets at these places are taken out. Answers how many are left.
#[tactic(auto, using(crate::specs::Laws::Covered::covered_removed))]
pub fn remove_covered(pending: &mut [u64], count: usize, covered: Covered) -> usize
    requires pending_size_in_bounds { (pending_size ≤ length pending.old) × (count ≤ max_pending) }
    requires within { Within count covered }
    ensures { (result ≤ count) × Holds (length pending.old) pending.new result (packets_elsewhere count covered pending.old) }
{
    let Covered { low, from, end } = covered;
    remove_range(pending, count, from, end);
    let rest = count - (end - from);
    remove_range(pending, rest, 0, low);
    rest - low
}

// The packets of a member become the group's own.
#[tactic(auto, using(crate::specs::Laws::PacketLaws::owning_start, crate::specs::Laws::PacketLaws::owned_one, crate::specs::Laws::PacketLaws::owned_not, crate::specs::Laws::PacketLaws::owned_all))]
pub fn own_packets(pending: &mut [u64], count: usize, member: u64)
    requires { (pending_size ≤ length pending.old) × (count ≤ max_pending) }
    ensures { Holds (length pending.old) pending.new count
        (each (own_packet member) (packets count pending.old)) }
{
    for at in 0..count {
        let start = row_start(cell_at(pending, at));
        if pending[start + MEMBER] == member {
            pending[start + OWNED] = 1;
        }
    }
}
