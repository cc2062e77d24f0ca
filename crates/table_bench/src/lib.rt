// The tables' operations under plain names, for bench/tables to time beside Rust's BTreeMap and VecDeque. A measuring crate: no
// product links it.
// Kept (5, 6): each table is a parameter of its own, as the measuring program lends it over the C interface.
// Kept (1): a place or cell that is none is answered as a number: the measuring program reads one word.

#![tactic(auto)]

ghost use Rattle.std.specs.Prelude.{◌≡◌, true, false, ◌+◌, ◌-◌, ◌≤◌, ◌<◌, length};
ghost use Rattle.srt_group_model.specs.Cells.{is_among};
ghost use Rattle.srt_group_model.specs.Sound.{pending_cells};
ghost use Rattle.srt_group_model.specs.Nearest.{is_held};
ghost use Rattle.srt_group_model.specs.Validity.{max_pending, ascends};
ghost use Rattle.srt_group_model.specs.Legs.{largest_sequence};
ghost use Rattle.srt_protocol.specs.Cells.{max_cells};
ghost use Rattle.srt_connection_members.specs.Members.{HasRow, members_size};
ghost use Rattle.srt_group_tables.specs.Packets.{pending_size, packets};
ghost use Rattle.srt_group_tables.specs.Ring.{Long, arrays};
ghost use Rattle.srt_group_tables.specs.Waitings.{waiting_size};
ghost use Rattle.table_bench.specs.Made.{InArrays};

use bench_made::{core, data, sending};
use cell_set::{WORDS, lowest_free};
use srt_connection_members::{pop_at, push_at};
use srt_group::Group;
use srt_group_model::{Entry, Event, Identity, Packet};
use srt_group_state::validity::is_invalid;
use srt_group_tables::history::{HistoryRing, HistoryWords, push_back, store};
use srt_group_tables::pending;
use srt_protocol::error::outcome_number;
use srt_protocol::received_payload::MAX_CELLS;
use srt_protocol::time::Timestamp;

// The bytes of a payload.
const LENGTH: u64 = 1316;

// The place of a sequence, or MAX_CELLS.
#[unsafe(no_mangle)]
pub extern "C" fn table_find(pending: &[u64], count: usize, sequence: u64) -> usize
    requires pending_size_in_bounds { (pending_size ≤ length pending.now) × (count ≤ max_pending) }
    requires pending_value { ascends (packets count pending.now) ≡ true }
{
    pending::find(pending, count, sequence).unwrap_or(MAX_CELLS)
}

#[unsafe(no_mangle)]
pub extern "C" fn table_insert(pending: &mut [u64], count: usize, sequence: u64, cell: u64)
    requires pending_size_in_bounds { (pending_size ≤ length pending.old) × (count < max_pending) }
    requires pending_value { ascends (packets count pending.old) ≡ true }
    requires pending_value_2 { is_held sequence (packets count pending.old) ≡ false }
    requires sequence_le_largest_sequence { (sequence ≤ largest_sequence) × (cell < max_cells) }
    requires pending_value_3 { is_among cell (pending_cells (packets count pending.old)) ≡ false }
{
    let packet = Packet {
        member: 1,
        owned: 0,
        content: data(sequence, cell, LENGTH),
    };
    pending::insert(pending, count, packet);
}

#[unsafe(no_mangle)]
pub extern "C" fn table_remove(pending: &mut [u64], count: usize, at: usize)
    requires { (pending_size ≤ length pending.old) × (at < count) × (count ≤ max_pending) }
{
    pending::remove(pending, count, at);
}

// One event into a leg's queue: 0, or the refusal's number.
#[unsafe(no_mangle)]
pub extern "C" fn table_push(members: &mut [u64], index: usize, sequence: u64, cell: u64) -> u32
    requires { HasRow index members.old }
{
    let event = Event {
        kind: 0,
        reason: 0,
        content: data(sequence, cell, LENGTH),
    };
    let pushed = push_at(members, index, event);
    outcome_number(pushed)
}

#[unsafe(no_mangle)]
pub extern "C" fn table_pop(members: &mut [u64], index: usize)
    requires { HasRow index members.old }
{
    pop_at(members, index);
}

// One entry in, and the acknowledged ones out.
fn sent(
    ring: HistoryRing,
    history: &mut [u64],
    sources: &mut [u64],
    sequence: u64,
    kept: u64,
) -> HistoryRing
    requires in_arrays { InArrays ring.length (arrays history.old sources.old) }
    requires sequence_le_largest_sequence { sequence ≤ largest_sequence }
    ensures { InArrays result.length (arrays history.new sources.new) }
{
    let entry = Entry {
        sequence,
        cell: 0,
        length: LENGTH,
        source: Timestamp(sequence),
    };
    store(ring, history, sources, entry);
    let longer = push_back(ring);
    if sequence < kept {
        return longer;
    }
    let lent = HistoryWords {
        ring: longer,
        history,
    };
    lent.drop_before(sequence - kept)
}

// So many times an entry goes into a history, and those more than `kept` sequences older than it go out. Answers the length.
#[unsafe(no_mangle)]
pub extern "C" fn table_history(
    history: &mut [u64],
    sources: &mut [u64],
    rounds: u64,
    kept: u64,
) -> usize
    requires in_arrays { InArrays 0 (arrays history.old sources.old) }
    requires rounds_le_largest_sequence { (rounds ≤ largest_sequence) × (kept ≤ rounds) }
{
    let mut ring = HistoryRing::default();
    for sequence in 0..rounds {
        ring = sent(ring, history, sources, sequence, kept);
    }
    ring.length
}

// Document 01's code 6 over so many members, held packets and sends of a group that holds none itself, and then the lowest free cell;
// MAX_CELLS if a rule is broken.
#[unsafe(no_mangle)]
pub extern "C" fn table_rules(
    members: &[u64],
    pending: &[u64],
    waiting: &[u64],
    history: &[u64],
    sources: &[u64],
    many: usize,
    held: usize,
    entries: usize,
) -> usize
    requires members_size_in_bounds { (members_size ≤ length members.now) × ((pending_size ≤ length pending.now) × (waiting_size ≤ length waiting.now)) }
    requires long { Long (arrays history.now sources.now) }
{
    let group = Group {
        identity: Identity {
            id: 0x4000_0001,
            length: 0,
        },
        core: core(many, held, 1),
        sending: sending(),
        ring: HistoryRing {
            length: entries,
            ..HistoryRing::default()
        },
    };
    let mut used = [0; WORDS];
    if is_invalid(
        group, members, pending, waiting, history, sources, MAX_CELLS, &mut used,
    ) {
        return MAX_CELLS;
    }
    lowest_free(&used, MAX_CELLS).unwrap_or(MAX_CELLS)
}
