// The set of cells under plain names, for bench/cells to time. A measuring crate: no product links it.
// Kept (5, 6): each table is a parameter of its own, as the measuring program lends it over the C interface.
// Kept (1): a place or cell that is none is answered as a number: the measuring program reads one word.

#![tactic(auto)]

ghost use Rattle.std.specs.Prelude.{◌≡◌, ◌≤◌, ◌<◌, length};
ghost use Rattle.srt_protocol.specs.Cells.{max_cells};
ghost use Rattle.cell_set.specs.Bits.{set_size};
ghost use Rattle.srt_connection_members.specs.Members.{HasRow};
ghost use Rattle.srt_group_shown.specs.Tables.{tables};
ghost use Rattle.srt_group_shown.specs.Ready.{Ready};
ghost use Rattle.srt_group.specs.Made.{parts_of};
ghost use Rattle.cell_bench.specs.Made.{group_of};

use bench_made::{core, data, sending};
use cell_set::{free, lowest_free, of_words, of_words_mut, take};
use srt_connection_members::pop_at;
use srt_group::Group;
use srt_group_model::Identity;
use srt_group_queueing::queueing::queue_data;
use srt_group_tables::history::HistoryRing;
use srt_protocol::error::outcome_number;
use srt_protocol::received_payload::MAX_CELLS;

// The lowest free cell; MAX_CELLS if there is none.
#[unsafe(no_mangle)]
pub extern "C" fn set_lowest(used: &[u64], cells: usize) -> usize
    requires { (length used.now ≡ set_size) × (cells ≤ max_cells) }
{
    lowest_free(of_words(used), cells).unwrap_or(MAX_CELLS)
}

#[unsafe(no_mangle)]
pub extern "C" fn set_take(used: &mut [u64], cell: usize)
    requires { (length used.old ≡ set_size) × (cell < max_cells) }
{
    take(of_words_mut(used), cell);
}

#[unsafe(no_mangle)]
pub extern "C" fn set_free(used: &mut [u64], cell: usize)
    requires { length used.old ≡ set_size }
{
    free(of_words_mut(used), cell);
}

// A Broadcast group of so many members, nothing held, nothing sent.
fn made(members: usize) -> Group
    ensures { result ≡ group_of members }
{
    Group {
        identity: Identity {
            id: 1073741824,
            length: 0,
        },
        core: core(members, 0, 0),
        sending: sending(),
        ring: HistoryRing::default(),
    }
}

// A packet is queued, as the form for a valid state does it. The answer is its code.
#[unsafe(no_mangle)]
pub extern "C" fn queue_one(
    members: &mut [u64],
    pending: &[u64],
    waiting: &[u64],
    history: &[u64],
    sources: &[u64],
    store: &mut [u8],
    used: &mut [u64],
    count: usize,
    id: u64,
    sequence: u64,
    payload: &[u8],
) -> u32
    requires { Ready (parts_of (group_of count))
        (tables members.old pending.now waiting.now history.now sources.now) (length store.old) used.old }
{
    let outcome = queue_data(
        made(count),
        members,
        pending,
        waiting,
        history,
        sources,
        store,
        of_words_mut(used),
        id,
        data(sequence, 0, 0),
        payload,
    );
    outcome_number(outcome)
}

// The front event goes, and its cell is free again.
#[unsafe(no_mangle)]
pub extern "C" fn unqueue_one(members: &mut [u64], used: &mut [u64], index: usize, cell: usize)
    requires has_row { HasRow index members.old }
    requires used_len { length used.old ≡ set_size }
{
    pop_at(members, index);
    free(of_words_mut(used), cell);
}
