// What the Backup carrier sent and its peer has not acknowledged: a ring over two lent arrays of 512 places. A word of
// `history` is the sequence of an entry, its cell and its length; `sources` has its source time.
// Kept (5, 6): the arrays come through the C interface. `store` changes both, and is no plainer over a struct of `&mut` fields: its clause
// would name what each field holds at the end by a ghost name. The `entry_at` of the parts is of any ring, also of one too long for a `History`:
// a rule of the project keeps what it promises.
ghost use Rattle.std.specs.Prelude.{◌≡◌, [], ◌+◌, ◌%◌, ◌≤◌, ◌<◌, length, get_or};
ghost use Rattle.srt_group_model.specs.Backup.{max_history};
ghost use Rattle.srt_group_tables.specs.Ring.{Long, arrays, cells_in_word, lengths_in_word, entry_word, word_sequence, word_cell, word_length, Packs, entry_at, with_entry, next_place, after_push, Trimmed};

use crate::pending::CELLS;
use srt_group_model::Entry;
use srt_protocol::srt_packet::word_before;
use srt_protocol::time::Timestamp;

// The most entries that are kept: half of the stand-in's output queue.
pub const MAX_HISTORY: usize = 512;

// A word is (a sequence times `CELLS` plus a cell) times this, plus a length. A cell has fewer bytes.
const LENGTHS: u64 = 2048;

// The places in use: so many from the start on, which is read modulo 512. The oldest entry stands at the start.
#[repr(C)]
#[derive(Clone, Copy, Default)]
pub struct HistoryRing {
    pub start: usize,
    pub length: usize,
}

// ---- a word

// The word of an entry.
pub fn entry_word(sequence: u64, cell: u64, length: u64) -> u64
    requires { Packs sequence cell length }
    ensures { result ≡ entry_word sequence cell length }
{
    (sequence * CELLS + cell) * LENGTHS + length
}

// The sequence of the entry that a word shows.
pub fn sequence_of(word: u64) -> u64
    ensures { result ≡ word_sequence word }
{
    word / LENGTHS / CELLS
}

// Its cell.
pub fn cell_of(word: u64) -> u64
    ensures { (result ≡ word_cell word) × (result < cells_in_word) }
{
    word / LENGTHS % CELLS
}

// Its length.
pub fn length_of(word: u64) -> u64
    ensures { (result ≡ word_length word) × (result < lengths_in_word) }
{
    word % LENGTHS
}

// ---- the ring

// The place of the entry so many behind the oldest; behind the newest is where the next one goes.
pub fn place(ring: HistoryRing, index: usize) -> usize
    ensures { (result ≡ (ring.start + index) % max_history) × (result < max_history) }
{
    ring.start.wrapping_add(index) % MAX_HISTORY
}

// The entry so many behind the oldest.
pub fn entry_at(ring: HistoryRing, history: &[u64], sources: &[u64], index: usize) -> Entry
    requires { Long (arrays history.now sources.now) }
    ensures { result ≡ entry_at ring (arrays history.now sources.now) index }
{
    let at = place(ring, index);
    let word = history[at];
    let source = Timestamp(sources[at]);
    Entry {
        sequence: sequence_of(word),
        cell: cell_of(word),
        length: length_of(word),
        source,
    }
}

// An entry is stored behind the newest, in the place that `push_back` then counts in.
pub fn store(ring: HistoryRing, history: &mut [u64], sources: &mut [u64], entry: Entry)
    requires long { Long (arrays history.old sources.old) }
    requires packs { Packs entry.sequence entry.cell entry.length }
    ensures { arrays history.new sources.new
        ≡ with_entry (next_place ring) entry (arrays history.old sources.old) }
{
    let at = place(ring, ring.length);
    history[at] = entry_word(entry.sequence, entry.cell, entry.length);
    sources[at] = entry.source.0;
}

// The ring once an entry was stored behind the newest. A full one loses its oldest.
#[tactic(auto, using(crate::specs::Laws::Ring::push_with_room, crate::specs::Laws::Ring::push_of_full))]
pub fn push_back(ring: HistoryRing) -> HistoryRing
    ensures { result ≡ after_push ring }
{
    if ring.length < MAX_HISTORY {
        return HistoryRing {
            start: ring.start,
            length: ring.length + 1,
        };
    }
    HistoryRing {
        start: (ring.start % MAX_HISTORY + 1) % MAX_HISTORY,
        length: ring.length,
    }
}

// ---- a history, lent to read

// The ring with the words of its entries, which show all but their source times.
#[derive(Clone, Copy)]
pub struct HistoryWords<'a> {
    pub ring: HistoryRing,
    pub history: &'a [u64],
    ghost history_long: { length history.now ≡ max_history },
}

// A ring of at most 512 entries, with all that is kept of them.
#[derive(Clone, Copy)]
pub struct History<'a, 'b> {
    pub words: HistoryWords<'a>,
    pub sources: &'b [u64],
    ghost ring_fits: { words.ring.length ≤ max_history },
    ghost sources_long: { length sources.now ≡ max_history },
}

impl HistoryWords<'_> {
    // The word of the entry so many behind the oldest.
    fn word_at(&self, index: usize) -> u64
        ensures { result ≡ get_or self.now.history.now ((self.now.ring.start + index) % max_history) 0 }
    {
        self.history[place(self.ring, index)]
    }

    // Its sequence.
    pub fn sequence_at(&self, index: usize) -> u64
        ensures { result ≡ word_sequence (get_or self.now.history.now ((self.now.ring.start + index) % max_history) 0) }
    {
        sequence_of(self.word_at(index))
    }

    // Its cell.
    pub fn cell_at(&self, index: usize) -> u64
        ensures { result ≡ word_cell (get_or self.now.history.now ((self.now.ring.start + index) % max_history) 0) }
    {
        cell_of(self.word_at(index))
    }

    // The ring without the entries at the front that are before `oldest`; if none is, word for word as it was.
    pub fn drop_before(&self, oldest: u64) -> HistoryRing
        ensures { Trimmed oldest self.now.history.now self.now.ring result }
    {
        let ring = self.ring;
        let dropped = (0..ring.length)
            .find(|at| !word_before(self.sequence_at(*at), oldest))
            .unwrap_or(ring.length);
        if dropped == 0 {
            return ring;
        }
        HistoryRing {
            start: place(ring, dropped),
            length: ring.length - dropped,
        }
    }
}

impl History<'_, '_> {
    // The entry so many behind the oldest.
    pub fn entry_at(&self, index: usize) -> Entry
        ensures { result ≡ entry_at self.now.words.ring (arrays self.now.words.history.now self.now.sources.now) index }
    {
        entry_at(self.words.ring, self.words.history, self.sources, index)
    }
}
