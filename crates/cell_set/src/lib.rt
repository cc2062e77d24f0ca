// A set of the store's cells, a bit to each in WORDS lent words: cell n is bit n % 64 of word n / 64.
// Kept (5): a cell is a number in a lent row; a type with its bound would be made and unmade at each row.

#![tactic(auto)]

ghost use Rattle.std.specs.Prelude.{◌≡◌, [], ◌∷◌, ◌≤◌, ◌<◌, length, eqb};
ghost use Rattle.std.specs.Option.{MatchOption};
ghost use Rattle.std.specs.Borrow.{Lends, Array, u64, sem};
ghost use Rattle.srt_protocol.specs.Cells.{max_cells};
ghost use Rattle.cell_set.specs.Bits.{set_size, bit_at};
ghost use Rattle.cell_set.specs.Marks.{Marking, Marks};
ghost use Rattle.cell_set.specs.Sets.{ShowsCells, Taken, Freed, Passed, FirstWord, LowestFree};

use srt_protocol::received_payload::MAX_CELLS;

// The cells of a word, a bit to each.
const IN_WORD: usize = u64::BITS as usize;

// The words of a set.
pub const WORDS: usize = MAX_CELLS / IN_WORD;

// A set in its words; their number is the type's.
pub type CellSet = [u64; WORDS];

// The words that a host lends, as the set that they are.
pub fn of_words(words: &[u64]) -> &CellSet
    requires { length words.now ≡ set_size }
    ensures { result.now ≡ words.now }
{
    words.try_into().unwrap()
}

pub fn of_words_mut(words: &mut [u64]) -> &mut CellSet
    requires { length words.old ≡ set_size }
    ensures* writes_back { sem 𝓛 (Lends (Array u64 0) (Array u64 0) words.entry result (λ ws. ws)) }
    ensures value { result.now ≡ words.old }
{
    words.as_mut_array().unwrap()
}

// A word whose cells are all taken.
const FULL: u64 = u64::MAX;

#[tactic(auto, unfolding(crate::specs::Bits::bit, crate::specs::Bits::bit_at))]
pub fn is_used(used: &CellSet, cell: usize) -> bool
    requires { cell < max_cells }
    ensures { result ≡ eqb (bit_at used.now cell) 1 }
{
    used[cell / IN_WORD] >> (cell % IN_WORD) & 1 == 1
}

// A cell is taken.
pub fn take(used: &mut CellSet, cell: usize)
    requires { cell < max_cells }
    ensures { Taken cell used.old used.new }
{
    used[cell / IN_WORD] |= 1 << (cell % IN_WORD);
}

// A cell is free again; a number that is no cell changes nothing.
pub fn free(used: &mut CellSet, cell: usize)
    ensures { Freed (cell ∷ []) used.old used.new }
{
    if cell < MAX_CELLS {
        used[cell / IN_WORD] &= !(1 << (cell % IN_WORD));
    }
}

// Marks a cell in the pass of code 6: one that is beyond the store, or named before, is refused.
#[tactic(auto, using(crate::specs::Laws::Marks::beyond_refused, crate::specs::Laws::Marks::again_refused, crate::specs::Laws::Marks::cell_marked))]
pub fn mark(used: &mut CellSet, cells: usize, cell: u64) -> bool
    requires { Marking cells used.old }
    ensures { Marks cells (cell ∷ []) used.old result used.new }
{
    if cells as u64 <= cell || is_used(used, cell as usize) {
        return false;
    }
    take(used, cell as usize);
    true
}

// Every cell is free.
pub fn clear(used: &mut CellSet)
    ensures { ShowsCells used.new [] }
{
    used.fill(0);
}

// The first word that is not full.
fn first_word(used: &CellSet) -> Option<usize>
    ensures { MatchOption result (Passed used.now set_size) (λ at. (at < set_size) × FirstWord used.now at) }
{
    used.iter().position(|word| *word != FULL)
}

// The lowest of so many cells that is free: where the trailing ones of the first word end that is not full.
#[tactic(auto, using(crate::specs::Laws::Sets::ones_inside))]
pub fn lowest_free(used: &CellSet, cells: usize) -> Option<usize>
    requires { cells ≤ max_cells }
    ensures { LowestFree used.now cells result }
{
    let at = first_word(used)?;
    let cell = at * IN_WORD + used[at].trailing_ones() as usize;
    (cell < cells).then_some(cell)
}
