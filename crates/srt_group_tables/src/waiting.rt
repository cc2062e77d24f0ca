// The group's lifecycle events that are not given out yet: rows of three words in a lent table, first come first. The first
// `count` rows are in use; what the others hold is free.
// Kept (5, 6): the table and the record come through the C interface, and the count of the rows in use stands in the record.
ghost use Rattle.std.specs.Prelude.{◌≡◌, [], ◌∷◌, ◌++◌, ◌+◌, ◌-◌, ◌≤◌, ◌<◌, length, drop};
ghost use Rattle.srt_group_model.specs.Validity.{max_waiting};
ghost use Rattle.srt_group_tables.specs.Waitings.{waiting_size, waiting_row_size, waiting_of, waiting_words, waiting_at, waitings, HoldsWaiting};

use srt_group_model::Waiting;

// The words of a row.
const WAITING_WORDS: usize = 3;

// The most events that wait: one for each visit of a poll.
pub const MAX_WAITING: usize = 64;

// The words of the table: a row for each of them.
pub const WAITING_LENGTH: usize = MAX_WAITING * WAITING_WORDS;

#[tactic(auto, unfolding(crate::specs::Waitings::waiting_of))]
fn read_waiting(row: &[u64; WAITING_WORDS]) -> Waiting
    ensures { result ≡ waiting_of row.now }
{
    Waiting {
        member: row[0],
        kind: row[1],
        reason: row[2],
    }
}

#[tactic(auto, unfolding(crate::specs::Waitings::waiting_words))]
fn words_of(event: Waiting) -> [u64; WAITING_WORDS]
    ensures { result ≡ waiting_words event }
{
    [event.member, event.kind, event.reason]
}

// The event of a row: the first is the front.
#[tactic(auto, using(word_rows::specs::Laws::Rows::chunk_there), unfolding(crate::specs::Waitings::waiting_at))]
pub fn waiting_event(waiting: &[u64], at: usize) -> Waiting
    requires { (waiting_size ≤ length waiting.now) × (at < max_waiting) }
    ensures { result ≡ waiting_at waiting.now at }
{
    let (rows, _) = waiting.as_chunks::<WAITING_WORDS>();
    read_waiting(&rows[at])
}

// An event behind the last.
#[tactic(auto, using(crate::specs::Laws::Waitings::waiting_pushed))]
pub fn push_back(waiting: &mut [u64], count: usize, event: Waiting)
    requires { (waiting_size ≤ length waiting.old) × (count < max_waiting) }
    ensures { HoldsWaiting (length waiting.old) waiting.new (count + 1)
        (waitings count waiting.old ++ (event ∷ [])) }
{
    word_rows::put_row(waiting, count, words_of(event));
}

// The front goes.
pub fn pop_front(waiting: &mut [u64], count: usize)
    requires { (waiting_size ≤ length waiting.old) × (0 < count) × (count ≤ max_waiting) }
    ensures { HoldsWaiting (length waiting.old) waiting.new (count - 1) (drop 1 (waitings count waiting.old)) }
{
    word_rows::close_gap(waiting, 0, count * WAITING_WORDS, WAITING_WORDS);
}
