// Rows of words in a lent slice: a row is written at its index; the rows behind a place move down by one.

#![tactic(auto)]

ghost use Rattle.std.specs.Prelude.{◌≡◌, ◌+◌, ◌*◌, ◌≤◌, length};
ghost use Rattle.srt_protocol.specs.Cells.{overwritten};
ghost use Rattle.word_rows.specs.Rows.{Closed};

// The row of a table whose rows have as many words is written at the index.
#[tactic(auto, using(crate::specs::Laws::Rows::row_between))]
pub fn put_row<const N: usize>(words: &mut [u64], index: usize, row: [u64; N])
    requires { index * N + N ≤ length words.old }
    ensures { words.new ≡ overwritten (index * N) row.entry words.old }
{
    let (_, rest) = words.split_at_mut(index * N);
    let (place, _) = rest.split_at_mut(N);
    *place.as_mut_array().unwrap() = row;
}

// Kept (5, 6): a place, an end and a width of two tables; a struct of them would be made at each call and read here alone; of words cut at
// the end the promise would speak of their front, and each caller of the whole table.
// The words from `from + width` up to `end` move down by `width`.
pub fn close_gap(words: &mut [u64], from: usize, end: usize, width: usize)
    requires { (from + width ≤ end) × (end ≤ length words.old) }
    ensures { Closed width words.old from end words.new }
{
    words.copy_within(from + width..end, from);
}
