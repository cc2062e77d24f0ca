// The lines of a listing as rows of numbers: the rows that a block of bytes fills, and the text of rows of answers. This is inner
// code of the replay program, between what it reads and what it writes. So its functions have a `requires`: slices as long as the
// most that a block can give, which the program lends.

#![tactic(auto)]

mod taking;
mod writing;

pub use taking::{LINE, Row, last_row, take_lines};
pub use writing::{Answer, write_lines};
