// Listings: lines of decimal numbers, each right-justified in a column of a fixed width. The count of columns and their
// width are parameters. Everything here works on slices; a program over it reads and writes.

#![tactic(auto)]

mod reading;
mod stream;
mod writing;

pub use reading::{read_column, read_line};
pub use stream::{OpenLine, read_held_line, read_whole_line};
pub use writing::write_line;

// A line that does not read as numbers.
#[derive(Clone, Copy, Debug)]
pub struct MalformedLine;
