// Rows of 8 numbers from blocks of bytes.
// Kept (5): that the buffer has room for a line (88 bytes) is asked of each call; a struct with that fact would stand between a caller's open line and
// these functions, and be made anew at each.
ghost use Rattle.std.specs.Prelude.{◌≤◌, length};
ghost use Rattle.listing_lines.specs.Taken.{LinesTakenFrom, LineTakenFrom, LastLineTaken};

use listing::OpenLine;

// The eight numbers of a line.
pub type Row = [u64; 8];

// The bytes of a line: 8 columns of 11. An open line's buffer has room for them, or for more.
pub const LINE: usize = 88;

// The bytes of a column.
const WIDTH: usize = 11;

// Takes the bytes of a block up to the next line feed behind what is held of the line, reads the line that it ends, and answers the
// block behind it.
fn take_through<'a>(block: &'a [u8], line: &mut OpenLine, row: &mut Row) -> Option<&'a [u8]>
    requires { 88 ≤ length line.old.bytes.now }
    ensures { LineTakenFrom block.now line.old line.new row.new result }
{
    let rest = line.take(block, 0)?;
    // The numbers of a malformed line are 0.
    let _ = line.read(WIDTH, row);
    line.clear();
    Some(rest)
}

// The same, with a quicker way for a well-formed line that stands whole in the block.
fn take_next<'a>(block: &'a [u8], line: &mut OpenLine, row: &mut Row) -> Option<&'a [u8]>
    requires { 88 ≤ length line.old.bytes.now }
    ensures { LineTakenFrom block.now line.old line.new row.new result }
{
    if line.is_empty() {
        if let Some(rest) = listing::read_whole_line(block, 0, WIDTH, row) {
            return Some(rest);
        }
    }
    take_through(block, line, row)
}

// Takes all lines that a block ends, the first of them behind what is held of it: a row each. The answer is how many they are.
pub fn take_lines(block: &[u8], line: &mut OpenLine, rows: &mut [Row]) -> usize
    requires { (88 ≤ length line.old.bytes.now) × (length block.now ≤ length rows.old) }
    ensures { LinesTakenFrom block.now line.old line.new rows.new result }
{
    let mut rest = block;
    for (index, row) in rows.iter_mut().enumerate() {
        let Some(behind) = take_next(rest, line, row) else {
            return index;
        };
        rest = behind;
    }
    rows.len()
}

// The row of the line that the end of the stream ends, if a byte of it came: of a buffer, and of how many bytes of the line stand at its start.
// Kept (6): a size above the buffer's length says that the line is longer, so no slice stands for both, and an `Option` of one is no plainer.
#[tactic(auto, using(crate::specs::Laws::Taken::no_last_line))]
pub fn last_row(bytes: &[u8], size: usize) -> Option<Row>
    requires { 88 ≤ length bytes.now }
    ensures { LastLineTaken bytes.now size result }
{
    if size == 0 {
        return None;
    }
    let mut row = [0; 8];
    let _ = listing::read_held_line(bytes, size, WIDTH, &mut row);
    Some(row)
}
