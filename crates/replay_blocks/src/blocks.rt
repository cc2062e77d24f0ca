// The blocks of a listing: the lines that a block ends are taken, told and written as text. `main` only reads blocks and writes texts.
// Kept (5, 6): rows, answers and text are lent one by one, of any length that suffices: of a struct of `&mut` fields each clause names each field. The
// answers go on to be written, as rows of their own. Of a line's 88 bytes, and of a buffer and a size, see listing_lines.
ghost use Rattle.std.specs.Prelude.{◌≡◌, ◌*◌, ◌≤◌, length, replicate};
ghost use Rattle.replay_blocks.specs.Blocks.{Roomy, RowsAnswered, BlockAnswered, LastAnswered};

use listing::OpenLine;
use listing_lines::{last_row, take_lines, write_lines};
use replay_rows::rows::tell_lines;
use srt_group_listing::Line;
use srt_group_replay::Teller;

// Room for the lines of a block, as a program holds it: their rows, the answers to them, and the text of those, 121 bytes a line. Each line
// ends with a byte of its own, so a block has no more lines than bytes.
#[derive(Drop)]
pub struct Room<const LINES: usize, const TEXT: usize> {
    pub rows: [Line; LINES],
    pub answers: [[u64; 6]; LINES],
    pub text: [u8; TEXT],
}

impl<const LINES: usize, const TEXT: usize> Room<LINES, TEXT> {
    // No text yet.
    pub fn new() -> Self
        ensures { result.text ≡ replicate TEXT 0 }
    {
        Room {
            rows: [[0; 8]; LINES],
            answers: [[0; 6]; LINES],
            text: [0; TEXT],
        }
    }
}

// The lines in some rows are told, and their answers written at the text's start. The answer is where they end.
fn answer_rows<T: Teller>(
    replay: &mut T,
    rows: &[Line],
    answers: &mut [[u64; 6]],
    text: &mut [u8],
) -> usize
    requires { (length rows.now ≤ length answers.old) × (121 * length rows.now ≤ length text.old) }
    ensures answered { RowsAnswered rows.now (T.shown replay.old) (T.shown replay.new) text.new result }
    ensures keeps { T.lent replay.new ≡ T.lent replay.old }
{
    tell_lines(replay, rows, answers);
    write_lines(&answers[..rows.len()], text)
}

// The lines that a block ends, the first of them behind what is held of it. The text of their answers stands at the start of the
// text, up to the end that is answered.
pub fn answer_block<T: Teller>(
    replay: &mut T,
    line: &mut OpenLine,
    block: &[u8],
    rows: &mut [Line],
    answers: &mut [[u64; 6]],
    text: &mut [u8],
) -> usize
    requires whole_line { 88 ≤ length line.old.bytes.now }
    requires roomy { Roomy (length block.now) rows.old answers.old text.old }
    ensures answered { BlockAnswered block.now line.old line.new (T.shown replay.old) (T.shown replay.new) text.new result }
    ensures keeps { T.lent replay.new ≡ T.lent replay.old }
{
    let count = take_lines(block, line, rows);
    answer_rows(replay, &rows[..count], answers, text)
}

// The line that the end of the listing ends, where there is one: so many bytes of it stand at the buffer's start.
pub fn answer_last_line<T: Teller>(
    replay: &mut T,
    bytes: &[u8],
    size: usize,
    answers: &mut [[u64; 6]],
    text: &mut [u8],
) -> usize
    requires whole_line { 88 ≤ length bytes.now }
    requires roomy { (1 ≤ length answers.old) × (121 ≤ length text.old) }
    ensures answered { LastAnswered bytes.now size (T.shown replay.old) text.new result }
    ensures keeps { T.lent replay.new ≡ T.lent replay.old }
{
    match last_row(bytes, size) {
        Some(row) => answer_rows(replay, &[row], answers, text),
        None => 0,
    }
}
