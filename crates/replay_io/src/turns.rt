// A block is read, answered and written. What a file gives or takes no contract can say; over any reader and writer it says that the bytes which
// were read are answered (`answer_block`, `answer_last_line`), that nothing else is written, and that the group stands from block to block.
// Kept (5, 6): rows, answers and text are lent one by one, of any length that suffices: of a struct of `&mut` fields each clause names each field. The
// answers go on to be written, as rows of their own. Of a line's 88 bytes, and of a buffer and a size, see listing_lines.
ghost use Rattle.std.specs.Prelude.{◌≡◌, ◌≤◌, length, take, IfOk, OnOk};
ghost use Rattle.std.specs.Io.KnownBytes.{Appends};
ghost use Rattle.listing.specs.Held.{SameBuffer};
ghost use Rattle.replay_blocks.specs.Blocks.{Roomy};
ghost use Rattle.replay_io.specs.Turns.{BlockRead, BlockReplayed, LastReplayed};

use crate::stopped::Stopped;
use listing::OpenLine;
use replay_blocks::blocks::{answer_block, answer_last_line};
use srt_group::Group;
use srt_group_listing::Line;
use srt_group_replay::{LentReplay, Teller};
use std::io::{Read, Write};

// What is kept from one block to the next where all loans end between them: the group, if one was made, and how many bytes the open line has.
#[derive(Clone, Copy)]
pub struct State {
    pub group: Option<Group>,
    pub size: usize,
}

// A listing that is being replayed: the replay, with its group if one was made, and the open line.
#[derive(Drop)]
pub struct Replaying<'a, T> {
    pub replay: T,
    pub line: OpenLine<'a>,
}

impl Replaying<'_, LentReplay<'_>> {
    // What a host keeps of it: the tables and the buffer are its own.
    pub fn state(&self) -> State
        ensures { result ≡ record { group = self.now.replay.group; size = self.now.line.size } }
    {
        State {
            group: self.replay.group,
            size: self.line.size,
        }
    }
}

// Writes a text, all of it or to the first error.
fn write_text<W: Write>(to: &mut W, text: &[u8]) -> Result<(), Stopped>
    ensures { OnOk result (Appends (W.contents to.old) (W.contents to.new) text.now) }
{
    to.write_all(text).map_err(Stopped::Writing)
}

// Reads one block, answers it, and writes the text of its answers. The answer is how many bytes were read: none where the listing ended.
pub fn turn<R: Read, W: Write, T: Teller>(
    input: &mut R,
    to: &mut W,
    state: &mut Replaying<T>,
    block: &mut [u8],
    rows: &mut [Line],
    answers: &mut [[u64; 6]],
    text: &mut [u8],
) -> Result<usize, Stopped>
    requires whole_line { 88 ≤ length state.old.line.bytes.now }
    requires roomy { Roomy (length block.old) rows.old answers.old text.old }
    ensures keeps { T.lent state.new.replay ≡ T.lent state.old.replay }
    ensures same_buffer { SameBuffer state.old.line state.new.line }
    ensures read { IfOk result (λ count. BlockRead (R.remaining input.old) (R.remaining input.new) count block.new) }
    ensures replayed { IfOk result (λ count. BlockReplayed (take count block.new)
        state.old.line state.new.line
        (T.shown state.old.replay) (T.shown state.new.replay) (W.contents to.old) (W.contents to.new)) }
{
    let count = input.read(block).map_err(Stopped::Reading)?;
    if count == 0 {
        return Ok(0);
    }
    let Replaying { replay, line } = state;
    let end = answer_block(replay, line, &block[..count], rows, answers, text);
    write_text(to, &text[..end])?;
    Ok(count)
}

// The line that the end of the listing ends, where there is one: so many bytes of it stand at the buffer's start.
pub fn finish<W: Write, T: Teller>(
    to: &mut W,
    replay: &mut T,
    bytes: &[u8],
    size: usize,
    answers: &mut [[u64; 6]],
    text: &mut [u8],
) -> Result<(), Stopped>
    requires whole_line { 88 ≤ length bytes.now }
    requires roomy { (1 ≤ length answers.old) × (121 ≤ length text.old) }
    ensures keeps { T.lent replay.new ≡ T.lent replay.old }
    ensures replayed { OnOk result (LastReplayed bytes.now size (T.shown replay.old) (W.contents to.old) (W.contents to.new)) }
{
    let end = answer_last_line(replay, bytes, size, answers, text);
    write_text(to, &text[..end])
}
