// Lines from blocks.
ghost use Rattle.std.specs.Prelude.{◌≡◌, drop, eqb};
ghost use Rattle.listing.specs.Held.{SameBuffer, Appended, TakenFrom, HeldRead, WholeRead};

use crate::MalformedLine;
use crate::reading::{read_columns, read_line};

// A line that is not yet whole: its bytes so far, which stand at the start of a buffer that is lent, and how many they are. Of a line that
// is longer than the buffer only that is kept, by a larger size.
// Kept (6): no heap, so the bytes stand in a buffer that the caller lends, with their count beside it.
// Kept (1): a state of its own for a line that is too long is no plainer: `append` compares with the buffer's length either way, and `read` would match
// in place of it.
#[derive(Drop)]
pub struct OpenLine<'a> {
    pub bytes: &'a mut [u8],
    pub size: usize,
}

impl<'a> OpenLine<'a> {
    // No byte of a line.
    pub fn new(bytes: &'a mut [u8]) -> OpenLine<'a>
        ensures same_buffer { result.bytes.ghost_name ≡ bytes.entry.ghost_name }
        ensures same_bytes { result.bytes.now ≡ bytes.old }
        ensures empty { result.size ≡ 0 }
    {
        OpenLine { bytes, size: 0 }
    }

    // Whether it has no byte.
    pub fn is_empty(&self) -> bool
        ensures { result ≡ eqb self.now.size 0 }
    {
        self.size == 0
    }

    // Lets go of its bytes.
    pub fn clear(&mut self)
        ensures same_buffer { SameBuffer self.old self.new }
        ensures empty { self.new.size ≡ 0 }
    {
        self.size = 0;
    }

    // Adds bytes.
    fn append(&mut self, bytes: &[u8])
        ensures { Appended self.old bytes.now self.new }
    {
        let length = self.bytes.len();
        if length < self.size {
            return;
        }
        if length - self.size < bytes.len() {
            self.size = length + 1;
            return;
        }
        let end = self.size + bytes.len();
        self.bytes[self.size..end].copy_from_slice(bytes);
        self.size = end;
    }

    // Takes a line from a block from a place on, up to its line feed or the block's end, and answers the block behind the line feed. Behind
    // the block's end no byte stands.
    pub fn take<'b>(&mut self, block: &'b [u8], from: usize) -> Option<&'b [u8]>
        ensures { TakenFrom (drop from block.now) self.old self.new result }
    {
        let stream = block.get(from..)?;
        match stream.iter().position(|byte| *byte == b'\n') {
            Some(feed) => {
                self.append(&stream[..feed]);
                Some(&stream[feed + 1..])
            }
            None => {
                self.append(stream);
                None
            }
        }
    }

    // Reads the line.
    pub fn read(&self, width: usize, numbers: &mut [u64]) -> Result<(), MalformedLine>
        ensures { HeldRead width self.now.bytes.now self.now.size numbers.old numbers.new result }
    {
        read_held_line(self.bytes, self.size, width, numbers)
    }
}

// Reads the line that a buffer holds, of which so many bytes stand at the start. One that is longer than the buffer is malformed.
// Kept (6): a size above the buffer's length says that the line is longer, so no slice stands for both, and an `Option` of one is no plainer.
pub fn read_held_line(
    bytes: &[u8],
    size: usize,
    width: usize,
    numbers: &mut [u64],
) -> Result<(), MalformedLine>
    ensures { HeldRead width bytes.now size numbers.old numbers.new result }
{
    if bytes.len() < size {
        numbers.fill(0);
        return Err(MalformedLine);
    }
    read_line(&bytes[..size], width, numbers)
}

// Reads a well-formed line where it stands in a block from a place on, with its line feed, and answers the block behind it: no search for
// the line feed and no copy. For any other line, and behind the block's end, there is no answer.
#[tactic(auto, using(crate::proofs::LineLaws::columns_end, crate::proofs::LineLaws::columns_refused, crate::proofs::WholeLaws::whole_found, crate::proofs::WholeLaws::whole_not_found, crate::proofs::WholeLaws::none_whole_behind))]
pub fn read_whole_line<'a>(
    block: &'a [u8],
    from: usize,
    width: usize,
    numbers: &mut [u64],
) -> Option<&'a [u8]>
    ensures { WholeRead (drop from block.now) width numbers.old numbers.new result }
{
    let stream = block.get(from..)?;
    let end = read_columns(stream, width, numbers)?;
    stream[end..].strip_prefix(b"\n")
}
