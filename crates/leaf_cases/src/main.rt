// Runs the leaves of srt_protocol on the lines of standard input, up to 65,536 bytes of them. A line is three numbers, each
// right-justified in 21 columns: an operation and its arguments. The answer is two: the operation and its answer, or 0 and 2
// for a malformed line, an unknown operation or an argument beyond its range.
//
// The stored input and output are the questions and answers that the Rust's own leaves give: oracle/check makes them anew with
// oracle/srt-protocol/examples/leaf_cases.rs and compares.
// Kept (3): a read gives any number of bytes; read_exact does not say how many came before the input's end, and read_to_end takes a Vec, which is
// on the heap.
// Kept (7): the operations' numbers are those of the stored questions; an enum of the four would be made by the very same match.

#![tactic(auto)]

ghost use Rattle.std.specs.Prelude.{◌≤◌, length, IfOk};

use listing::MalformedLine;
use srt_protocol::time::Timestamp;
use srt_protocol::{srt_handshake, srt_packet};
use std::io;
use std::io::{Read, Write};

const WIDTH: usize = 21;

// Two sequence numbers or ids, where both are in range.
fn in_range(a: u64, b: u64) -> Option<(u32, u32)> {
    Some((u32::try_from(a).ok()?, u32::try_from(b).ok()?))
}

// 1: a is before b. 2: microseconds from b to a. 3: b microseconds after a. 4: a is a group's id. No answer is there for an
// unknown operation or an argument beyond its range.
// Kept (1): a column of the question: any number is one, and what is no operation gets no answer here.
fn run_leaf(operation: u64, a: u64, b: u64) -> Option<u64> {
    match operation {
        1 => in_range(a, b).map(|(a, b)| u64::from(srt_packet::sequence_less_than(a, b))),
        2 => Some(Timestamp(a).saturating_sub(Timestamp(b))),
        3 => Some(Timestamp(a).add_micros(b).0),
        4 => in_range(a, b).map(|(a, _)| u64::from(srt_handshake::is_group_id(u64::from(a)))),
        _ => None,
    }
}

// Writes the answer of a line at the start of an output, and gives its end. What has no room is not written.
fn answer_line(line: &[u8], out: &mut [u8]) -> usize
    ensures { result ≤ length out.old }
{
    let mut numbers = [0u64; 3];
    let answer = match listing::read_line(line, WIDTH, &mut numbers) {
        Ok(()) => run_leaf(numbers[0], numbers[1], numbers[2]),
        Err(MalformedLine) => None,
    };
    let pair = answer.map_or([0, 2], |number| [numbers[0], number]);
    listing::write_line(out, 0, WIDTH, &pair).unwrap_or(0)
}

// The answers of all lines, from the start of an output, and their end.
fn answer_lines(lines: &[u8], out: &mut [u8]) -> usize
    ensures { result ≤ length out.old }
{
    let mut end: usize = 0;
    for line in lines.split_inclusive(|byte| *byte == b'\n') {
        end += answer_line(line.strip_suffix(b"\n").unwrap_or(line), &mut out[end..]);
    }
    end
}

// Reads until the buffer is full or the input ends, and gives how many bytes stand at the buffer's start.
fn read_full(input: &mut impl Read, buffer: &mut [u8]) -> io::Result<usize>
    ensures { IfOk result (λ size. size ≤ length buffer.new) }
{
    let mut size: usize = 0;
    while size < buffer.len() {
        let got = input.read(&mut buffer[size..])?;
        if got == 0 {
            break;
        }
        size += got;
    }
    Ok(size)
}

fn answer_input(
    from: &mut impl Read,
    input: &mut [u8],
    to: &mut impl Write,
    output: &mut [u8],
) -> io::Result<()> {
    let size = read_full(from, input)?;
    let end = answer_lines(&input[..size], output);
    to.write_all(&output[..end])
}

fn main(rt: HostRuntime) -> io::Result<()> {
    let mut input = [0u8; 65536];
    let mut output = [0u8; 65536];
    answer_input(&mut rt.stdin(), &mut input, &mut rt.stdout(), &mut output)
}
