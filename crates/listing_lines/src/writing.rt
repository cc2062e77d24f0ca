// Text from rows of 6 numbers.
ghost use Rattle.std.specs.Prelude.{◌*◌, ◌≤◌, length};
ghost use Rattle.listing_lines.specs.Text.{LineWritten, LinesWritten};

// The six numbers of an output line.
pub type Answer = [u64; 6];

// The bytes of a column, where its number is no longer.
const WIDTH: usize = 11;

// Writes a row at the start, and answers its end. Six numbers of at most 20 digits and a line feed have room in 121 bytes.
fn write_row(row: &Answer, out: &mut [u8]) -> usize
    requires { 121 ≤ length out.old }
    ensures { LineWritten row.now out.old out.new result }
{
    // By what is asked of the room, a row is never refused.
    listing::write_line(out, 0, WIDTH, row).unwrap_or(0)
}

// Writes rows, a line each, and answers the text's end.
pub fn write_lines(rows: &[Answer], out: &mut [u8]) -> usize
    requires { 121 * length rows.now ≤ length out.old }
    ensures { LinesWritten rows.now out.new result }
{
    let mut end: usize = 0;
    for row in rows {
        end += write_row(row, &mut out[end..]);
    }
    end
}
