// Reading columns and lines.
ghost use Rattle.std.specs.Prelude.{◌≡◌, ◌+◌, ◌*◌, ◌≤◌, ◌<◌, ◌^◌, ltb, length, drop, replicate};
ghost use Rattle.listing.specs.Column.{column, digits_read, LeadingSpaces};
ghost use Rattle.listing.specs.Line.{LineRead, ColumnsRead};

use crate::MalformedLine;

// How many spaces the bytes begin with.
fn leading_spaces(bytes: &[u8]) -> usize
    ensures { LeadingSpaces bytes.now result }
{
    bytes
        .iter()
        .position(|byte| *byte != b' ')
        .unwrap_or(bytes.len())
}

// The number that digits alone read as, where it fits 64 bits.
#[tactic(auto, using(crate::proofs::ColumnLaws::digits_at_start, crate::proofs::ColumnLaws::digits_at_digit, crate::proofs::ColumnLaws::digits_at_no_digit, crate::proofs::ColumnLaws::digits_at_too_large, crate::proofs::ColumnLaws::digits_at_end, crate::proofs::ColumnLaws::no_digits_at_end))]
fn read_digits(bytes: &[u8]) -> Option<u64>
    ensures { result ≡ digits_read bytes.now }
{
    if bytes.is_empty() {
        return None;
    }
    let mut value: u64 = 0;
    for byte in bytes {
        if !byte.is_ascii_digit() {
            return None;
        }
        let digit = u64::from(*byte - b'0');
        value = value.checked_mul(10)?.checked_add(digit)?;
    }
    Some(value)
}

// The number that a column reads as: spaces, then one or more digits to its right edge.
#[tactic(auto, unfolding(crate::specs::Column::column))]
pub fn read_column(bytes: &[u8]) -> Option<u64>
    ensures { result ≡ column bytes.now }
{
    read_digits(&bytes[leading_spaces(bytes)..])
}

// Reads the columns that the bytes begin with, one for each number, and answers where they end.
#[tactic(auto, using(crate::proofs::LineLaws::columns_too_short, crate::proofs::LineLaws::columns_malformed, crate::proofs::LineLaws::columns_more, crate::proofs::LineLaws::values_more, crate::proofs::LineLaws::column_passed, crate::proofs::LineLaws::no_columns))]
pub fn read_columns(bytes: &[u8], width: usize, numbers: &mut [u64]) -> Option<usize>
    ensures { ColumnsRead width bytes.now numbers.old numbers.new result }
{
    let mut rest = bytes;
    for number in numbers.iter_mut() {
        let (column, behind) = rest.split_at_checked(width)?;
        *number = read_column(column)?;
        rest = behind;
    }
    Some(bytes.len() - rest.len())
}

// Reads a line that is exactly one column for each number. The numbers of a malformed line are 0.
#[tactic(auto, using(crate::proofs::LineLaws::columns_end, crate::proofs::LineLaws::columns_refused, crate::proofs::LineLaws::well_formed_length, crate::proofs::LineLaws::not_well_formed, crate::proofs::LineLaws::malformed_line, crate::proofs::LineLaws::line_of_columns))]
pub fn read_line(line: &[u8], width: usize, numbers: &mut [u64]) -> Result<(), MalformedLine>
    ensures { LineRead width line.now numbers.old numbers.new result }
{
    match read_columns(line, width, numbers) {
        Some(end) if end == line.len() => Ok(()),
        _ => {
            numbers.fill(0);
            Err(MalformedLine)
        }
    }
}
