// Writing lines of columns.
ghost use Rattle.std.specs.Prelude.{◌≡◌, ◌-◌, ◌≤◌, leb, length};
ghost use Rattle.listing.specs.Text.{digits, right_justified, line_text};
ghost use Rattle.listing.specs.Placed.{placed, Placed, PlacedOrRefused};

// How many decimal digits a number has.
fn digit_count(number: u64) -> usize
    ensures { result ≡ length (digits number) }
{
    number.checked_ilog10().map_or(1, |log| log as usize + 1)
}

// How wide a number's column is: the width, or as many digits as it needs.
#[tactic(auto, using(crate::proofs::TextLaws::length_right_justified))]
fn column_length(width: usize, number: u64) -> usize
    ensures { result ≡ length (right_justified width number) }
{
    digit_count(number).max(width)
}

// Puts the digits of a number so that the last stands before a place.
#[tactic(auto, using(crate::proofs::PlacedLaws::set_placed, crate::proofs::PlacedLaws::placed_last_byte_first, crate::proofs::TextLaws::digits_some, crate::proofs::TextLaws::digits_of_one, crate::proofs::TextLaws::digits_of_more, crate::proofs::TextLaws::length_digits_of_more))]
fn put_digits(out: &mut [u8], end: usize, number: u64)
    requires { (length (digits number) ≤ end) × (end ≤ length out.old) }
    ensures { out.new ≡ placed out.old (end - length (digits number)) (digits number) }
{
    let mut rest = number;
    // Kept (3): `out[..end].iter_mut().rev()` was tried: its proof did not close, since of what such a loop wrote the check knows no more than the length.
    for at in (0..end).rev() {
        out[at] = (rest % 10) as u8 + b'0';
        rest /= 10;
        if rest == 0 {
            return;
        }
    }
}

// Puts a number's column at the start, and answers its end. Spaces over the whole width first, then the digits over them:
// a fixed width is cheaper to fill than what the digits leave of it.
#[tactic(auto, using(crate::proofs::TextLaws::length_right_justified))]
fn put_column(out: &mut [u8], width: usize, number: u64) -> usize
    requires { length (right_justified width number) ≤ length out.old }
    ensures { Placed out.old (right_justified width number) out.new result }
{
    let end = column_length(width, number);
    out[..width].fill(b' ');
    put_digits(out, end, number);
    end
}

// Whether a line of numbers has room in so many bytes.
#[tactic(auto, using(crate::proofs::TextLaws::length_line_text, crate::proofs::TextLaws::columns_text_from, crate::proofs::TextLaws::columns_text_none))]
fn has_room_for_line(width: usize, numbers: &[u64], room: usize) -> bool
    ensures { result ≡ leb (length (line_text width numbers.now)) room }
{
    let mut left = room;
    for number in numbers {
        let Some(rest) = left.checked_sub(column_length(width, *number)) else {
            return false;
        };
        left = rest;
    }
    0 < left
}

// Puts a line of numbers at the start, with its line feed, and answers its end.
#[tactic(auto, using(crate::proofs::TextLaws::length_line_text, crate::proofs::TextLaws::columns_text_upto, crate::proofs::TextLaws::columns_text_next, crate::proofs::TextLaws::length_right_justified, crate::proofs::PlacedLaws::begun_further, crate::proofs::PlacedLaws::begun_byte_more))]
fn put_line(out: &mut [u8], width: usize, numbers: &[u64]) -> usize
    requires { length (line_text width numbers.now) ≤ length out.old }
    ensures { Placed out.old (line_text width numbers.now) out.new result }
{
    let mut end: usize = 0;
    for number in numbers {
        end += put_column(&mut out[end..], width, *number);
    }
    out[end] = b'\n';
    end + 1
}

// Writes a line of numbers at a place, with its line feed, and answers its end; or changes nothing where there is no room for it, as behind the
// end of all.
#[tactic(auto, using(crate::proofs::PlacedLaws::text_refused))]
pub fn write_line(out: &mut [u8], at: usize, width: usize, numbers: &[u64]) -> Option<usize>
    ensures { PlacedOrRefused out.old at (line_text width numbers.now) out.new result }
{
    let room = out.len().checked_sub(at)?;
    if !has_room_for_line(width, numbers, room) {
        return None;
    }
    Some(at + put_line(&mut out[at..], width, numbers))
}
