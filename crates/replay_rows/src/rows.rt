// The lines of a block over the group, row by row: a row of eight numbers is told, and its six numbers are a row of the answers.
ghost use Rattle.std.specs.Prelude.{◌≡◌, ◌≤◌, length, take};
ghost use Rattle.srt_group_listing.specs.Telling.{numbers_of};
ghost use Rattle.replay_rows.specs.Rows.{RowsTold};

use srt_group_listing::{Line, Printed};
use srt_group_replay::Teller;

// The numbers of an output line.
// Kept (4): a `From` would stand beside `Printed`, in srt_group_listing, for this one call here: no plainer.
fn numbers(line: Printed) -> [u64; 6]
    ensures { result ≡ numbers_of line }
{
    [
        line.verb,
        line.code,
        line.leg,
        line.sequence,
        line.count,
        line.skipped,
    ]
}

// All lines are told, one after the other, each answer into the same row of the answers.
// Kept (5, 6): rows and answers are lent one by one, each of any length that suffices; the answers go on to be written, as rows of their own.
pub fn tell_lines<T: Teller>(replay: &mut T, rows: &[Line], answers: &mut [[u64; 6]])
    requires { length rows.now ≤ length answers.old }
    ensures told { RowsTold rows.now (T.shown replay.old) (T.shown replay.new) (take (length rows.now) answers.new) }
    ensures keeps { T.lent replay.new ≡ T.lent replay.old }
{
    // Kept (3): tried as a zip with `answers.iter_mut()`: its proof did not close, since of what such a loop wrote the check knows no more than the length.
    for (index, row) in rows.iter().enumerate() {
        answers[index] = numbers(replay.tell(row));
    }
}
