// What the removal of a member asks of those that are left.
ghost use Rattle.std.specs.Prelude.{◌≡◌};
ghost use Rattle.srt_group_model.specs.Removal.{largest_window};
ghost use Rattle.srt_connection_members.specs.Members.{members_in};

use srt_connection_queue::rows::{Row, receiver};

// The largest receive window, that of the removed leg included.
pub fn largest_window(rows: &[Row], window: u64) -> u64
    ensures { result ≡ largest_window window (members_in rows.now) }
{
    rows.iter()
        .fold(window, |largest, row| largest.max(receiver(row).window))
}
