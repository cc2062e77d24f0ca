// A carrier that fell silent turns Unstable, so that a Standby member takes over.
// Kept (5, 6): a C host lends the members as words, with the count of rows in use; `as_chunks_mut` says nothing of what the words end as.
ghost use Rattle.std.specs.Prelude.{◌≡◌, ◌&&◌, ◌*◌, ◌≤◌, length};
ghost use Rattle.srt_group_model.specs.Tools.{any};
ghost use Rattle.srt_group_model.specs.Members.{is_standby};
ghost use Rattle.srt_group_model.specs.Backup.{stability_timeout, is_stale, demote_stale_backup_carrier};
ghost use Rattle.srt_group_model.specs.Sound.{AllFit};
ghost use Rattle.srt_connection_queue.specs.Rows.{row_size};
ghost use Rattle.srt_connection_members.specs.Members.{members_in, members_of};
ghost use Rattle.srt_group_members.specs.Scan.{Became};
ghost use Rattle.srt_group_backup.specs.Stale.{TripFit};

use srt_connection::legs::has_sender;
use srt_connection_members::{leg_at, rows};
use srt_connection_queue::rows::Row;
use srt_group_members::states::{UNSTABLE, first_active, is_standby, turn_at};
use srt_group_model::Leg;
use srt_protocol::time::Timestamp;

// The least stability timeout, in microseconds.
const LEAST_TIMEOUT: u64 = 60_000;

// How long a carrier may be silent: twice the round trip and four times its variance, but not less than 60 ms.
#[tactic(auto, unfolding(srt_group_model::specs::Backup::stability_timeout))]
pub fn stability_timeout(leg: Leg) -> u64
    requires { TripFit leg }
    ensures { result ≡ stability_timeout leg }
{
    let estimate = 2 * leg.trip.srtt + 4 * leg.trip.rttvar;
    estimate.max(LEAST_TIMEOUT)
}

// Data is outstanding, and the peer has been silent for longer than the timeout. Silence is counted from the oldest send or, if
// that is later, from when the peer was last heard.
#[tactic(auto, using(crate::specs::Laws::Stale::no_sender_not_stale, crate::specs::Laws::Stale::no_flight_not_stale, crate::specs::Laws::Stale::stale_by_silence))]
pub fn is_stale(leg: Leg, time: Timestamp) -> bool
    requires { TripFit leg }
    ensures { result ≡ is_stale time.0 leg }
{
    let since = leg.trip.heard.max(leg.sender.oldest);
    let silence = time.saturating_sub(since);
    has_sender(leg) && leg.sender.flight != 0 && stability_timeout(leg) < silence
}

// Whether a connected Standby member could take over.
pub fn has_standby(rows: &[Row]) -> bool
    ensures { result ≡ any is_standby (members_in rows.now) }
{
    rows.iter().any(is_standby)
}

// Its connection stays up: it requalifies once its flight has drained.
pub fn demote_stale_backup_carrier(members: &mut [u64], count: usize, time: Timestamp)
    requires row_size_in_bounds { count * row_size ≤ length members.old }
    requires all_fit { AllFit (members_of count members.old) }
    ensures { Became count (demote_stale_backup_carrier time.0 (members_of count members.old))
        members.old members.new }
{
    let found = first_active(rows(members, count));
    let Some(index) = found else {
        return;
    };
    if has_standby(rows(members, count)) && is_stale(leg_at(members, index), time) {
        turn_at(members, index, UNSTABLE);
    }
}
