// Whether a refresh of the members' states would change nothing. Polls ask it first: nearly always it is so.
// `refresh_pending_states` goes through the members twice and `refresh_states` four times, and in Backup each looks for an
// active member besides.
// Kept (1): the mode is the record's word, which a C host lends so that 6 can refuse it; an enum of two modes says what `is_backup` says, and is no plainer.
ghost use Rattle.std.specs.Prelude.{◌≡◌};
ghost use Rattle.srt_group_model.specs.Tools.{all};
ghost use Rattle.srt_connection_queue.specs.Rows.{member_of};
ghost use Rattle.srt_connection_members.specs.Members.{members_in};
ghost use Rattle.srt_group_members.specs.Quiet.{is_steady, is_quiet};

use crate::states::{
    ACTIVE, BROKEN, CONNECTED, HANDSHAKING, STANDBY, has_active_member, is_backup,
};
use srt_connection_queue::rows::{Row, admitted, link_state, member_state};

// Kept (1): a state or a flag of the row is asked as the word that it is, as the definitions ask it.
// Broken; or still handshaking; or connected, admitted, and Active or Standby. Three words of the row are read.
#[tactic(auto, unfolding(crate::specs::Quiet::is_steady))]
fn is_steady(row: &Row) -> bool
    ensures { result ≡ is_steady (member_of row.now) }
{
    let state = member_state(row);
    let link = link_state(row);
    let admitted = admitted(row);
    (state == BROKEN)
        | ((link == HANDSHAKING)
            | ((link == CONNECTED) & ((admitted != 0) & ((state == ACTIVE) | (state == STANDBY)))))
}

// Kept (3): without an end before the last. By `all`, which ends at the first unsteady row, a row costs 23 instructions, by a fold over all of them 13.
fn steady_throughout(rows: &[Row]) -> bool
    ensures { result ≡ all is_steady (members_in rows.now) }
{
    rows.iter()
        .fold(true, |steady, row| steady & is_steady(row))
}

// It ends at the first eight rows that are not all steady.
fn all_steady(rows: &[Row]) -> bool
    ensures { result ≡ all is_steady (members_in rows.now) }
{
    let (eights, rest) = rows.as_chunks::<8>();
    eights.iter().all(|eight| steady_throughout(eight)) && steady_throughout(rest)
}

// Every member is steady, and in Backup one is active.
#[tactic(auto, using(crate::specs::Laws::Quiet::one_moves, crate::specs::Laws::Quiet::quiet_in_broadcast, crate::specs::Laws::Quiet::quiet_in_backup))]
pub fn is_quiet(rows: &[Row], mode: u64) -> bool
    ensures { result ≡ is_quiet mode (members_in rows.now) }
{
    all_steady(rows) && (!is_backup(mode) || has_active_member(rows))
}
