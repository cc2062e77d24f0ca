// The Backup history without what the carrier's peer acknowledged, and whether it still reaches back to the oldest send that is
// not acknowledged: a full history loses its oldest entry.
ghost use Rattle.std.specs.Prelude.{◌≡◌};
ghost use Rattle.srt_group_model.specs.Tools.{bit};
ghost use Rattle.srt_group_model.specs.Backup.{trim_backup_history};
ghost use Rattle.srt_connection_members.specs.Members.{members_in};
ghost use Rattle.srt_group_backup.specs.Trimming.{front_after, SendTrimmed, TrimmedByCarrier};

use srt_connection::legs::{has_sender, oldest_unacked_sequence};
use srt_connection_members::find;
use srt_connection_queue::rows::{Row, leg};
use srt_group_model::{Leg, Sending};
use srt_group_tables::history::{HistoryRing, HistoryWords};
use srt_protocol::srt_packet::word_before;

// The numbers of sending and the ring of the history, as a call leaves them.
#[derive(Clone, Copy)]
pub struct SendHistory {
    pub sending: Sending,
    pub ring: HistoryRing,
}

// Whether the oldest entry is after a sequence: older ones were lost.
// Kept (1): the gap goes into the lent record as the word that it is.
#[tactic(auto, using(crate::specs::Laws::Trimming::none_after, crate::specs::Laws::Trimming::first_after, crate::specs::Laws::Trimming::first_not_after))]
fn starts_after(history: &HistoryWords, oldest: u64) -> u64
    ensures { result ≡ bit (front_after oldest history.now.history.now history.now.ring) }
{
    (history.ring.length != 0 && word_before(oldest, history.sequence_at(0))) as u64
}

// What the carrier's leg has had acknowledged is dropped.
pub fn trim_backup_history(mut sending: Sending, history: &HistoryWords, leg: Leg) -> SendHistory
    ensures { SendTrimmed (trim_backup_history leg) history.now.history.now sending history.now.ring result }
{
    if !has_sender(leg) {
        return SendHistory {
            sending,
            ring: history.ring,
        };
    }
    let oldest = oldest_unacked_sequence(leg);
    let left = history.drop_before(oldest);
    let rest = HistoryWords {
        ring: left,
        history: history.history,
    };
    sending.gap = starts_after(&rest, oldest);
    SendHistory {
        sending,
        ring: left,
    }
}

// By what the carrier's leg says, if the group has a carrier that is a member.
pub fn trim_by_carrier(sending: Sending, history: &HistoryWords, rows: &[Row]) -> SendHistory
    ensures { TrimmedByCarrier (members_in rows.now) history.now.history.now sending history.now.ring result }
{
    let untrimmed = SendHistory {
        sending,
        ring: history.ring,
    };
    let Some(carrier) = sending.carrier() else {
        return untrimmed;
    };
    let Some(index) = find(rows, carrier) else {
        return untrimmed;
    };
    trim_backup_history(sending, history, leg(&rows[index]))
}
