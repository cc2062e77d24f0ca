// What is recorded of the call's own payload once it was sent on one member.
// Kept (5, 6): a host lends each table as words; a struct of `&mut` fields wants a clause a field, in every function, that its slice is still the caller's (docs/DECISIONS.md).
ghost use Rattle.std.specs.Prelude.{◌≤◌};
ghost use Rattle.srt_group_model.specs.Backup.{max_history};
ghost use Rattle.srt_group_tables.specs.Ring.{arrays, Long, Packs};
ghost use Rattle.srt_group_backup.specs.OwnSend.{SendRecorded};

use crate::trimming::{SendHistory, trim_backup_history};
use srt_group_model::{Entry, Leg};
use srt_group_sending::broadcast::with_number_after;
pub use srt_group_sending::own::send_on;
use srt_group_tables::history::{HistoryWords, push_back, store};

// The payload that was sent is kept until its carrier's peer acknowledges it. `leg` is the carrier's leg after the send.
pub fn record_backup_send(
    send: SendHistory,
    history: &mut [u64],
    sources: &mut [u64],
    entry: Entry,
    leg: Leg,
    carrier: u64,
) -> SendHistory
    requires length_le_max_history { (send.ring.length ≤ max_history) × Long (arrays history.old sources.old) }
    requires packs { Packs entry.sequence entry.cell entry.length }
    ensures { SendRecorded leg carrier entry send.sending send.ring
        (arrays history.old sources.old) result
        (arrays history.new sources.new) }
{
    store(send.ring, history, sources, entry);
    let mut numbers = with_number_after(send.sending, entry.sequence);
    // Kept (1): the carrier and its flag are words of the lent record, set here alone: a setter for one place is no plainer.
    numbers.carried = 1;
    numbers.carrier = carrier;
    let pushed = HistoryWords {
        ring: push_back(send.ring),
        history,
    };
    trim_backup_history(numbers, &pushed, leg)
}
