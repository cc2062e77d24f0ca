// The history is replayed on a leg that stands at its first sequence, each entry at its own sequence and with its own source
// time, so that the receiver gets no hole and no packet is given up early.
// Kept (5, 6): the list goes with its rows in use: `Wrote` says of the whole list which rows are written, a rest of it (`&mut list[..]`) would say so of the rest alone.
// Kept (5): how many rows the lent list still has room for differs from call to call; a type for it would be made at each and taken apart.
ghost use Rattle.std.specs.Prelude.{◌≡◌, ◌+◌, ◌-◌, ◌*◌, ◌≤◌, ◌<◌, length};
ghost use Rattle.srt_group_model.specs.Sending.{sent_row_size, max_sent, list_size};
ghost use Rattle.srt_group_model.specs.Backup.{max_history};
ghost use Rattle.srt_group_tables.specs.Ring.{arrays, entries_of};
ghost use Rattle.srt_group_backup.specs.Replay.{EntryReplayed, EntriesReplayed};

use srt_connection::legs::send_shared_with_sequence;
use srt_group_model::{Entry, Leg};
use srt_group_sending::flown::Flown;
use srt_group_sending::list::{Sent, write_sent};
use srt_group_tables::history::History;
use srt_protocol::error::Error;
use srt_protocol::time::Timestamp;

// One entry on a leg, with its row in the list if it was sent.
#[tactic(auto, using(crate::specs::Laws::Replay::entry_failed))]
fn replay_entry(
    leg: Leg,
    entry: Entry,
    time: Timestamp,
    id: u64,
    list: &mut [u64],
    sent: usize,
) -> Option<Leg>
    requires { sent * sent_row_size + sent_row_size ≤ length list.old }
    ensures { EntryReplayed time.0 id entry leg sent list.old result list.new }
{
    let after = send_shared_with_sequence(leg, time, entry.length, entry.sequence)?;
    let row = Sent {
        leg: id,
        sequence: entry.sequence,
        cell: entry.cell,
        source: entry.source,
        time,
    };
    write_sent(list, sent, row);
    Some(after)
}

// All entries, oldest first, up to one that fails: the rows of those before it stay in use.
#[tactic(auto, using(crate::specs::Laws::Replay::replaying_start))]
pub fn replay_entries(
    leg: Leg,
    history: &History,
    time: Timestamp,
    id: u64,
    list: &mut [u64],
    sent: usize,
) -> Flown<Leg>
    requires { (list_size ≤ length list.old) × (sent ≤ max_sent - max_history) }
    ensures { EntriesReplayed time.0 id
        (entries_of history.now.words.ring (arrays history.now.words.history.now history.now.sources.now)) leg sent
        list.old result list.new }
{
    let mut here = leg;
    // Kept (3): the places of a ring are no slice; in a chain a closure would hold what the loop changes, and an invariant of its calls say it: no plainer.
    for index in 0..history.words.ring.length {
        let entry = history.entry_at(index);
        let result = replay_entry(here, entry, time, id, list, sent + index);
        let Some(after) = result else {
            return Flown {
                outcome: Err(Error::ReplayRefused),
                state: here,
                sent: sent + index,
            };
        };
        here = after;
    }
    Flown {
        outcome: Ok(()),
        state: here,
        sent: sent + history.words.ring.length,
    }
}
