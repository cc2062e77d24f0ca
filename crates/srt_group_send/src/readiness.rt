// The readiness tests: `can_send` and `can_send_with_pacing` after 5 and 6. They refresh the members' states and, in Backup, trim the
// history by what the carrier's peer has acknowledged, so that cells may get free.
// Kept (5): a test changes members and cells and reads the history: of a struct with `&mut` fields each clause names every field's ghost name (docs/DECISIONS.md).
ghost use Rattle.std.specs.Prelude.{◌≡◌, ◌*◌, ◌≤◌, length};
ghost use Rattle.srt_group_model.specs.Backup.{max_history};
ghost use Rattle.srt_group_model.specs.Lent.{call_can_send, call_can_send_with_pacing};
ghost use Rattle.srt_connection_queue.specs.Rows.{row_size};
ghost use Rattle.srt_group_sending.specs.Readiness.{pacing_in};
ghost use Rattle.srt_group_send.specs.Readiness.{call_paced, InWord, Tests, TrimmedReady, Testable};

use cell_set::CellSet;
use srt_connection_members::rows;
use srt_group::Group;
use srt_group_backup::trimming::trim_by_carrier;
use srt_group_carrier::carrier::ready_members;
use srt_group_carrier::freeing::free_dropped;
use srt_group_members::states::is_backup;
use srt_group_polls::refresh::refresh_states;
use srt_group_sending::readiness::{backup_send_ready, broadcast_send_ready};
use srt_group_tables::history::HistoryWords;
use srt_protocol::time::Timestamp;

// Whether a send could go, and the record as the test leaves it.
#[derive(Clone, Copy)]
pub struct Readiness {
    pub ready: bool,
    pub record: Group,
}

// In Backup: the history is trimmed by what the carrier says, and then the test made.
fn trim_and_test(
    group: Group,
    history: &[u64],
    members: &[u64],
    used: &mut CellSet,
    pacing: Option<Timestamp>,
) -> Readiness
    requires rows { group.core.counts.members * row_size ≤ length members.now }
    requires history_long { length history.now ≡ max_history }
    ensures { TrimmedReady (pacing_in pacing) group members.now history.now used.old result used.new }
{
    let rows = rows(members, group.core.counts.members);
    let words = HistoryWords {
        ring: group.ring,
        history,
    };
    let trimmed = trim_by_carrier(group.sending, &words, rows);
    free_dropped(&words, trimmed.ring.length, used);
    let rest = HistoryWords {
        ring: trimmed.ring,
        history,
    };
    let ready = backup_send_ready(rows, trimmed.sending, &rest, pacing);
    Readiness {
        ready,
        record: Group {
            sending: trimmed.sending,
            ring: trimmed.ring,
            ..group
        },
    }
}

// The test after 5 and 6. With a time it is the paced one: a leg counts that may send by its pace at it, and in Backup a carrier that fell
// silent is demoted first, and another promoted.
pub fn test(
    group: Group,
    history: &[u64],
    members: &mut [u64],
    used: &mut CellSet,
    pacing: Option<Timestamp>,
) -> Readiness
    requires testable { Testable group members.old history.now }
    requires in_word { InWord (pacing_in pacing) }
    ensures { Tests (call_paced (pacing_in pacing)) group members.old history.now used.old result members.new used.new }
{
    let core = refresh_states(group.core, group.sending, members);
    let count = core.counts.members;
    let mode = group.core.mode;
    let refreshed = Group { core, ..group };
    if !is_backup(mode) {
        let ready = broadcast_send_ready(rows(members, count), pacing);
        return Readiness {
            ready,
            record: refreshed,
        };
    }
    if let Some(time) = pacing {
        ready_members(members, count, mode, time);
    }
    trim_and_test(refreshed, history, members, used, pacing)
}

// `can_send` after 5 and 6.
// Kept (2): it and the next are public names, each with the promise of its call; of `test` alone a caller would say which call by an option.
pub fn can_send(group: Group, history: &[u64], members: &mut [u64], used: &mut CellSet) -> Readiness
    requires { Testable group members.old history.now }
    ensures { Tests call_can_send group members.old history.now used.old result members.new used.new }
{
    test(group, history, members, used, None)
}

// `can_send_with_pacing` after 5 and 6.
pub fn can_send_with_pacing(
    group: Group,
    history: &[u64],
    members: &mut [u64],
    used: &mut CellSet,
    time: Timestamp,
) -> Readiness
    requires { Testable group members.old history.now }
    ensures { Tests (call_can_send_with_pacing time.0) group members.old history.now used.old result members.new used.new }
{
    test(group, history, members, used, Some(time))
}
