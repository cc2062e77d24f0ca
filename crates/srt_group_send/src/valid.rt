// The readiness tests for a valid state. The store is lent for its length, over which the state is valid.
// Kept (2, 5, 6): two public names; each table is words that a C host lends by a name and a length; the promise speaks of them all, and the members alone change.
ghost use Rattle.std.specs.Prelude.{length};
ghost use Rattle.srt_group_model.specs.Guards.{shown, truth};
ghost use Rattle.srt_group_model.specs.Lent.{call_can_send, call_can_send_with_pacing};
ghost use Rattle.srt_group_shown.specs.Tables.{tables};
ghost use Rattle.srt_group_shown.specs.Ready.{Ready, storing, Performs};
ghost use Rattle.srt_group.specs.Made.{parts_of};

use crate::readiness;
use crate::readiness::Readiness;
use cell_set::CellSet;
use srt_group::Group;
use srt_protocol::time::Timestamp;

// `can_send` for a valid state, of which `used` shows the cells in use.
pub fn can_send(
    group: Group,
    members: &mut [u64],
    pending: &[u64],
    waiting: &[u64],
    history: &[u64],
    sources: &[u64],
    store: &[u8],
    used: &mut CellSet,
) -> Readiness
    requires { Ready (parts_of group)
        (tables members.old pending.now waiting.now history.now sources.now) (length store.now) used.old }
    ensures { Performs call_can_send (parts_of group)
        (tables members.old pending.now waiting.now history.now sources.now)
        (storing store.now) 0 (shown (truth result.ready)) (parts_of result.«record»)
        (tables members.new pending.now waiting.now history.now sources.now)
        (storing store.now) used.new }
{
    readiness::can_send(group, history, members, used)
}

// `can_send_with_pacing` for a valid state.
pub fn can_send_with_pacing(
    group: Group,
    members: &mut [u64],
    pending: &[u64],
    waiting: &[u64],
    history: &[u64],
    sources: &[u64],
    store: &[u8],
    used: &mut CellSet,
    time: Timestamp,
) -> Readiness
    requires { Ready (parts_of group)
        (tables members.old pending.now waiting.now history.now sources.now) (length store.now) used.old }
    ensures { Performs (call_can_send_with_pacing time.0) (parts_of group)
        (tables members.old pending.now waiting.now history.now sources.now)
        (storing store.now) 0 (shown (truth result.ready)) (parts_of result.«record»)
        (tables members.new pending.now waiting.now history.now sources.now)
        (storing store.now) used.new }
{
    readiness::can_send_with_pacing(group, history, members, used, time)
}
