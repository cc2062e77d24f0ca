// `refresh_member_states` and `disconnect` for a valid state. The cells in use stay the same; the store is lent for its length, over which
// the state is valid.
// Kept (5, 6): the members are changed, so they are in no struct of lent readings, and a call's promise names each table: a struct of the others alone would be no plainer.
ghost use Rattle.std.specs.Prelude.{length};
ghost use Rattle.srt_group_model.specs.Guards.{no_answer};
ghost use Rattle.srt_group_model.specs.Lent.{call_refresh_member_states, call_disconnect};
ghost use Rattle.srt_group.specs.Made.{parts_of};
ghost use Rattle.srt_group_shown.specs.Tables.{parts, tables};
ghost use Rattle.srt_group_shown.specs.Ready.{Ready, storing, Performs};

use cell_set::CellSet;
use srt_connection_members::disconnect_all;
use srt_group::Group;
use srt_group_model::Core;
use srt_group_polls::refresh::refresh_states;
use srt_protocol::time::Timestamp;

// The members' states follow their legs; a member that arrives may set the base and bind the group. The core as it is then.
pub fn refresh_member_states(
    group: Group,
    members: &mut [u64],
    pending: &[u64],
    waiting: &[u64],
    history: &[u64],
    sources: &[u64],
    store: &[u8],
    used: &CellSet,
) -> Core
    requires { Ready (parts_of group)
        (tables members.old pending.now waiting.now history.now sources.now) (length store.now) used.now }
    ensures { Performs call_refresh_member_states (parts_of group)
        (tables members.old pending.now waiting.now history.now sources.now)
        (storing store.now) 0 no_answer (parts group.identity result group.sending group.ring)
        (tables members.new pending.now waiting.now history.now sources.now)
        (storing store.now) used.now }
{
    refresh_states(group.core, group.sending, members)
}

// Every leg is disconnected; nothing is queued. The record stays as it was. The stand-in's legs need no time.
pub fn disconnect(
    group: Group,
    members: &mut [u64],
    pending: &[u64],
    waiting: &[u64],
    history: &[u64],
    sources: &[u64],
    store: &[u8],
    used: &CellSet,
    time: Timestamp,
)
    requires { Ready (parts_of group)
        (tables members.old pending.now waiting.now history.now sources.now) (length store.now) used.now }
    ensures { Performs (call_disconnect time.0) (parts_of group)
        (tables members.old pending.now waiting.now history.now sources.now)
        (storing store.now) 0 no_answer (parts_of group)
        (tables members.new pending.now waiting.now history.now sources.now)
        (storing store.now) used.now }
{
    disconnect_all(members, group.core.counts.members);
}
