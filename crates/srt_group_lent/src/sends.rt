// `send` over a record that is lent by reference.
// Kept (2, 5, 6): C calls each by its name, and lends each table by its name and length (docs/TABLES.md), so each is a parameter of its own.
ghost use Rattle.srt_group_model.specs.Lent.{call_send};
ghost use Rattle.srt_group_shown.specs.Tables.{tables};
ghost use Rattle.srt_group_shown.specs.Ready.{sending_into};
ghost use Rattle.srt_group.specs.Made.{parts_of};
ghost use Rattle.srt_group_refusals.specs.Promised.{showing, Promised};
ghost use Rattle.srt_group_flat.specs.Words.{send_words_answer, ClearedSent};

use srt_group::Group;
use srt_group_flat::flat;
use srt_group_flat::words::SendWords;
use srt_protocol::time::Timestamp;

// One payload through the group, on every active leg or on the carrier; each send that a leg takes fills a row of the list.
#[unsafe(no_mangle)]
pub extern "C" fn srt_group_lent_send(
    group: &mut Group,
    members: &mut [u64],
    pending: &[u64],
    waiting: &[u64],
    history: &mut [u64],
    sources: &mut [u64],
    store: &mut [u8],
    list: &mut [u64],
    time: Timestamp,
    payload: &[u8],
) -> SendWords
    ensures promised { Promised (call_send time.0 payload.now) (parts_of group.old)
        (tables members.old pending.now waiting.now history.old sources.old)
        (sending_into store.old list.old)
        (showing (parts_of group.new)
        (tables members.new pending.now waiting.now history.new sources.new)
        (sending_into store.new list.new) result.code (send_words_answer result) result.rows) }
    ensures cleared_sent { ClearedSent result }
{
    let sent = flat::send(
        *group, members, pending, waiting, history, sources, store, list, time, payload,
    );
    *group = sent.group;
    sent.answer
}
