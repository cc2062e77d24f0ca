// The looks at the group. Each is a function of its own, since C calls it by its name.
// Kept (2, 5, 6): C calls each look by its name, and lends each table by its own name and length.
ghost use Rattle.std.specs.Prelude.{false};
ghost use Rattle.srt_group_model.specs.Lent.{call_look, look_group_id, look_mode, look_peer_group_id, look_skipped_receive_packets};
ghost use Rattle.srt_group_model.specs.Lent.{look_has_pending_data, look_has_receive_continuation, look_time_until_send};
ghost use Rattle.srt_group_shown.specs.Tables.{tables};
ghost use Rattle.srt_group_refusals.specs.Promised.{nothing_lent};
ghost use Rattle.srt_group_words.specs.Words.{in_words, words, PromisedWords};

use srt_group_c_looks::look::look;
use srt_group_looks::looks;
use srt_protocol::time::Timestamp;

// The group's id.
#[unsafe(no_mangle)]
pub extern "C" fn srt_group_raw_group_id(
    record: &[u64],
    members: &[u64],
    pending: &[u64],
    waiting: &[u64],
    history: &[u64],
    sources: &[u64],
    answer: &mut [u64],
) -> u32
    ensures { PromisedWords (call_look look_group_id) (in_words 1) false
        (words «record».now
        (tables members.now pending.now waiting.now history.now sources.now)
        nothing_lent answer.old) result
        (words «record».now
        (tables members.now pending.now waiting.now history.now sources.now)
        nothing_lent answer.new) }
{
    look(
        record,
        members,
        pending,
        waiting,
        history,
        sources,
        answer,
        looks::group_id,
    )
}

// 0 for Broadcast, 1 for Backup.
#[unsafe(no_mangle)]
pub extern "C" fn srt_group_raw_mode(
    record: &[u64],
    members: &[u64],
    pending: &[u64],
    waiting: &[u64],
    history: &[u64],
    sources: &[u64],
    answer: &mut [u64],
) -> u32
    ensures { PromisedWords (call_look look_mode) (in_words 1) false
        (words «record».now
        (tables members.now pending.now waiting.now history.now sources.now)
        nothing_lent answer.old) result
        (words «record».now
        (tables members.now pending.now waiting.now history.now sources.now)
        nothing_lent answer.new) }
{
    look(
        record,
        members,
        pending,
        waiting,
        history,
        sources,
        answer,
        looks::mode,
    )
}

// The peer group that the group is bound to, or 0.
#[unsafe(no_mangle)]
pub extern "C" fn srt_group_raw_peer_group_id(
    record: &[u64],
    members: &[u64],
    pending: &[u64],
    waiting: &[u64],
    history: &[u64],
    sources: &[u64],
    answer: &mut [u64],
) -> u32
    ensures { PromisedWords (call_look look_peer_group_id) (in_words 1) false
        (words «record».now
        (tables members.now pending.now waiting.now history.now sources.now)
        nothing_lent answer.old) result
        (words «record».now
        (tables members.now pending.now waiting.now history.now sources.now)
        nothing_lent answer.new) }
{
    look(
        record,
        members,
        pending,
        waiting,
        history,
        sources,
        answer,
        looks::peer_group_id,
    )
}

// How many packets were skipped for good.
#[unsafe(no_mangle)]
pub extern "C" fn srt_group_raw_skipped_receive_packets(
    record: &[u64],
    members: &[u64],
    pending: &[u64],
    waiting: &[u64],
    history: &[u64],
    sources: &[u64],
    answer: &mut [u64],
) -> u32
    ensures { PromisedWords (call_look look_skipped_receive_packets) (in_words 1) false
        (words «record».now
        (tables members.now pending.now waiting.now history.now sources.now)
        nothing_lent answer.old) result
        (words «record».now
        (tables members.now pending.now waiting.now history.now sources.now)
        nothing_lent answer.new) }
{
    look(
        record,
        members,
        pending,
        waiting,
        history,
        sources,
        answer,
        looks::skipped_receive_packets,
    )
}

// Whether a packet is held, an event waits, or the continuation is asked for.
#[unsafe(no_mangle)]
pub extern "C" fn srt_group_raw_has_pending_data(
    record: &[u64],
    members: &[u64],
    pending: &[u64],
    waiting: &[u64],
    history: &[u64],
    sources: &[u64],
    answer: &mut [u64],
) -> u32
    ensures { PromisedWords (call_look look_has_pending_data) (in_words 1) false
        (words «record».now
        (tables members.now pending.now waiting.now history.now sources.now)
        nothing_lent answer.old) result
        (words «record».now
        (tables members.now pending.now waiting.now history.now sources.now)
        nothing_lent answer.new) }
{
    look(
        record,
        members,
        pending,
        waiting,
        history,
        sources,
        answer,
        looks::has_pending_data,
    )
}

// Whether the last poll stopped with work left.
#[unsafe(no_mangle)]
pub extern "C" fn srt_group_raw_has_receive_continuation(
    record: &[u64],
    members: &[u64],
    pending: &[u64],
    waiting: &[u64],
    history: &[u64],
    sources: &[u64],
    answer: &mut [u64],
) -> u32
    ensures { PromisedWords (call_look look_has_receive_continuation) (in_words 1) false
        (words «record».now
        (tables members.now pending.now waiting.now history.now sources.now)
        nothing_lent answer.old) result
        (words «record».now
        (tables members.now pending.now waiting.now history.now sources.now)
        nothing_lent answer.new) }
{
    look(
        record,
        members,
        pending,
        waiting,
        history,
        sources,
        answer,
        looks::has_receive_continuation,
    )
}

// How long until pacing lets a member send, in microseconds.
#[unsafe(no_mangle)]
pub extern "C" fn srt_group_raw_time_until_send(
    record: &[u64],
    members: &[u64],
    pending: &[u64],
    waiting: &[u64],
    history: &[u64],
    sources: &[u64],
    time: u64,
    answer: &mut [u64],
) -> u32
    ensures { PromisedWords (call_look (look_time_until_send time)) (in_words 1) false
        (words «record».now
        (tables members.now pending.now waiting.now history.now sources.now)
        nothing_lent answer.old) result
        (words «record».now
        (tables members.now pending.now waiting.now history.now sources.now)
        nothing_lent answer.new) }
{
    look(
        record,
        members,
        pending,
        waiting,
        history,
        sources,
        answer,
        |lent| looks::time_until_send(lent, Timestamp(time)),
    )
}
