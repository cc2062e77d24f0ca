// The looks at members. Each is a function of its own, since C calls it by its name.
// Kept (2, 5, 6): C calls each look by its name, and lends each table by its own name and length.
// Kept (2, 7): `srt_group_raw_members` fills a lent list too, so it is no `look`: a closure that kept the list would have no value of it after the call.
ghost use Rattle.std.specs.Prelude.{false};
ghost use Rattle.srt_group_model.specs.Lent.{call_look, look_member, look_backup_stability_timeout_micros};
ghost use Rattle.srt_group_shown.specs.Tables.{tables};
ghost use Rattle.srt_group_refusals.specs.Promised.{nothing_lent};
ghost use Rattle.srt_group_words.specs.Words.{in_words, words, PromisedWords};
ghost use Rattle.srt_group_c_looks.specs.Listed.{ListsWords};

use srt_group_c_looks::answers::{SHOWN, put_given};
use srt_group_c_looks::look::look;
use srt_group_looks::{member, members};
use srt_group_refusals::refusals::LentGroup;
use srt_group_words::record::{RECORD, SHORT, read_group};

// A member: its id, weight, label, its leg's state, whether it was admitted, its reserved sum, and its collision's expected and actual peer group.
#[unsafe(no_mangle)]
pub extern "C" fn srt_group_raw_member(
    record: &[u64],
    members: &[u64],
    pending: &[u64],
    waiting: &[u64],
    history: &[u64],
    sources: &[u64],
    id: u64,
    answer: &mut [u64],
) -> u32
    ensures { PromisedWords (call_look (look_member id)) (in_words 8) false
        (words «record».now
        (tables members.now pending.now waiting.now history.now sources.now)
        nothing_lent answer.old) result
        (words «record».now
        (tables members.now pending.now waiting.now history.now sources.now)
        nothing_lent answer.new) }
{
    look(
        record,
        members,
        pending,
        waiting,
        history,
        sources,
        answer,
        |lent| member::member(lent, id),
    )
}

// How long the member may be silent as the carrier of a Backup group, in microseconds; 0 for a leg without a sender.
#[unsafe(no_mangle)]
pub extern "C" fn srt_group_raw_backup_stability_timeout_micros(
    record: &[u64],
    members: &[u64],
    pending: &[u64],
    waiting: &[u64],
    history: &[u64],
    sources: &[u64],
    id: u64,
    answer: &mut [u64],
) -> u32
    ensures { PromisedWords (call_look (look_backup_stability_timeout_micros id)) (in_words 1) false
        (words «record».now
        (tables members.now pending.now waiting.now history.now sources.now)
        nothing_lent answer.old) result
        (words «record».now
        (tables members.now pending.now waiting.now history.now sources.now)
        nothing_lent answer.new) }
{
    look(
        record,
        members,
        pending,
        waiting,
        history,
        sources,
        answer,
        |lent| member::backup_stability_timeout_micros(lent, id),
    )
}

// All members as rows of a lent list, in the order of their addition. The answer is how many rows were filled.
#[tactic(auto, using(srt_group_c_looks::specs::Laws::Listed::listed_few, srt_group_c_looks::specs::Laws::Listed::listed_no_room))]
#[unsafe(no_mangle)]
pub extern "C" fn srt_group_raw_members(
    record: &[u64],
    members: &[u64],
    pending: &[u64],
    waiting: &[u64],
    history: &[u64],
    sources: &[u64],
    list: &mut [u64],
    answer: &mut [u64],
) -> u32
    ensures { ListsWords (words «record».now
        (tables members.now pending.now waiting.now history.now sources.now)
        nothing_lent answer.old) result
        (words «record».now
        (tables members.now pending.now waiting.now history.now sources.now)
        nothing_lent answer.new) list.old list.new }
{
    if record.len() < RECORD || answer.len() < SHOWN {
        return SHORT;
    }
    let lent = LentGroup {
        group: read_group(record),
        members,
        pending,
        waiting,
        history,
        sources,
    };
    put_given(answer, members::members(&lent, list))
}
