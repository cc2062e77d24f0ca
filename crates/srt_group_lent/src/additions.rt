// `add_member` over a record that is lent by reference.
// Kept (2, 5, 6): C calls each by its name, and lends each table by its name and length (docs/TABLES.md), so each is a parameter of its own.
ghost use Rattle.srt_group_model.specs.Guards.{no_answer};
ghost use Rattle.srt_group_shown.specs.Tables.{tables};
ghost use Rattle.srt_group.specs.Made.{parts_of};
ghost use Rattle.srt_group_refusals.specs.Promised.{nothing_lent, showing, PromisedRow};
ghost use Rattle.srt_group_addition.specs.Handed.{call_of_row};

use srt_group::Group;
use srt_group_flat::flat;

// The leg of a lent row joins the group. The answer is the code, 0 if it was added.
#[unsafe(no_mangle)]
pub extern "C" fn srt_group_lent_add_member(
    group: &mut Group,
    members: &mut [u64],
    pending: &[u64],
    waiting: &[u64],
    history: &[u64],
    sources: &[u64],
    row: &[u64],
    id: u64,
    weight: u64,
) -> u64
    ensures { PromisedRow (call_of_row id weight row.now) (parts_of group.old)
        (tables members.old pending.now waiting.now history.now sources.now)
        row.now
        (showing (parts_of group.new)
        (tables members.new pending.now waiting.now history.now sources.now)
        nothing_lent result no_answer 0) }
{
    let added = flat::add_member(
        *group, members, pending, waiting, history, sources, row, id, weight,
    );
    *group = added.group;
    added.answer
}
