// `poll_data` over a record that is lent by reference.
// Kept (2, 5, 6): C calls each by its name, and lends each table by its name and length (docs/TABLES.md), so each is a parameter of its own.
ghost use Rattle.srt_group_model.specs.Lent.{call_poll_data};
ghost use Rattle.srt_group_shown.specs.Tables.{tables};
ghost use Rattle.srt_group_shown.specs.Ready.{lending};
ghost use Rattle.srt_group.specs.Made.{parts_of};
ghost use Rattle.srt_group_refusals.specs.Promised.{showing, Promised};
ghost use Rattle.srt_group_flat.specs.Words.{words_answer, Cleared};

use srt_group::Group;
use srt_group_flat::flat;
use srt_group_flat::words::DataWords;
use srt_protocol::time::Timestamp;

// The next packet in order, or none: its payload is written to the output from byte 12.
#[unsafe(no_mangle)]
pub extern "C" fn srt_group_lent_poll_data(
    group: &mut Group,
    members: &mut [u64],
    pending: &mut [u64],
    waiting: &mut [u64],
    history: &[u64],
    sources: &[u64],
    store: &[u8],
    output: &mut [u8],
    time: Timestamp,
) -> DataWords
    ensures promised { Promised (call_poll_data time.0) (parts_of group.old)
        (tables members.old pending.old waiting.old history.now sources.now)
        (lending store.now output.old)
        (showing (parts_of group.new)
        (tables members.new pending.new waiting.new history.now sources.now)
        (lending store.now output.new) result.code (words_answer result) 0) }
    ensures cleared { Cleared result }
{
    let polled = flat::poll_data(
        *group, members, pending, waiting, history, sources, store, output, time,
    );
    *group = polled.group;
    polled.answer
}
