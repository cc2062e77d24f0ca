// A line of a replay listing: its verb, over the group that stands, if any, and tables of any length that suffices.
// Kept (5, 6): each verb is lent the tables that it needs, so a struct of `&mut`, as `LentReplay`, would be taken apart again here.
// Kept (1): the verb is the printed column, as in srt_group_listing.
ghost use Rattle.std.specs.Prelude.{◌≡◌, length};
ghost use Rattle.srt_protocol.specs.Cells.{output_size};
ghost use Rattle.srt_group_model.specs.Sending.{list_size};
ghost use Rattle.srt_group_model.specs.Listing.{column, store_length};
ghost use Rattle.srt_group_shown.specs.Tables.{tables};
ghost use Rattle.srt_group_shown.specs.Ready.{Ready};
ghost use Rattle.srt_group.specs.Made.{parts_of};
ghost use Rattle.srt_group_listing.specs.Verbs.{TellsVerb};
ghost use Rattle.srt_group_replay.specs.Verb.{call_number};
ghost use Rattle.srt_group_replay.specs.Lines.{StandingOver};
ghost use Rattle.srt_group_replay.specs.Told.{TellsOver, TellsNew};

use crate::verb::{Call, UnknownVerb, Verb};
use crate::{Replayed, STORE};
use cell_set::{CellSet, clear};
use srt_group::Group;
use srt_group_listing::members::outcome_line;
use srt_group_listing::{Line, Told, members};
use srt_group_listing_packets::packets;
use srt_protocol::error::Error;

// Verb 1: a new group in place of the one before, which stays if the line is refused. No cell of the new one is in use.
fn tell_new(before: Option<Group>, used: &mut CellSet, line: &Line) -> Replayed
    requires { column 0 line.now ≡ 1 }
    ensures { TellsNew line.now before used.old result used.new }
{
    match Group::new(line[1], line[2], STORE) {
        Ok(fresh) => {
            clear(used);
            Replayed {
                group: Some(fresh),
                line: outcome_line(1, Ok(())),
            }
        }
        Err(error) => Replayed {
            group: before,
            line: outcome_line(1, Err(error)),
        },
    }
}

// A call of a group that was made.
fn tell_made(
    group: Group,
    members: &mut [u64],
    pending: &mut [u64],
    waiting: &mut [u64],
    history: &mut [u64],
    sources: &mut [u64],
    store: &mut [u8],
    output: &mut [u8],
    list: &mut [u64],
    used: &mut CellSet,
    call: Call,
    line: &Line,
) -> Told
    requires ready { Ready (parts_of group)
        (tables members.old pending.old waiting.old history.old sources.old) (length store.old) used.old }
    requires asks { call_number call ≡ column 0 line.now }
    requires store_len { length store.old ≡ store_length }
    requires output_len { length output.old ≡ output_size }
    requires list_len { length list.old ≡ list_size }
    ensures { TellsVerb line.now group
        (tables members.old pending.old waiting.old history.old sources.old)
        result
        (tables members.new pending.new waiting.new history.new sources.new)
        used.new }
{
    match call {
        Call::Add => members::add(
            group, members, pending, waiting, history, sources, store, used, line,
        ),
        Call::Reading => members::read(
            group, members, pending, waiting, history, sources, store, used, line,
        ),
        Call::Data => packets::queue(
            group, members, pending, waiting, history, sources, store, used, line,
        ),
        Call::Poll => packets::poll(
            group, members, pending, waiting, history, sources, store, output, used, line,
        ),
        Call::Send => packets::send(
            group, members, pending, waiting, history, sources, store, list, used, line,
        ),
        Call::Remove => members::remove(
            group, members, pending, waiting, history, sources, store, used, line,
        ),
        Call::MarkBroken => members::mark_broken(
            group, members, pending, waiting, history, sources, store, used, line,
        ),
        Call::Event => members::queue(
            group, members, pending, waiting, history, sources, store, used, line,
        ),
    }
}

// What a line does to the group that stands, if any, and what it prints.
pub fn tell(
    standing: Option<Group>,
    members: &mut [u64],
    pending: &mut [u64],
    waiting: &mut [u64],
    history: &mut [u64],
    sources: &mut [u64],
    store: &mut [u8],
    output: &mut [u8],
    list: &mut [u64],
    used: &mut CellSet,
    line: &Line,
) -> Replayed
    requires stands { StandingOver standing
        (tables members.old pending.old waiting.old history.old sources.old) used.old }
    requires store_len { length store.old ≡ store_length }
    requires output_len { length output.old ≡ output_size }
    requires list_len { length list.old ≡ list_size }
    ensures { TellsOver line.now standing
        (tables members.old pending.old waiting.old history.old sources.old)
        result
        (tables members.new pending.new waiting.new history.new sources.new)
        used.new }
{
    match Verb::try_from(line[0]) {
        Ok(Verb::New) => tell_new(standing, used, line),
        Ok(Verb::Call(call)) => match standing {
            None => Replayed {
                group: None,
                line: outcome_line(line[0], Err(Error::InvalidState)),
            },
            Some(group) => {
                let told = tell_made(
                    group, members, pending, waiting, history, sources, store, output, list, used,
                    call, line,
                );
                Replayed {
                    group: Some(told.group),
                    line: told.line,
                }
            }
        },
        Err(UnknownVerb) => Replayed {
            group: standing,
            line: outcome_line(0, Err(Error::OutOfRange)),
        },
    }
}
