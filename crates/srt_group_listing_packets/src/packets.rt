// The verbs that queue a packet, poll for one and send one.
// Kept (5, 6): tables and store are lent anew to each verb, of any length that suffices; of a struct of `&mut`, no plainer, each clause names each field.
// Kept (1): the verb is the printed column, as in srt_group_listing.
ghost use Rattle.std.specs.Prelude.{◌≡◌, length};
ghost use Rattle.srt_protocol.specs.Cells.{output_size};
ghost use Rattle.srt_group_model.specs.Sending.{list_size};
ghost use Rattle.srt_group_model.specs.Listing.{column};
ghost use Rattle.srt_group_shown.specs.Tables.{tables};
ghost use Rattle.srt_group_shown.specs.Ready.{Ready};
ghost use Rattle.srt_group.specs.Made.{parts_of};
ghost use Rattle.srt_group_traces.specs.VerbCalls.{data_of_line, queueing, polling, sending};
ghost use Rattle.srt_group_listing.specs.Telling.{numbers_of, packet_line, sent_line, Tells, TellsByte};

use cell_set::CellSet;
use srt_group::Group;
use srt_group_collecting::collecting::MAX_VISITS;
use srt_group_data_poll::polls::poll_data_bounded;
use srt_group_listing::members::outcome_line;
use srt_group_listing::{Line, Printed, Told};
use srt_group_model::{Data, Packet};
use srt_group_queueing::queueing::queue_data;
use srt_group_send::sending;
use srt_protocol::error::Error;
use srt_protocol::time::Timestamp;

// The packet of verb 4.
fn data_of_line(line: &Line) -> Data
    ensures { result ≡ data_of_line line.now }
{
    Data {
        sequence: line[2],
        count: line[3],
        source: Timestamp(line[4]),
        ..Data::default()
    }
}

// Verb 4: a packet is queued at a leg. A byte above 255 is refused.
pub fn queue(
    group: Group,
    members: &mut [u64],
    pending: &[u64],
    waiting: &[u64],
    history: &[u64],
    sources: &[u64],
    store: &mut [u8],
    used: &mut CellSet,
    line: &Line,
) -> Told
    requires { Ready (parts_of group)
        (tables members.old pending.now waiting.now history.now sources.now) (length store.old) used.old }
    ensures { TellsByte (column 5 line.now) 4 (queueing line.now) group
        (tables members.old pending.now waiting.now history.now sources.now)
        (length store.old) result
        (tables members.new pending.now waiting.now history.now sources.now)
        used.new }
{
    let Ok(byte) = u8::try_from(line[5]) else {
        return Told {
            group,
            line: outcome_line(4, Err(Error::OutOfRange)),
        };
    };
    let outcome = queue_data(
        group,
        members,
        pending,
        waiting,
        history,
        sources,
        store,
        used,
        line[1],
        data_of_line(line),
        &[byte],
    );
    Told {
        group,
        line: outcome_line(4, outcome),
    }
}

// The line of a poll: the packet that it gave, if any, and the skipped total.
// Kept (4): `..Printed::default()` was tried here and in `sent_line`, and their proofs did not close.
fn packet_line(gave: Option<Packet>, skipped: u64) -> Printed
    ensures { numbers_of result ≡ packet_line gave skipped }
{
    match gave {
        None => Printed {
            verb: 5,
            code: 0,
            leg: 0,
            sequence: 0,
            count: 0,
            skipped,
        },
        Some(packet) => Printed {
            verb: 5,
            code: 0,
            leg: packet.member,
            sequence: packet.content.sequence,
            count: packet.content.count,
            skipped,
        },
    }
}

// Verb 5: a poll for data.
pub fn poll(
    group: Group,
    members: &mut [u64],
    pending: &mut [u64],
    waiting: &mut [u64],
    history: &[u64],
    sources: &[u64],
    store: &[u8],
    output: &mut [u8],
    used: &mut CellSet,
    line: &Line,
) -> Told
    requires ready { Ready (parts_of group)
        (tables members.old pending.old waiting.old history.now sources.now) (length store.now) used.old }
    requires output_len { length output.old ≡ output_size }
    ensures { Tells 5 (polling line.now) group
        (tables members.old pending.old waiting.old history.now sources.now)
        (length store.now) result
        (tables members.new pending.new waiting.new history.now sources.now)
        used.new }
{
    let polled = poll_data_bounded(
        group,
        members,
        pending,
        waiting,
        history,
        sources,
        store,
        output,
        used,
        Timestamp(line[1]),
        MAX_VISITS,
    );
    let after = polled.core;
    Told {
        group: Group {
            core: after,
            ..group
        },
        line: packet_line(polled.gave, after.receiving.skipped),
    }
}

// The line of a send: the legs that it went out on.
fn sent_line(answer: Result<usize, Error>) -> Printed
    ensures { numbers_of result ≡ sent_line answer }
{
    match answer {
        Ok(legs) => Printed {
            verb: 6,
            code: 0,
            leg: legs as u64,
            sequence: 0,
            count: 0,
            skipped: 0,
        },
        Err(error) => outcome_line(6, Err(error)),
    }
}

// Verb 6: a packet is sent. A byte above 255 is refused.
pub fn send(
    group: Group,
    members: &mut [u64],
    pending: &[u64],
    waiting: &[u64],
    history: &mut [u64],
    sources: &mut [u64],
    store: &mut [u8],
    list: &mut [u64],
    used: &mut CellSet,
    line: &Line,
) -> Told
    requires ready { Ready (parts_of group)
        (tables members.old pending.now waiting.now history.old sources.old) (length store.old) used.old }
    requires list_len { length list.old ≡ list_size }
    ensures { TellsByte (column 1 line.now) 6 (sending line.now) group
        (tables members.old pending.now waiting.now history.old sources.old)
        (length store.old) result
        (tables members.new pending.now waiting.now history.new sources.new)
        used.new }
{
    let Ok(byte) = u8::try_from(line[1]) else {
        return Told {
            group,
            line: outcome_line(6, Err(Error::OutOfRange)),
        };
    };
    let sent = sending::send(
        &group,
        members,
        pending,
        waiting,
        history,
        sources,
        store,
        list,
        used,
        Timestamp(line[2]),
        &[byte],
    );
    Told {
        group: sent.record,
        line: sent_line(sent.answer),
    }
}
