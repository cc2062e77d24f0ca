// The record as a row of 20 words, in the order of docs/TABLES.md. A longer row is taken: its other words stay.
// Kept (5): C lends a slice that may be longer, and what a call promises is of the slice: an array, taken out of it at each call, would be no plainer.
ghost use Rattle.std.specs.Prelude.{◌≡◌, ◌≤◌, length};
ghost use Rattle.srt_protocol.specs.Cells.{overwritten};
ghost use Rattle.srt_protocol.specs.Errors.{outcome_number};
ghost use Rattle.srt_group_words.specs.Record.{record_size, identity_of, core_of, sending_of, ring_of, group_of};
ghost use Rattle.srt_group_words.specs.Record.{group_words, with_core, with_sent};
ghost use Rattle.srt_group_words.specs.Words.{PutBack};

use crate::answers::put;
use srt_group::Group;
use srt_group_model::{Account, Core, Counts, Identity, Receiving, Sending, Visit};
use srt_group_tables::history::HistoryRing;
use srt_protocol::error::{Error, outcome_number};

// The words of a record.
pub const RECORD: usize = 20;

// What a call answers that is lent too few words for its record, its answer or its list: the number of `Error::InsufficientBuffer`.
// Kept (1): C reads the number, and a constant cannot be made by `From`.
pub const SHORT: u32 = 5;

// ---- what the words show, by the record's parts

#[tactic(auto, unfolding(crate::specs::Record::identity_of))]
pub fn read_identity(words: &[u64]) -> Identity
    requires { record_size ≤ length words.now }
    ensures { result ≡ identity_of words.now }
{
    Identity {
        id: words[0],
        length: words[1] as usize,
    }
}

#[tactic(auto, unfolding(crate::specs::Record::core_of))]
pub fn read_core(words: &[u64]) -> Core
    requires { record_size ≤ length words.now }
    ensures { result ≡ core_of words.now }
{
    Core {
        mode: words[2],
        peer: words[3],
        counts: Counts {
            members: words[4] as usize,
            pending: words[5] as usize,
            waiting: words[6] as usize,
        },
        receiving: Receiving {
            based: words[7],
            base: words[8],
            skipped: words[9],
        },
        visit: Visit {
            continuation: words[10],
            round: words[11] as usize,
        },
        own: Account {
            reserved: words[12],
        },
    }
}

#[tactic(auto, unfolding(crate::specs::Record::sending_of))]
pub fn read_sending(words: &[u64]) -> Sending
    requires { record_size ≤ length words.now }
    ensures { result ≡ sending_of words.now }
{
    Sending {
        numbered: words[13],
        next: words[14],
        carried: words[15],
        carrier: words[16],
        gap: words[17],
    }
}

#[tactic(auto, unfolding(crate::specs::Record::ring_of))]
pub fn read_ring(words: &[u64]) -> HistoryRing
    requires { record_size ≤ length words.now }
    ensures { result ≡ ring_of words.now }
{
    HistoryRing {
        start: words[18] as usize,
        length: words[19] as usize,
    }
}

// The group that the words show.
#[tactic(auto, using(crate::specs::Laws::Record::group_read))]
pub fn read_group(words: &[u64]) -> Group
    requires { record_size ≤ length words.now }
    ensures { result ≡ group_of words.now }
{
    let identity = read_identity(words);
    let core = read_core(words);
    let sending = read_sending(words);
    let ring = read_ring(words);
    Group {
        identity,
        core,
        sending,
        ring,
    }
}

// ---- the words of a group, over those of the row

#[tactic(auto, unfolding(crate::specs::Record::group_words, crate::specs::Record::identity_words, crate::specs::Record::core_words, crate::specs::Record::sending_words, crate::specs::Record::ring_words))]
fn row_of(group: Group) -> [u64; RECORD]
    ensures { result ≡ group_words group }
{
    let Group {
        identity,
        core,
        sending,
        ring,
    } = group;
    [
        identity.id,
        identity.length as u64,
        core.mode,
        core.peer,
        core.counts.members as u64,
        core.counts.pending as u64,
        core.counts.waiting as u64,
        core.receiving.based,
        core.receiving.base,
        core.receiving.skipped,
        core.visit.continuation,
        core.visit.round as u64,
        core.own.reserved,
        sending.numbered,
        sending.next,
        sending.carried,
        sending.carrier,
        sending.gap,
        ring.start as u64,
        ring.length as u64,
    ]
}

pub fn put_group(words: &mut [u64], group: Group)
    requires { record_size ≤ length words.old }
    ensures { words.new ≡ overwritten 0 (group_words group) words.old }
{
    put(words, row_of(group))
}

// What a poll moves of a group.
pub fn put_core(words: &mut [u64], core: Core)
    requires { record_size ≤ length words.old }
    ensures { words.new ≡ overwritten 0 (group_words (with_core core (group_of words.old))) words.old }
{
    let group = read_group(words);
    put_group(words, Group { core, ..group })
}

// What a send moves of a group: all but what is fixed at creation.
pub fn put_sent(words: &mut [u64], core: Core, sending: Sending, ring: HistoryRing)
    requires { record_size ≤ length words.old }
    ensures { words.new
        ≡ overwritten 0 (group_words (with_sent core sending ring (group_of words.old))) words.old }
{
    let identity = read_identity(words);
    put_group(
        words,
        Group {
            identity,
            core,
            sending,
            ring,
        },
    )
}

// ---- what a call leaves

// The group over the words of the row. It answers the outcome's code.
pub fn put_back(words: &mut [u64], group: Group, outcome: Result<(), Error>) -> u32
    requires { record_size ≤ length words.old }
    ensures { PutBack group (outcome_number outcome) words.old result words.new }
{
    put_group(words, group);
    outcome_number(outcome)
}

// The same of a form for a valid state, which moves the core alone.
// Kept (2): two lines, as `put_back`; as one, over what is put, each caller would name which: no plainer.
pub fn put_back_core(words: &mut [u64], core: Core, outcome: Result<(), Error>) -> u32
    requires { record_size ≤ length words.old }
    ensures { PutBack (with_core core (group_of words.old)) (outcome_number outcome) words.old result words.new }
{
    put_core(words, core);
    outcome_number(outcome)
}
