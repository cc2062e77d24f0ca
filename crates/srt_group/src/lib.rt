// `SrtGroup` of srt_group/mod.rs: the group's record, by value, with `new` and its limits. All that is large is lent: the members with
// their legs and queues, the held packets, the waiting events, the history's two arrays, the store. The public calls over it stand in the
// crates of their subjects, in modules `calls`; no public function there has a `requires`.
// Kept (1): the mode is a word of the C call: any is a legal question, 2 refuses what is none, and the record keeps the word.

#![tactic(auto)]

ghost use Rattle.std.specs.Prelude.{◌≡◌, ◌||◌, length, Err};
ghost use Rattle.srt_group_model.specs.Legs.{largest_32};
ghost use Rattle.srt_group_model.specs.Validity.{above};
ghost use Rattle.srt_group_model.specs.Backup.{max_history};
ghost use Rattle.srt_group_model.specs.Calls.{new};
ghost use Rattle.srt_group.specs.Made.{Fresh, PromisedNew};

use srt_connection::legs::LARGEST_32;
use srt_group_model::{Core, Identity, Sending};
use srt_group_tables::history;
use srt_group_tables::history::HistoryRing;
use srt_protocol::error::Error;
use srt_protocol::received_payload;
use srt_protocol::srt_handshake::is_group_id;

// By who moves what: fixed at creation; what a poll carries through by value; what sending moves; the places of the history in use.
// Every field is a 64-bit word, so that whatever a host lends can be read, and refused (6) where it is beyond its range.
#[repr(C)]
#[derive(Clone, Copy)]
pub struct Group {
    pub identity: Identity,
    pub core: Core,
    pub sending: Sending,
    pub ring: HistoryRing,
}

// The answer of a call, and the record after it: as it was where the call is refused.
#[derive(Clone, Copy)]
pub struct Answered<R, T> {
    pub record: R,
    pub answer: Result<T, Error>,
}

impl<R, T> Answered<R, T> {
    // The call is refused.
    pub fn refused(record: R, error: Error) -> Self
        ensures { (result.«record» ≡ «record») × (result.answer ≡ Err error) }
    {
        Answered {
            record,
            answer: Err(error),
        }
    }
}

// 2: an id beyond 32 bits, or a mode above 1.
fn making_out_of_range(id: u64, mode: u64) -> bool
    ensures { result ≡ (above largest_32 id || above 1 mode) }
{
    (LARGEST_32 < id) | (1 < mode)
}

impl Group {
    // The most members of a group, the most sends that its history holds, and the bytes of a cell.
    pub const MAX_MEMBERS: usize = srt_connection_members::MAX_MEMBERS;

    pub const MAX_HISTORY: usize = history::MAX_HISTORY;

    pub const CELL: usize = received_payload::CELL;

    // Kept (5): id, mode and length are words that a C host lends for the start alone.
    // A fresh group over tables of which no row is in use. The mode is 0 for Broadcast, 1 for Backup. The length is the store's, which every
    // call that is lent one then asks for, or 0. Refused with 2 for an id or a mode out of range, with 1 for an id that is no group's.
    #[tactic(auto, using(crate::specs::Laws::Made::new_unmarked, crate::specs::Laws::Made::new_made))]
    pub fn new(id: u64, mode: u64, length: usize) -> Result<Group, Error>
        ensures { PromisedNew record { id = id; mode = mode; length = length } result }
    {
        if making_out_of_range(id, mode) {
            return Err(Error::OutOfRange);
        }
        if !is_group_id(id) {
            return Err(Error::MissingGroupMask);
        }
        Ok(Self::fresh(id, mode, length))
    }

    // Kept (5): the three words of `new` go from C to this call and no further: a struct of them is made for it alone, and no plainer.
    // The record of a group that was just made.
    #[tactic(auto, unfolding(srt_group_model::specs::Calls::new, word_rows::specs::Tab::tab, srt_connection_members::specs::Members::members_of))]
    fn fresh(id: u64, mode: u64, length: usize) -> Self
        ensures { Fresh result (new record { id = id; mode = mode; length = length }) }
    {
        Self {
            identity: Identity { id, length },
            core: Core {
                mode,
                ..Core::default()
            },
            sending: Sending::default(),
            ring: HistoryRing::default(),
        }
    }

    // The history's words, to be lent to every call.
    pub fn history() -> [u64; Self::MAX_HISTORY]
        ensures { length result ≡ max_history }
    {
        [0; Self::MAX_HISTORY]
    }

    // The source times of the history's entries, to be lent to every call.
    // Kept (2): a public name, which says which of the two arrays it makes; one function for both is no plainer to call.
    pub fn sources() -> [u64; Self::MAX_HISTORY]
        ensures { length result ≡ max_history }
    {
        [0; Self::MAX_HISTORY]
    }
}
