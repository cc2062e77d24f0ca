// A replay listing over a group, line by line: document 01's listing without the reading and writing of columns.

#![tactic(auto)]

ghost use Rattle.std.specs.Prelude.{◌≡◌, List, [], ℕ, None, Option, Some};
ghost use Rattle.srt_group_model.specs.State.{State};
ghost use Rattle.srt_group_replay.specs.Lines.{tables_of, standing, Standing};
ghost use Rattle.srt_group_replay.specs.Told.{TellsLine, TellsOver};

use cell_set::{CellSet, WORDS};
use srt_connection_members::MEMBERS_LENGTH;
use srt_group::Group;
use srt_group_listing::{Line, Printed};
use srt_group_sending::list::SENT_LENGTH;
use srt_group_tables::history::MAX_HISTORY;
use srt_group_tables::pending::PENDING_LENGTH;
use srt_group_tables::waiting::WAITING_LENGTH;
use srt_protocol::received_payload::OUTPUT;
use std::marker::Model;

mod lent; // lent.rt: a replay over tables that a caller lends
pub mod telling; // telling.rt: a line, whatever its verb, over tables that a caller lends
mod verb; // verb.rt: what a line asks for

pub use lent::LentReplay;
pub use verb::{Call, UnknownVerb, Verb};

// The bytes of the store: 40 cells.
pub const STORE: usize = 40 * Group::CELL;

// The words of the list of sends: 5 to each of the 1,100 of one call at most.
pub const LIST: usize = SENT_LENGTH;

// What a replay lends to its group: the tables, each of its full length; a store of 40 cells with the set of those in use; an output, and a list of sends.
#[derive(Drop)]
pub struct Memory {
    pub members: [u64; MEMBERS_LENGTH],
    pub pending: [u64; PENDING_LENGTH],
    pub waiting: [u64; WAITING_LENGTH],
    pub history: [u64; MAX_HISTORY],
    pub sources: [u64; MAX_HISTORY],
    pub store: [u8; STORE],
    pub output: [u8; OUTPUT],
    pub list: [u64; LIST],
    pub used: CellSet,
}

// The group after a line, if one stands, and what the line prints.
// Kept (2): `Told` with an `Option`; as one generic struct each verb's contract would name the parameter, for this one use: no plainer.
#[derive(Clone, Copy)]
pub struct Replayed {
    pub group: Option<Group>,
    pub line: Printed,
}

// What tells the lines of a listing, whatever holds its group and its tables.
pub trait Teller {
    // The state that its group shows, none before a line made one.
    ghost shown: { Self → Option State };

    // The names of what it is lent, which stay from line to line.
    ghost lent: { Self → List ℕ };

    // What a line does to the group that stands, if any, and what it prints.
    fn tell(&mut self, line: &Line) -> Printed
        ensures told { TellsLine line.now (shown self.old) result (shown self.new) }
        ensures keeps { lent self.new ≡ lent self.old };
}

// The group that stands, none before a line made one, over the memory that it is lent. The replay is its only writer. In contracts it is the
// state that the group shows.
#[derive(Drop)]
pub struct Replay {
    group: Option<Group>,
    memory: Memory,
}

impl Model for Replay {
    ghost use Rattle.std.specs.Prelude.{Option};
    ghost use Rattle.srt_group_model.specs.State.{State};

    ghost Value = { Option State };

    ghost use Rattle.srt_group_replay.specs.Lines.{standing, Standing};

    ghost view = { λ r. standing r.group r.memory };

    ghost invariant = { λ r. Standing r.group r.memory };
}

impl Replay {
    // No group stands before verb 1 makes one.
    pub fn new() -> Self
        ensures { result ≡ None }
    {
        Replay {
            group: None,
            memory: Memory {
                members: [0; MEMBERS_LENGTH],
                pending: [0; PENDING_LENGTH],
                waiting: [0; WAITING_LENGTH],
                history: Group::history(),
                sources: Group::sources(),
                store: [0; STORE],
                output: [0; OUTPUT],
                list: [0; LIST],
                used: [0; WORDS],
            },
        }
    }

    // A group that stands already goes on over its own memory. Over tables that a caller lends, also longer ones, `LentReplay` tells lines.
    pub fn of(group: Group, memory: Memory) -> Self
        requires { Standing (Some group) memory }
        ensures { result ≡ standing (Some group) memory }
    {
        Replay {
            group: Some(group),
            memory,
        }
    }

    // The group that stands, if any, and the memory that it was lent, given back.
    pub fn into_parts(self) -> (Option<Group>, Memory)
        ensures stands { Standing result.0 result.1 }
        ensures shows { standing result.0 result.1 ≡ self }
    {
        let Replay { group, memory } = self;
        (group, memory)
    }
}

impl Teller for Replay {
    ghost shown = { λ s. s };

    ghost lent = { λ _. [] };

    fn tell(&mut self, line: &Line) -> Printed {
        let told = tell_in(&mut self.memory, self.group, line);
        self.group = told.group;
        told.line
    }
}

// A line over the group that stands, if any, in the memory that is lent.
fn tell_in(memory: &mut Memory, standing: Option<Group>, line: &Line) -> Replayed
    requires { Standing standing memory.old }
    ensures { TellsOver line.now standing (tables_of memory.old) result (tables_of memory.new) memory.new.used }
{
    let Memory {
        members,
        pending,
        waiting,
        history,
        sources,
        store,
        output,
        list,
        used,
    } = memory;
    telling::tell(
        standing, members, pending, waiting, history, sources, store, output, list, used, line,
    )
}
