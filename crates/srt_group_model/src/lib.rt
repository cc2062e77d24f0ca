// The types that the code and its definitions share: a bonding group, its members, the legs that carry them, and the
// packets. A field's comment names the Rust's field. The only functions here show words of a record as the Rust has them.
//
// What is read from a row of a lent table has 64-bit words, as the row has. Their ranges are rules of validity (code 6),
// so a row that breaks one can be shown and refused.

#![tactic(auto)]

ghost use Rattle.std.specs.Prelude.{◌≡◌};
ghost use Rattle.srt_group_model.specs.Cells.{is_data};
ghost use Rattle.srt_group_model.specs.Removal.{is_owned};
ghost use Rattle.srt_group_model.specs.State.{based_at};
ghost use Rattle.srt_group_model.specs.Tools.{is_set, flagged};

use srt_protocol::time::Timestamp;

// ---- packets and events

// What a leg's queue holds of a DATA packet: the fields of `ConnectionEvent::DataReceived`, its payload in a cell.
#[repr(C)]
#[derive(Clone, Copy, Default)]
pub struct Data {
    // sequence_number
    pub sequence: u64,
    // packet_count
    pub count: u64,
    // message_number
    pub message: u64,
    // timestamp, the sender's own
    pub timestamp: u64,
    // source_time
    pub source: Timestamp,
    // payload: the cell of the store in which it stands, and its bytes there
    pub cell: u64,
    pub length: u64,
}

// `ConnectionEvent`. The kind is 0 data, 1 connected, 2 error, 3 disconnected. Data has no reason, the others no data.
#[derive(Clone, Copy)]
pub struct Event {
    // Kept (1): a kind is a word of the lent row: a C host may lend any number, and 6 has to read it to refuse it.
    pub kind: u64,
    pub reason: u64,
    pub content: Data,
}

impl Event {
    pub fn is_data(&self) -> bool
        ensures { result ≡ is_data self.now }
    {
        self.kind == 0
    }
}

// `GroupPacket`, with its place in `owned`: 1 if the group holds it itself, 0 if its member holds the reservation.
#[repr(C)]
#[derive(Clone, Copy, Default)]
pub struct Packet {
    // member_id
    pub member: u64,
    // Kept (1): a flag is a word of the lent row: a C host may lend any number, and 6 has to read it to refuse it.
    pub owned: u64,
    pub content: Data,
}

impl Packet {
    pub fn is_owned(&self) -> bool
        ensures { result ≡ is_owned self.now }
    {
        self.owned == 1
    }
}

// `GroupEvent` without its data case: member, kind 1 connected, 2 error, 3 disconnected, and the reason's number.
#[derive(Clone, Copy)]
pub struct Waiting {
    pub member: u64,
    // Kept (1): a kind is a word of the lent row: a C host may lend any number, and 6 has to read it to refuse it.
    pub kind: u64,
    pub reason: u64,
}

// ---- a leg: the stand-in for `SrtConnection`

// state is 0 handshaking, 1 connected, 2 disconnected; peer is the peer group (0: none); limit is the payload limit.
#[derive(Clone, Copy)]
pub struct Link {
    // Kept (1): a state is a word of the lent row: a C host may lend any number, and 6 has to read it to refuse it.
    pub state: u64,
    // Kept (1): a word of the lent row, in which a C host writes 0 for no peer group.
    pub peer: u64,
    pub limit: u64,
}

// The sender, which exists (started is 1) from the first connect on. flight counts unacknowledged sends; window is their
// limit; oldest is the oldest send time; pace is the time before which pacing holds a send back.
#[derive(Clone, Copy)]
pub struct Sender {
    // Kept (1): a flag is a word of the lent row: a C host may lend any number, and 6 has to read it to refuse it.
    pub started: u64,
    pub next: u64,
    pub flight: u64,
    pub window: u64,
    pub oldest: Timestamp,
    pub pace: Timestamp,
}

// first is the peer's first sequence (4294967295: none); window the receive window; reserved the packets of its queue and
// of the payloads held for it; advanced the number last recorded by `advance_receive_sequence`.
#[derive(Clone, Copy)]
pub struct Receiver {
    // Kept (1): a word of the lent row, in which a C host writes 4294967295 for none.
    pub first: u64,
    pub window: u64,
    // Kept (1): a word of the lent row, in which a C host writes 0 for a leg that gives up never.
    pub latency: u64,
    pub reserved: u64,
    pub advanced: u64,
}

// The round trip as the sender estimates it, and when the peer was last heard.
#[derive(Clone, Copy)]
pub struct Trip {
    pub srtt: u64,
    pub rttvar: u64,
    pub heard: Timestamp,
}

#[derive(Clone, Copy)]
pub struct Leg {
    pub link: Link,
    pub sender: Sender,
    pub receiver: Receiver,
    pub trip: Trip,
}

// ---- a member

// `PeerGroupCollision` at its member: actual is 0 while there is none.
#[derive(Clone, Copy)]
pub struct Collision {
    // expected_peer_group_id
    pub expected: u64,
    // actual_peer_group_id
    // Kept (1): a word of the row that a C host lends; whatever stands there has to be readable, so that 6 can refuse it.
    pub actual: u64,
}

// The packets held for a member, or by the group itself: the sum of their counts. What is kept of them moves together.
#[repr(C)]
#[derive(Clone, Copy, Default, PartialEq)]
pub struct Account {
    // reserved_packets of a member, owned_packets of the group
    pub reserved: u64,
}

// `SrtGroupMember` without its connection. The state is 0 pending, 1 active, 2 standby, 3 unstable, 4 broken.
#[derive(Clone, Copy)]
pub struct Membership {
    pub id: u64,
    pub weight: u64,
    // Kept (1): a state is a word of the lent row: a C host may lend any number, and 6 has to read it to refuse it.
    pub state: u64,
    // peer_group_admitted
    // Kept (1): a flag is a word of the lent row: a C host may lend any number, and 6 has to read it to refuse it.
    pub admitted: u64,
    pub account: Account,
    pub collision: Collision,
}

// A member as it is shown to a host: its membership, and of its leg (the Rust's `connection`) the state.
#[derive(Clone, Copy)]
pub struct MemberShown {
    pub membership: Membership,
    // Kept (1): the word of the row, which is shown to C as it is.
    pub connection: u64,
}

// ---- the group's own numbers
//
// Every field of the record is a 64-bit word, so that any record a host lends can be read, shown and, if a word is beyond
// its range, refused: a flag is 0 or 1, the mode 0 for Broadcast or 1 for Backup.

// What is fixed at creation and no poll needs.
#[repr(C)]
#[derive(Clone, Copy)]
pub struct Identity {
    // group_id
    pub id: u64,
    // the store's length given at the start, or 0
    // Kept (1): a word of the record, in which a C host writes 0 for none.
    pub length: usize,
}

// What receiving moves, with the pending packets.
#[repr(C)]
#[derive(Clone, Copy, Default)]
pub struct Receiving {
    // next_receive_sequence, the base, and whether it is set
    // Kept (1): a C host lends the record as words, and whatever it lends has to be readable; `base` gives the option.
    pub based: u64,
    pub base: u64,
    // skipped_receive_packets
    pub skipped: u64,
}

impl Receiving {
    // next_receive_sequence
    #[tactic(auto, using(crate::specs::Laws::Flag::shown))]
    pub fn base(self) -> Option<u64>
        ensures { result ≡ flagged (is_set self.based) self.base }
    {
        (self.based != 0).then_some(self.base)
    }

    pub fn set_base(&mut self, base: u64)
        ensures { self.new ≡ based_at base self.old.skipped }
    {
        self.based = 1;
        self.base = base;
    }
}

// What sending moves, with the history.
#[repr(C)]
#[derive(Clone, Copy, Default)]
pub struct Sending {
    // next_send_sequence, and whether it is set
    // Kept (1): a C host lends the record as words; `next_send_sequence` gives the option.
    pub numbered: u64,
    pub next: u64,
    // backup_carrier, and whether there is one
    // Kept (1): a C host lends the record as words; `carrier` gives the option.
    pub carried: u64,
    pub carrier: u64,
    // backup_history_gap
    // Kept (1): a C host lends the record as words, and whatever it lends has to be readable, so that 6 can refuse it.
    pub gap: u64,
}

impl Sending {
    // next_send_sequence
    #[tactic(auto, using(crate::specs::Laws::Flag::shown))]
    pub fn next_send_sequence(self) -> Option<u64>
        ensures { result ≡ flagged (is_set self.numbered) self.next }
    {
        (self.numbered != 0).then_some(self.next)
    }

    // backup_carrier
    #[tactic(auto, using(crate::specs::Laws::Flag::shown))]
    pub fn carrier(self) -> Option<u64>
        ensures { result ≡ flagged (is_set self.carried) self.carrier }
    {
        (self.carried != 0).then_some(self.carrier)
    }
}

#[repr(C)]
#[derive(Clone, Copy, Default)]
pub struct Visit {
    // receive_continuation
    // Kept (1): a C host lends the record as words, and whatever it lends has to be readable, so that 6 can refuse it.
    pub continuation: u64,
    // next_event_member
    pub round: usize,
}

// How many rows of each lent table are in use: members, pending packets, waiting events.
#[repr(C)]
#[derive(Clone, Copy, Default)]
pub struct Counts {
    pub members: usize,
    pub pending: usize,
    pub waiting: usize,
}

// What a poll carries through by value.
#[repr(C)]
#[derive(Clone, Copy, Default)]
pub struct Core {
    // mode
    // Kept (1): the mode is the record's word, which a C host lends so that 6 can refuse it; an enum of two modes says what `is_backup` says, and is no plainer.
    pub mode: u64,
    // peer_group_id, 0 while the group is not bound
    // Kept (1): a word of the record that a C host lends; whatever stands there has to be readable, so that 6 can refuse it.
    pub peer: u64,
    pub counts: Counts,
    pub receiving: Receiving,
    pub visit: Visit,
    // of the packets that the group holds itself
    pub own: Account,
}

// An entry of backup_history: the payload that was sent at a sequence, in its cell, with its source time.
#[repr(C)]
#[derive(Clone, Copy)]
pub struct Entry {
    pub sequence: u64,
    pub cell: u64,
    pub length: u64,
    pub source: Timestamp,
}
