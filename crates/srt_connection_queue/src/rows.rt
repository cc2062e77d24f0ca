// A member's row in the lent table: parts of nine words, in the order of the constants below. Words that a part does not use
// are 0, those of the spare part apart. Every row of ROW words shows a member: there is no row that does not decode.
// Kept (5): a part's place comes of the ring's arithmetic; a type of places would be made for each read and taken apart at once.
ghost use Rattle.std.specs.Prelude.{◌≡◌, ◌+◌, ◌%◌, ◌<◌};
ghost use Rattle.srt_group_model.specs.Validity.{max_queued};
ghost use Rattle.srt_connection_queue.specs.Rows.{link_part, receiver_part, first_event_part, parts, part, put_part, membership_of, membership_words, link_part_of, link_part_words, sender_of, sender_words, receiver_of, receiver_in, ring_of, ring_in, event_of, event_words, member_of, Kept, with_membership, with_link_trip, with_sender, with_receiver};
ghost use Rattle.srt_group_model.specs.State.{with_leg, on_leg, on_membership, with_account};
ghost use Rattle.srt_group_model.specs.Legs.{with_reservation, advance_receive_sequence};

use srt_group_model::{
    Account, Collision, Data, Event, Leg, Link, Membership, Receiver, Sender, Trip,
};
use srt_protocol::time::Timestamp;

// ---- sizes: the layout stands here and in specs/Rows.antt, and nowhere else

// The words of a part of a row.
const PART: usize = 9;

type Part = [u64; PART];

// The parts of a row, in their order.
const MEMBERSHIP: usize = 0;

// The link and the round trip.
const LINK: usize = MEMBERSHIP + 1;

const SENDER: usize = LINK + 1;

// The receiver, and the ring's start and length.
const RECEIVER: usize = SENDER + 1;

// Nine words for the fields that come next. No call reads them, so what they hold is free; a new member's row keeps what stood
// there. A new field takes a word here, and whoever adds a member writes it. Row and table keep their lengths until it is full.
const SPARE: usize = RECEIVER + 1;

// The first part that is an event of the queue; the others follow it.
pub const FIRST_EVENT: u64 = (SPARE + 1) as u64;

// The events that a queue can hold.
pub const MAX_QUEUED: u64 = 16;

// The words of a row.
pub const ROW: usize = (FIRST_EVENT + MAX_QUEUED) as usize * PART;

// A member's row.
pub type Row = [u64; ROW];

// Words that are read or written alone.
const ID: usize = MEMBERSHIP * PART;

const STATE: usize = MEMBERSHIP * PART + 2;

const ADMITTED: usize = MEMBERSHIP * PART + 3;

const ACCOUNT: usize = MEMBERSHIP * PART + 4;

const LINK_STATE: usize = LINK * PART;

const RESERVED: usize = RECEIVER * PART + 3;

const ADVANCED: usize = RECEIVER * PART + 4;

// The link's part of a row.
#[derive(Clone, Copy)]
pub struct LinkPart {
    pub link: Link,
    pub trip: Trip,
}

// Where a queue's events stand in the ring: the front's place, read modulo MAX_QUEUED, and how many there are.
// Kept (2): these are words of a row, of 64 bits; `HistoryRing` is a part of the record, in `usize`. A type over both would convert the number in each method, and is no plainer.
#[derive(Clone, Copy)]
pub struct Ring {
    pub start: u64,
    pub length: u64,
}

impl Ring {
    // The part of a row in which the event stands that is so many after the front.
    pub fn slot(self, at: u64) -> usize
        requires { at < max_queued }
        ensures { (result ≡ first_event_part + (self.start + at) % max_queued) × (result < parts) }
    {
        (FIRST_EVENT + (self.start % MAX_QUEUED + at) % MAX_QUEUED) as usize
    }
}

// ---- nine words: a pair of functions for each part
// Kept (2, 4): a trait for the pair is no plainer: it takes as many lines, for its ghosts in each impl.

#[tactic(auto, unfolding(crate::specs::Rows::membership_of))]
fn read_membership(words: &Part) -> Membership
    ensures { result ≡ membership_of words.now }
{
    Membership {
        id: words[0],
        weight: words[1],
        state: words[2],
        admitted: words[3],
        account: Account { reserved: words[4] },
        collision: Collision {
            expected: words[5],
            actual: words[6],
        },
    }
}

#[tactic(auto, unfolding(crate::specs::Rows::membership_words))]
fn membership_words(membership: Membership) -> Part
    ensures { result ≡ membership_words membership }
{
    [
        membership.id,
        membership.weight,
        membership.state,
        membership.admitted,
        membership.account.reserved,
        membership.collision.expected,
        membership.collision.actual,
        0,
        0,
    ]
}

#[tactic(auto, unfolding(crate::specs::Rows::link_part_of))]
fn read_link_part(words: &Part) -> LinkPart
    ensures { result ≡ link_part_of words.now }
{
    LinkPart {
        link: Link {
            state: words[0],
            peer: words[1],
            limit: words[2],
        },
        trip: Trip {
            srtt: words[3],
            rttvar: words[4],
            heard: Timestamp(words[5]),
        },
    }
}

#[tactic(auto, unfolding(crate::specs::Rows::link_part_words))]
fn link_part_words(part: LinkPart) -> Part
    ensures { result ≡ link_part_words part }
{
    [
        part.link.state,
        part.link.peer,
        part.link.limit,
        part.trip.srtt,
        part.trip.rttvar,
        part.trip.heard.0,
        0,
        0,
        0,
    ]
}

#[tactic(auto, unfolding(crate::specs::Rows::sender_of))]
fn read_sender(words: &Part) -> Sender
    ensures { result ≡ sender_of words.now }
{
    Sender {
        started: words[0],
        next: words[1],
        flight: words[2],
        window: words[3],
        oldest: Timestamp(words[4]),
        pace: Timestamp(words[5]),
    }
}

#[tactic(auto, unfolding(crate::specs::Rows::sender_words))]
fn sender_words(sender: Sender) -> Part
    ensures { result ≡ sender_words sender }
{
    [
        sender.started,
        sender.next,
        sender.flight,
        sender.window,
        sender.oldest.0,
        sender.pace.0,
        0,
        0,
        0,
    ]
}

#[tactic(auto, unfolding(crate::specs::Rows::receiver_of))]
fn read_receiver(words: &Part) -> Receiver
    ensures { result ≡ receiver_of words.now }
{
    Receiver {
        first: words[0],
        window: words[1],
        latency: words[2],
        reserved: words[3],
        advanced: words[4],
    }
}

#[tactic(auto, unfolding(crate::specs::Rows::receiver_in))]
fn receiver_words(receiver: Receiver, words: &Part) -> Part
    ensures { result ≡ receiver_in receiver words.now }
{
    let mut words = *words;
    words[0] = receiver.first;
    words[1] = receiver.window;
    words[2] = receiver.latency;
    words[3] = receiver.reserved;
    words[4] = receiver.advanced;
    words
}

#[tactic(auto, unfolding(crate::specs::Rows::ring_of))]
fn read_ring(words: &Part) -> Ring
    ensures { result ≡ ring_of words.now }
{
    Ring {
        start: words[5],
        length: words[6],
    }
}

#[tactic(auto, unfolding(crate::specs::Rows::ring_in))]
fn ring_words(ring: Ring, words: &Part) -> Part
    ensures { result ≡ ring_in ring words.now }
{
    let mut words = *words;
    words[5] = ring.start;
    words[6] = ring.length;
    words
}

#[tactic(auto, unfolding(crate::specs::Rows::event_of))]
fn read_event(words: &Part) -> Event
    ensures { result ≡ event_of words.now }
{
    Event {
        kind: words[0],
        reason: words[1],
        content: Data {
            sequence: words[2],
            count: words[3],
            message: words[4],
            timestamp: words[5],
            source: Timestamp(words[6]),
            cell: words[7],
            length: words[8],
        },
    }
}

#[tactic(auto, unfolding(crate::specs::Rows::event_words))]
fn event_words(event: Event) -> Part
    ensures { result ≡ event_words event }
{
    [
        event.kind,
        event.reason,
        event.content.sequence,
        event.content.count,
        event.content.message,
        event.content.timestamp,
        event.content.source.0,
        event.content.cell,
        event.content.length,
    ]
}

// ---- the parts of a row

#[tactic(auto, using(word_rows::specs::Laws::Rows::chunk_there))]
fn part(row: &Row, place: usize) -> &Part
    requires { place < parts }
    ensures { result.now ≡ part row.now place }
{
    let (parts, _) = row.as_chunks::<PART>();
    &parts[place]
}

#[tactic(auto, using(word_rows::specs::Laws::Rows::row_back))]
fn put_part(row: &mut Row, place: usize, words: Part)
    requires { place < parts }
    ensures { row.new ≡ put_part row.old place words }
{
    word_rows::put_row(row, place, words);
}

fn link_part(row: &Row) -> LinkPart
    ensures { result ≡ link_part_of (part row.now link_part) }
{
    read_link_part(part(row, LINK))
}

pub fn ring_of(row: &Row) -> Ring
    ensures { result ≡ ring_of (part row.now receiver_part) }
{
    read_ring(part(row, RECEIVER))
}

pub fn put_ring(row: &mut Row, ring: Ring)
    ensures { row.new ≡ put_part row.old receiver_part (ring_in ring (part row.old receiver_part)) }
{
    let words = ring_words(ring, part(row, RECEIVER));
    put_part(row, RECEIVER, words);
}

#[tactic(auto, using(word_rows::specs::Laws::Rows::row_part))]
pub fn event_part(row: &Row, place: usize) -> Event
    requires { place < parts }
    ensures { result ≡ event_of (part row.now place) }
{
    read_event(part(row, place))
}

pub fn put_event_part(row: &mut Row, place: usize, event: Event)
    requires { place < parts }
    ensures { row.new ≡ put_part row.old place (event_words event) }
{
    put_part(row, place, event_words(event));
}

// ---- a member's row

#[tactic(auto, using(crate::specs::Laws::Rows::membership_read))]
pub fn membership(row: &Row) -> Membership
    ensures { result ≡ (member_of row.now).membership }
{
    read_membership(part(row, MEMBERSHIP))
}

pub fn put_membership(row: &mut Row, membership: Membership)
    ensures { Kept row.new (with_membership membership (member_of row.old)) }
{
    put_part(row, MEMBERSHIP, membership_words(membership));
}

pub fn put_link_trip(row: &mut Row, link: Link, trip: Trip)
    ensures { Kept row.new (with_link_trip link trip (member_of row.old)) }
{
    put_part(row, LINK, link_part_words(LinkPart { link, trip }));
}

#[tactic(auto, using(crate::specs::Laws::Rows::sender_read))]
pub fn sender(row: &Row) -> Sender
    ensures { result ≡ (member_of row.now).leg.sender }
{
    read_sender(part(row, SENDER))
}

pub fn put_sender(row: &mut Row, sender: Sender)
    ensures { Kept row.new (with_sender sender (member_of row.old)) }
{
    put_part(row, SENDER, sender_words(sender));
}

#[tactic(auto, using(crate::specs::Laws::Rows::receiver_read))]
pub fn receiver(row: &Row) -> Receiver
    ensures { result ≡ (member_of row.now).leg.receiver }
{
    read_receiver(part(row, RECEIVER))
}

pub fn put_receiver(row: &mut Row, receiver: Receiver)
    ensures { Kept row.new (with_receiver receiver (member_of row.old)) }
{
    let words = receiver_words(receiver, part(row, RECEIVER));
    put_part(row, RECEIVER, words);
}

#[tactic(auto, using(crate::specs::Laws::Rows::leg_read))]
pub fn leg(row: &Row) -> Leg
    ensures { result ≡ (member_of row.now).leg }
{
    let LinkPart { link, trip } = link_part(row);
    Leg {
        link,
        sender: sender(row),
        receiver: receiver(row),
        trip,
    }
}

#[tactic(auto, using(crate::specs::Laws::Rows::leg_put))]
pub fn put_leg(row: &mut Row, leg: Leg)
    ensures { Kept row.new (with_leg leg (member_of row.old)) }
{
    put_link_trip(row, leg.link, leg.trip);
    put_sender(row, leg.sender);
    put_receiver(row, leg.receiver);
}

// ---- one word of a row

#[tactic(auto, using(crate::specs::Laws::Rows::id_word))]
pub fn member_id(row: &Row) -> u64
    ensures { result ≡ (member_of row.now).membership.id }
{
    row[ID]
}

#[tactic(auto, using(crate::specs::Laws::Rows::state_word))]
pub fn member_state(row: &Row) -> u64
    ensures { result ≡ (member_of row.now).membership.state }
{
    row[STATE]
}

#[tactic(auto, using(crate::specs::Laws::Rows::admitted_word))]
pub fn admitted(row: &Row) -> u64
    ensures { result ≡ (member_of row.now).membership.admitted }
{
    row[ADMITTED]
}

#[tactic(auto, using(crate::specs::Laws::Rows::link_state_word))]
pub fn link_state(row: &Row) -> u64
    ensures { result ≡ (member_of row.now).leg.link.state }
{
    row[LINK_STATE]
}

#[tactic(auto, using(crate::specs::Laws::Rows::account_word))]
pub fn account(row: &Row) -> Account
    ensures { result ≡ (member_of row.now).membership.account }
{
    Account {
        reserved: row[ACCOUNT],
    }
}

pub fn put_account(row: &mut Row, account: Account)
    ensures { Kept row.new (on_membership (with_account account) (member_of row.old)) }
{
    row[ACCOUNT] = account.reserved;
}

#[tactic(auto, using(crate::specs::Laws::Rows::reserved_word))]
pub fn reservation(row: &Row) -> u64
    ensures { result ≡ (member_of row.now).leg.receiver.reserved }
{
    row[RESERVED]
}

pub fn put_reservation(row: &mut Row, reserved: u64)
    ensures { Kept row.new (on_leg (with_reservation reserved) (member_of row.old)) }
{
    row[RESERVED] = reserved;
}

pub fn advance_receive_sequence(row: &mut Row, sequence: u64)
    ensures { Kept row.new (on_leg (advance_receive_sequence sequence) (member_of row.old)) }
{
    row[ADVANCED] = sequence;
}
