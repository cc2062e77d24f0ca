// The lent list of sends: rows of five words, one for each successful send in its order. The rows behind the last send, and the
// words behind all rows, stay as they were.
// Kept (6): the list is the words that a host lends; `count` is the row to write, and the rows behind it stay as they were.
ghost use Rattle.std.specs.Prelude.{◌≡◌, [], ◌∷◌, ◌+◌, ◌*◌, ◌≤◌, length};
ghost use Rattle.srt_group_model.specs.Sending.{sent_row_size};
ghost use Rattle.srt_group_sending.specs.SentList.{sent_row, sent_words, Wrote};

use srt_protocol::time::Timestamp;

// The words of a row.
pub const SENT_WORDS: usize = 5;

// The rows of a list: more than the sends that one call can make.
pub const MAX_SENT: usize = 1100;

// The words of a list.
pub const SENT_LENGTH: usize = MAX_SENT * SENT_WORDS;

// In a row of the list: the payload is the call's own, not one of the history.
// Kept (1): the list's word, in which C reads 4294967295 for the call's own payload; an Option would be turned into it at once, and is no plainer.
pub const OWN_PAYLOAD: u64 = 0xffff_ffff;

// A send, as a row of the list tells it: the leg, the sequence, the cell of the payload, its source time, and the time of the send.
#[derive(Clone, Copy)]
pub struct Sent {
    pub leg: u64,
    pub sequence: u64,
    pub cell: u64,
    pub source: Timestamp,
    pub time: Timestamp,
}

impl Sent {
    // The call's own payload, whose source time is that of the send.
    pub fn own(leg: u64, sequence: u64, time: Timestamp) -> Self
        ensures { result ≡ record { leg = leg; sequence = sequence; cell = OWN_PAYLOAD; source = time; time = time } }
    {
        Self {
            leg,
            sequence,
            cell: OWN_PAYLOAD,
            source: time,
            time,
        }
    }
}

#[tactic(auto, unfolding(crate::specs::SentList::sent_words))]
fn words_of(sent: Sent) -> [u64; SENT_WORDS]
    ensures { result ≡ sent_words (sent_row sent.leg sent.sequence sent.cell sent.source.0 sent.time.0) }
{
    [
        sent.leg,
        sent.sequence,
        sent.cell,
        sent.source.0,
        sent.time.0,
    ]
}

// A send behind the first `count`.
#[tactic(auto, using(crate::specs::Laws::SentList::wrote_one))]
pub fn write_sent(list: &mut [u64], count: usize, sent: Sent)
    requires { count * sent_row_size + sent_row_size ≤ length list.old }
    ensures { Wrote count (sent_row sent.leg sent.sequence sent.cell sent.source.0 sent.time.0 ∷ [])
        list.old (count + 1) list.new }
{
    word_rows::put_row(list, count, words_of(sent));
}
