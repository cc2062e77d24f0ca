// What the measuring crates begin with: the numbers of a group that has sent nothing, and the data of a packet. No product links it.

#![tactic(auto)]

ghost use Rattle.std.specs.Prelude.{◌≡◌};
ghost use Rattle.bench_made.specs.Made.{core_of, nothing_sent, data_of};

use srt_group_model::{Core, Counts, Data, Receiving, Sending};
use srt_protocol::time::Timestamp;

// A Broadcast group of so many members and held packets, with `based` 0 before its first packet.
// Kept (1): `based` is a word of the record, which a C host lends.
pub fn core(members: usize, pending: usize, based: u64) -> Core
    ensures { result ≡ core_of members pending based }
{
    Core {
        counts: Counts {
            members,
            pending,
            ..Counts::default()
        },
        receiving: Receiving {
            based,
            ..Receiving::default()
        },
        ..Core::default()
    }
}

// Nothing was sent.
pub fn sending() -> Sending
    ensures { result ≡ nothing_sent }
{
    Sending::default()
}

// A packet of this sequence, its source time the same number.
pub fn data(sequence: u64, cell: u64, length: u64) -> Data
    ensures { result ≡ data_of sequence cell length }
{
    Data {
        sequence,
        count: 1,
        message: 0,
        timestamp: 0,
        source: Timestamp(sequence),
        cell,
        length,
    }
}
