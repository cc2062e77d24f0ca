// The replay listing over the group: what each verb of document 01's listing does, and what its line prints. Here are the verbs about members; those
// about packets stand in `srt_group_listing_packets`. Each verb is a call in its form for a valid state, since a replay is the only writer of its
// group; so these functions have a `requires`, and no host calls them.

#![tactic(auto)]

use srt_group::Group;

pub mod members; // members.rt: verbs 2, 3, 7, 8 and 9

// The eight numbers of a line of a listing: the verb, and what it needs.
pub type Line = [u64; 8];

// The six numbers of an output line: the verb, its code, and what an accepted poll or send prints.
#[repr(C)]
#[derive(Clone, Copy, Default)]
pub struct Printed {
    // Kept (1): a printed column is no plainer as an enum: 0 where the line names no verb.
    pub verb: u64,
    // Kept (1): as the verb: 0, or the number of the Error.
    pub code: u64,
    pub leg: u64,
    pub sequence: u64,
    pub count: u64,
    pub skipped: u64,
}

// The group after a line, and what the line prints.
// Kept (2): `Replayed` of srt_group_replay may have no group; a type parameter for these two fields is no plainer.
#[repr(C)]
#[derive(Clone, Copy)]
pub struct Told {
    pub group: Group,
    pub line: Printed,
}
