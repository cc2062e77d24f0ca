// The stand-in for `SrtConnection` (document 01, "The stand-in leg"): what a leg does, by value. Its queue of events stands in
// srt_connection_queue, the lent table of members with their legs and queues in srt_connection_members.

#![tactic(auto)]

pub mod legs; // legs.rt: a leg by value
pub mod readings; // readings.rt: a leg's field by its number
