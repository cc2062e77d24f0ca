// The replay listing over the group: the verbs that queue a packet, poll for one and send one. Each is a call in its form for a valid state, as those of
// `srt_group_listing` are.

#![tactic(auto)]

pub mod packets; // packets.rt: verbs 4, 5 and 6
