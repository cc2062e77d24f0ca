// The sends under plain names, for bench/calls to time. A measuring crate: no product links it. Nothing exported has a `requires`: what a
// host lends is tested.
// Kept (5, 6): each table is a parameter of its own, as the measuring program lends it over the C interface.

#![tactic(auto)]

use cell_set::WORDS;
use send_steps::steps::{call_each, step_each};
use srt_group_refusals::refusals::LentGroup;
use srt_group_sending::list::SENT_LENGTH;
use srt_group_words::record::{RECORD, SHORT, put_group, read_group};

// The steps of a run of sends in turn by the public calls.
#[unsafe(no_mangle)]
pub extern "C" fn calls_sends(
    record: &mut [u64; RECORD],
    members: &mut [u64],
    pending: &[u64],
    waiting: &[u64],
    history: &mut [u64],
    sources: &mut [u64],
    store: &mut [u8],
    list: &mut [u64],
    steps: &mut [u64],
    payload: &[u8],
) -> u32 {
    let group = read_group(record);
    let after = call_each(
        group, members, pending, waiting, history, sources, store, list, steps, payload,
    );
    put_group(record, after);
    0
}

// The same by the forms for a valid state: 5 and 6 are tested once, before the first step. Answers their code.
#[unsafe(no_mangle)]
pub extern "C" fn calls_sends_valid(
    record: &mut [u64; RECORD],
    members: &mut [u64],
    pending: &[u64],
    waiting: &[u64],
    history: &mut [u64],
    sources: &mut [u64],
    store: &mut [u8],
    list: &mut [u64],
    steps: &mut [u64],
    payload: &[u8],
) -> u32 {
    if list.len() < SENT_LENGTH {
        return SHORT;
    }
    let group = read_group(record);
    let mut used = [0; WORDS];
    let lent = LentGroup {
        group,
        members,
        pending,
        waiting,
        history,
        sources,
    };
    if let Err(error) = lent.begin_stored(store.len(), &mut used) {
        return u32::from(error);
    }
    let after = step_each(
        group, members, pending, waiting, history, sources, store, list, &mut used, steps, payload,
    );
    put_group(record, after);
    0
}
