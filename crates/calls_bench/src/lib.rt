// The calls under plain names, for bench/calls to time. A measuring crate: no product links it. Nothing exported has a `requires`: what a
// host lends is tested.
// Kept (5, 6): each table is a parameter of its own, as the measuring program lends it over the C interface.

#![tactic(auto)]

use bench_steps::steps::{call_each, step_each};
use cell_set::WORDS;
use srt_group::Group;
use srt_group_refusals::refusals::LentGroup;
use srt_group_words::record::{RECORD, put_group, read_group};

// The steps in turn by the public calls.
#[unsafe(no_mangle)]
pub extern "C" fn calls_run(
    record: &mut [u64; RECORD],
    members: &mut [u64],
    pending: &mut [u64],
    waiting: &mut [u64],
    history: &[u64],
    sources: &[u64],
    store: &mut [u8],
    output: &mut [u8],
    steps: &mut [u64],
    payload: &[u8],
    time: u64,
) -> u32 {
    let group = read_group(record);
    let after = call_each(
        group, members, pending, waiting, history, sources, store, output, steps, payload, time,
    );
    put_group(record, after);
    0
}

// The same by the forms for a valid state: 5 and 6 are tested once, before the first step. Answers their code.
#[unsafe(no_mangle)]
pub extern "C" fn calls_run_valid(
    record: &mut [u64; RECORD],
    members: &mut [u64],
    pending: &mut [u64],
    waiting: &mut [u64],
    history: &[u64],
    sources: &[u64],
    store: &mut [u8],
    output: &mut [u8],
    steps: &mut [u64],
    payload: &[u8],
    time: u64,
) -> u32 {
    let group = read_group(record);
    let mut used = [0; WORDS];
    let lent = LentGroup {
        group,
        members,
        pending,
        waiting,
        history,
        sources,
    };
    if let Err(error) = lent.begin_poll(store.len(), output.len(), &mut used) {
        return u32::from(error);
    }
    let core = step_each(
        group, members, pending, waiting, history, sources, store, output, &mut used, steps,
        payload, time,
    );
    put_group(record, Group { core, ..group });
    0
}
