// What a part of a send leaves.
use srt_protocol::error::Error;

// What a send, or a part of it, leaves of what it moves by value, and how many rows of the list are in use then; or why it was refused, with
// the same of what it did before.
// Kept (2): a refusal is written out at each place: a function of it would take the three fields one by one, as the literal does.
#[derive(Clone, Copy)]
pub struct Flown<S> {
    pub outcome: Result<(), Error>,
    pub state: S,
    pub sent: usize,
}
