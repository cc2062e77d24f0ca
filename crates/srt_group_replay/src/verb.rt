// The verbs of a replay listing.
ghost use Rattle.srt_group_replay.specs.Verb.{Names};

// What a line asks for. A verb's number is its line's first column.
// Kept (1): a new group is a case by its name, and no call that is missing, as an `Option` would have it.
#[derive(Clone, Copy, PartialEq, Eq, Debug)]
pub enum Verb {
    // 1: a new group, in place of the old.
    New,
    // 2 to 9: a call of the group that stands.
    Call(Call),
}

// A call of the group that stands.
#[derive(Clone, Copy, PartialEq, Eq, Debug)]
pub enum Call {
    // 2: a leg is added.
    Add,
    // 3: a number is read into a leg's field.
    Reading,
    // 4: a packet is queued at a leg.
    Data,
    // 5: a poll for data.
    Poll,
    // 6: a packet is sent.
    Send,
    // 7: a member is removed.
    Remove,
    // 8: a member is marked broken.
    MarkBroken,
    // 9: an event is queued at a leg.
    Event,
}

// A number that no verb has.
#[derive(Clone, Copy, PartialEq, Eq, Debug)]
pub struct UnknownVerb;

impl TryFrom<u64> for Verb {
    type Error = UnknownVerb;

    ghost try_from_gives = { Names };

    fn try_from(number: u64) -> Result<Verb, UnknownVerb> {
        let call = match number {
            1 => return Ok(Verb::New),
            2 => Call::Add,
            3 => Call::Reading,
            4 => Call::Data,
            5 => Call::Poll,
            6 => Call::Send,
            7 => Call::Remove,
            8 => Call::MarkBroken,
            9 => Call::Event,
            _ => return Err(UnknownVerb),
        };
        Ok(Verb::Call(call))
    }
}
