// The refusals, as numbers. The Rust gives texts; document 01 gives each a number.
ghost use Rattle.std.specs.Prelude.{◌≡◌};
ghost use Rattle.srt_protocol.specs.Errors.{error_number, outcome_number};

// Why a call was refused. 1 to 6 speak of the input, 20 to 29 are the group's own, 30 to 32 are added by this port.
#[derive(Clone, Copy, PartialEq, Eq, Debug)]
pub enum Error {
    // 1: a group id without SRTGROUP_MASK.
    MissingGroupMask,
    // 2: a field beyond its range.
    OutOfRange,
    // 3: no member has that id.
    UnknownMember,
    // 4: a payload longer than a cell.
    PayloadTooLong,
    // 5: a lent slice is too short, or the store's length is not the one given at the start.
    InsufficientBuffer,
    // 6: the lent state breaks a rule.
    InvalidState,
    // 20: the group has as many members as it may have.
    MemberLimit,
    // 21: a member has that id already.
    DuplicateMember,
    // 22: the leg's send sequence could not be aligned with the group's.
    AlignmentFailed,
    // 23: the payload is above the first active leg's limit.
    PayloadAboveLimit,
    // 24: no member is active.
    NoActiveMember,
    // 25: the active legs are not at the group's send sequence.
    SequenceMismatch,
    // 26: every Broadcast member failed.
    AllBroadcastFailed,
    // 27: every Backup member failed.
    AllBackupFailed,
    // 28: the history cannot be replayed on the leg that takes over.
    ReplayRefused,
    // 29: the send after a promotion failed.
    PromotionSendFailed,
    // 30: every cell of the store is in use.
    NoFreeCell,
    // 31: the leg's event queue is full.
    QueueFull,
    // 32: a leg state that goes back, or an acknowledgement outside the flight.
    OutOfTurn,
}

// The number that document 01 gives a refusal.
impl From<Error> for u32 {
    ghost from_gives = { λ error number. number ≡ error_number error };

    fn from(error: Error) -> u32 {
        match error {
            Error::MissingGroupMask => 1,
            Error::OutOfRange => 2,
            Error::UnknownMember => 3,
            Error::PayloadTooLong => 4,
            Error::InsufficientBuffer => 5,
            Error::InvalidState => 6,
            Error::MemberLimit => 20,
            Error::DuplicateMember => 21,
            Error::AlignmentFailed => 22,
            Error::PayloadAboveLimit => 23,
            Error::NoActiveMember => 24,
            Error::SequenceMismatch => 25,
            Error::AllBroadcastFailed => 26,
            Error::AllBackupFailed => 27,
            Error::ReplayRefused => 28,
            Error::PromotionSendFailed => 29,
            Error::NoFreeCell => 30,
            Error::QueueFull => 31,
            Error::OutOfTurn => 32,
        }
    }
}

// The number of what a call answers that has nothing to give back: 0 if it is accepted, else the refusal's.
pub fn outcome_number(outcome: Result<(), Error>) -> u32
    ensures { result ≡ outcome_number outcome }
{
    match outcome {
        Ok(()) => 0,
        Err(error) => u32::from(error),
    }
}
