// The answers of a data poll and of a send in words. An answer that holds an enum cannot be handed on from a call that is lent its
// record by reference, so each case is told by a word. The words are laid out as C has them: those calls are exported.
// Kept (1): C has no Result and no Option, so a code, a flag and a packet stand side by side.
ghost use Rattle.srt_group_flat.specs.Words.{Says, SaysSent};

use srt_group_data_poll::calls::GroupDataPoll;
use srt_group_model::Packet;
use srt_protocol::error::Error;

// code is 0 if the poll was accepted; given is 1 if there is a packet; continuation is not 0 if the poll should be called again at
// once. The words of a packet are 0 where there is none.
#[repr(C)]
#[derive(Clone, Copy)]
pub struct DataWords {
    pub code: u64,
    pub given: u64,
    pub packet: Packet,
    pub continuation: u64,
}

// The words of a data poll's answer, a refused one's too.
impl From<Result<GroupDataPoll, Error>> for DataWords {
    ghost from_gives = { λ answer words. Says answer words };

    fn from(answer: Result<GroupDataPoll, Error>) -> DataWords {
        match answer {
            Err(error) => {
                let code = u32::from(error) as u64;
                DataWords {
                    code,
                    given: 0,
                    packet: Packet::default(),
                    continuation: 0,
                }
            }
            Ok(poll) => DataWords {
                code: 0,
                given: u64::from(poll.packet.is_some()),
                packet: poll.packet.unwrap_or_default(),
                continuation: poll.continuation,
            },
        }
    }
}

// ---- a send

// code is 0 if the payload was sent; legs on how many, 0 where it was refused; rows those of the list that are filled, by a refused
// send too.
#[repr(C)]
#[derive(Clone, Copy)]
pub struct SendWords {
    pub code: u64,
    pub legs: u64,
    pub rows: usize,
}

// The words of a send's answer, and of the rows that it filled.
// Kept (4): a public name. `From` would be of a pair, the answer and the rows, or of a `GroupSent`, whose record would be copied for it: no plainer.
pub fn words_of_send(answer: Result<usize, Error>, rows: usize) -> SendWords
    ensures { SaysSent answer rows result }
{
    match answer {
        Ok(legs) => SendWords {
            code: 0,
            legs: legs as u64,
            rows,
        },
        Err(error) => SendWords {
            code: u32::from(error) as u64,
            legs: 0,
            rows,
        },
    }
}
