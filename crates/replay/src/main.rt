// Document 01's replay: it reads a listing of eight columns of 11 from standard input, and writes six columns of 11 for each line. All that it answers
// is proved (`run`): what it writes is the replay of the whole listing, over any reader and writer. Its memory is fixed, whatever the listing's length.

#![tactic(auto)]

ghost use Rattle.std.specs.Prelude.{OnOk};
ghost use Rattle.replay_io.specs.Turns.{ListingReplayed};

use listing::OpenLine;
use listing_lines::LINE;
use replay_blocks::blocks::Room;
use replay_io::stopped::Stopped;
use replay_io::turns::{Replaying, finish, turn};
use srt_group_replay::Replay;
use std::env::{Env, FillError};
use std::io::{ErrorKind, Read, Write};
use std::process::ExitCode;

// The bytes of a block, and so the most lines that one has; and the text of as many answers, 121 bytes each.
const BLOCK: usize = 8192;

const TEXT: usize = 121 * BLOCK;

// A proved loop has to end, and nothing says that the listing does. So the loop counts its turns, up to a number that no run uses up: at a
// block of one byte a nanosecond it would take 500 years.
fn run<R: Read, W: Write>(input: &mut R, to: &mut W) -> Result<(), Stopped>
    ensures { OnOk result (ListingReplayed (R.remaining input.old) (R.remaining input.new) (W.contents to.old) (W.contents to.new)) }
{
    let mut bytes = [0u8; LINE];
    let mut state = Replaying {
        replay: Replay::new(),
        line: OpenLine::new(&mut bytes),
    };
    let mut block = [0u8; BLOCK];
    let mut room = Room::<BLOCK, TEXT>::new();
    for _ in 0..u64::MAX {
        let count = turn(
            input,
            to,
            &mut state,
            &mut block,
            &mut room.rows,
            &mut room.answers,
            &mut room.text,
        )?;
        if count == 0 {
            let OpenLine { bytes, size } = state.line;
            return finish(
                to,
                &mut state.replay,
                bytes,
                size,
                &mut room.answers,
                &mut room.text,
            );
        }
    }
    Err(Stopped::Reading(ErrorKind::TimedOut.into()))
}

// Whether the program was called with an argument.
fn has_argument(rt: &impl Env) -> bool {
    let mut start = [0u8; 1];
    !matches!(rt.arg(1, &mut start), Err(FillError::NotPresent))
}

// How it is used, on standard error.
fn usage(rt: &impl Eprint) {
    let _ = rt.eprint(
        "usage: replay < LISTING\n\nReads a listing from standard input: lines of eight decimal numbers, each right-justified in 11 columns.\nWrites six columns of 11 for each line: verb, code, and what an accepted poll or send gives.\ndocs/REPLAY.md has the verbs and codes.\n",
    );
}

fn main(rt: HostRuntime) -> ExitCode {
    if has_argument(&rt) {
        usage(&rt);
        return ExitCode::SUCCESS;
    }
    match run(&mut rt.stdin(), &mut rt.stdout()) {
        Ok(()) => ExitCode::SUCCESS,
        Err(stopped) => {
            let _ = eprintln!(rt; "replay: {stopped}");
            ExitCode::FAILURE
        }
    }
}
