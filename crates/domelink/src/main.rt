// Plays a file of calls: what standard input brings is fed to the program, and what that hands back is written to standard output. RULES 13.1.
#![tactic(auto)]

mod output;

ghost use Rattle.std.specs.Prelude.{◌*◌, ◌/◌, ◌≤◌, ◌≡◌, length};
ghost use Rattle.program.specs.State.{Regular};
ghost use Rattle.domelink.specs.Rounds.{LeftRegular};

use program::{Fed, State};
use std::io::{Eprint, Read, Write};

// Where a round of reading, feeding and writing leaves the program.
#[derive(Clone, Copy)]
enum Round {
    // More is to be read.
    More(State),
    // The input has ended.
    Over(State),
    // The plan was refused, a read failed, or the output took no more.
    Stopped,
}

// Feeds a piece for which `out` has room, so that all of it is taken.
fn feed_whole(state: State, piece: &[u8], out: &mut [u8]) -> Fed
    requires { Regular state × (length piece.now ≤ 5 * (length out.old / 7)) }
    ensures regular { Regular result.state }
    ensures whole { result.used ≡ length piece.now }
    ensures room { result.written ≤ length out.old }
{
    program::feed(state, piece, out)
}

// Reads once, feeds what was read, and writes what is handed back.
fn round_once(
    rt: &impl Eprint,
    input: &mut impl Read,
    output: &mut impl Write,
    state: State,
    space: &mut [u8],
    out: &mut [u8],
) -> Round
    requires { Regular state × (length space.old ≤ 5 * (length out.old / 7)) }
    ensures { LeftRegular result }
{
    let Ok(got) = input.read(space) else {
        output::input_lost(rt);
        return Round::Stopped;
    };
    if got == 0 {
        return Round::Over(state);
    }
    let fed = feed_whole(state, &space[..got], out);
    if !output::write(rt, output, out, fed.written) {
        return Round::Stopped;
    }
    match fed.state {
        State::Ended => Round::Stopped,
        next => Round::More(next),
    }
}

// Reads to the end of the input, and then writes what is to be written there. A proved loop has to end, and nothing says that the input does:
// its rounds are counted up to a number that is never reached.
fn rounds(
    rt: &impl Eprint,
    input: &mut impl Read,
    output: &mut impl Write,
    space: &mut [u8],
    out: &mut [u8],
)
    requires { length space.old ≤ 5 * (length out.old / 7) }
{
    let mut state = program::start();
    for _ in 0..u64::MAX {
        match round_once(rt, input, output, state, space, out) {
            Round::More(next) => state = next,
            Round::Over(last) => {
                let end = program::finish(last, out);
                output::write(rt, output, out, end);
                break;
            }
            Round::Stopped => break,
        }
    }
}

fn main(rt: HostRuntime) {
    let mut space = [0u8; 65535];
    let mut out = [0u8; 91749];
    rounds(&rt, &mut rt.stdin(), &mut rt.stdout(), &mut space, &mut out);
}
