// Answers the show editor's questions: what standard input brings is fed to `questions`, and what that hands back is written to standard output.
#![tactic(auto)]

mod output;
mod waiting;

ghost use Rattle.std.specs.Prelude.{◌≤◌, length};
ghost use Rattle.replies.specs.Lines.{room};
ghost use Rattle.std.specs.Io.KnownBytes.{Appends};
ghost use Rattle.questions.specs.Feeding.{said_fed};
ghost use Rattle.questions.specs.Promises.{line_of, Regular};
ghost use Rattle.domeplan.specs.Rounds.{Takes, Goes, OnMore};

use questions::State;
use std::io::{Eprint, Read, Write};
use std::time::Clock;

// What comes next, after some input.
#[derive(Clone, Copy)]
enum Round {
    // More is to be read.
    More(State),
    // The input has ended.
    Over(State),
    // A read failed, or the output took no more.
    Stopped,
}

// Takes a piece of the input, and writes the answers to the lines that end in it, as many at once as `out` has room for.
fn take<W: Write>(
    rt: &(impl Eprint + Clock),
    output: &mut W,
    state: State,
    piece: &[u8],
    out: &mut [u8],
) -> Round
    requires { Regular state × (room ≤ length out.old) }
    ensures takes { Takes (line_of state) piece.now out.old result out.new }
    ensures written { OnMore result (Appends (W.contents output.old) (W.contents output.new) (said_fed (line_of state) piece.now)) }
{
    let mut now = state;
    let mut at = 0;
    // Stays: a step is as long as what one call takes, so that no range has the places.
    while at < piece.len() {
        let fed = questions::feed(now, &piece[at..], out);
        at += fed.used;
        if !output::write(rt, output, out, fed.written) {
            return Round::Stopped;
        }
        now = fed.state;
    }
    Round::More(now)
}

// RULES 20.1: reads once, and takes what was read.
fn round_once(
    rt: &(impl Eprint + Clock),
    input: &mut impl Read,
    output: &mut impl Write,
    state: State,
    space: &mut [u8],
    out: &mut [u8],
) -> Round
    requires { Regular state × (room ≤ length out.old) }
    ensures { Goes state out.old space.new result out.new }
{
    let Ok(got) = input.read(space) else {
        output::input_lost(rt);
        return Round::Stopped;
    };
    if got == 0 {
        return Round::Over(state);
    }
    take(rt, output, state, &space[..got], out)
}

// Reads to the end of the input, and then answers a last line that no newline ends. A proved loop has to end, and nothing says that the input does:
// the rounds are more than are ever made.
fn rounds(
    rt: &(impl Eprint + Clock),
    input: &mut impl Read,
    output: &mut impl Write,
    space: &mut [u8],
    out: &mut [u8],
)
    requires { room ≤ length out.old }
{
    let mut now = questions::start();
    'rounds: for _ in 0..u64::MAX {
        match round_once(rt, input, output, now, space, out) {
            Round::More(next) => now = next,
            Round::Over(last) => {
                let end = questions::finish(last, out);
                output::write(rt, output, out, end);
                break 'rounds;
            }
            Round::Stopped => break 'rounds,
        }
    }
}

fn main(rt: HostRuntime) {
    let mut space = [0u8; 65536];
    let mut out = [0u8; 65536];
    rounds(&rt, &mut rt.stdin(), &mut rt.stdout(), &mut space, &mut out);
}
