// Answers the numbers of a show: what standard input brings is fed to `showinput`, and what that hands back at the end is written to standard output.
#![tactic(auto)]

mod output;

ghost use Rattle.std.specs.Prelude.{◌≤◌, length, IfSome};
ghost use Rattle.showwords.specs.Links.{room};
ghost use Rattle.showinput.specs.Promises.{Regular};

use showinput::{KEPT, State};
use std::io::{Eprint, Read, Write};

// RULES 25.6: reads once, and feeds what was read. Nothing comes back where the input has ended; input that can't be read is taken as ended.
fn round_once(input: &mut impl Read, state: State, space: &mut [u8]) -> Option<State>
    requires { Regular state }
    ensures { IfSome result Regular }
{
    let got = input.read(space).unwrap_or(0);
    if got == 0 {
        return None;
    }
    Some(showinput::feed(state, &space[..got]))
}

// Reads to the end of the input, or until more can't change the answer, and writes that. A proved loop has to end, and nothing says that the input does:
// its rounds are counted up to a number that is never reached.
fn rounds(
    rt: &impl Eprint,
    input: &mut impl Read,
    output: &mut impl Write,
    space: &mut [u8],
    out: &mut [u8],
)
    requires { room ≤ length out.old }
{
    let mut state = showinput::start();
    for _ in 0..u64::MAX {
        let Some(next) = round_once(input, state, space) else {
            break;
        };
        state = next;
        if state.count == KEPT {
            break;
        }
    }
    let end = showinput::finish(state, out);
    output::write(rt, output, out, end);
}

fn main(rt: HostRuntime) {
    let mut space = [0u8; 4096];
    let mut out = [0u8; 51207];
    rounds(&rt, &mut rt.stdin(), &mut rt.stdout(), &mut space, &mut out);
}
