// A call of any sort.
ghost use Rattle.std.specs.Prelude.{◌+◌, ◌≤◌, length};
ghost use Rattle.link.specs.Given.{StateIn};
ghost use Rattle.link.specs.Steps.{read_in};
ghost use Rattle.trace.specs.Trace.{traced};
ghost use Rattle.trace.specs.Written.{Told};

use crate::asks::{ask, ask_in_burst, ask_past_burst};
use crate::credits::give;
use crate::lends::hand_on;
use crate::resets::reset_step;
use crate::ticks::tick_step;
use crate::{Call, Reached};
use plan::Plan;
use state::State;
use window::Window;

// Makes a call on a state of a plan in its window, and writes its lines from a place on.
pub fn step(s: &mut State, plan: Plan, w: Window, call: Call, out: &mut [u8], at: usize) -> Reached
    requires { StateIn plan w s.old × (at + 2048 ≤ length out.old) }
    ensures { Told (traced (read_in plan s.old) call) plan result.window s.new
        out.old out.new at result.end }
{
    let end = match call {
        Call::Request(word) => ask(s, plan, w, word, out, at),
        Call::Word(word) => ask_in_burst(s, plan, w, word, out, at),
        Call::Past(word) => ask_past_burst(s, plan, w, word, out, at),
        Call::Credit(flow, position) => give(s, plan, w, flow, position, out, at),
        Call::Tick => return tick_step(s, plan, w, out, at),
        Call::Lend(mask) => hand_on(s, plan, w, mask, out, at),
        Call::Reset => reset_step(s, plan, w, out, at),
    };
    Reached { window: w, end }
}
