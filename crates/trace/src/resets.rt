// A reset.
ghost use Rattle.std.specs.Prelude.{◌+◌, ◌≤◌, length};
ghost use Rattle.link.specs.Given.{StateIn};
ghost use Rattle.link.specs.Steps.{read_in};
ghost use Rattle.trace.specs.Trace.{traced_reset};
ghost use Rattle.trace.specs.Written.{Told};

use crate::told::{Kind, Line, call_of, put_answer, put_flows, spoken};
use link::reset::reset;
use plan::Plan;
use state::State;
use window::Window;

pub(crate) fn reset_step(s: &mut State, plan: Plan, w: Window, out: &mut [u8], at: usize) -> usize
    requires { StateIn plan w s.old × (at + 2048 ≤ length out.old) }
    ensures { Told (traced_reset (read_in plan s.old)) plan w s.new
        out.old out.new at result }
{
    let answer = reset(s, plan, w);
    let said = spoken(answer);
    let line = Line {
        said,
        call: call_of(Kind::Reset, 0, 0),
        flow: plan.count,
        position: w.current,
    };
    let next = put_answer(s, plan, w, line, out, at);
    if said.number != 0 {
        return next;
    }
    put_flows(s, plan, w, out, next)
}
