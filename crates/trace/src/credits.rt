// A credit.
ghost use Rattle.std.specs.Prelude.{◌+◌, ◌≤◌, length};
ghost use Rattle.link.specs.Given.{StateIn};
ghost use Rattle.link.specs.Steps.{read_in};
ghost use Rattle.trace.specs.Trace.{traced_credit};
ghost use Rattle.trace.specs.Written.{Told};

use crate::told::{Kind, Line, answer_of, call_of, put_answer};
use link::credit::credit;
use plan::Plan;
use state::State;
use window::Window;

pub(crate) fn give(
    s: &mut State,
    plan: Plan,
    w: Window,
    flow: usize,
    position: usize,
    out: &mut [u8],
    at: usize,
) -> usize
    requires { StateIn plan w s.old × (at + 2048 ≤ length out.old) }
    ensures { Told (traced_credit (read_in plan s.old) flow position) plan w s.new
        out.old out.new at result }
{
    let number = credit(s, plan, w, flow, position);
    let call = call_of(Kind::Credit, flow, position);
    if number != 0 {
        let refused = Line {
            said: answer_of(b'R', usize::from(number), 0),
            call,
            flow,
            position: w.current,
        };
        return put_answer(s, plan, w, refused, out, at);
    }
    let taken = Line {
        said: answer_of(b'C', 0, 0),
        call,
        flow,
        position,
    };
    put_answer(s, plan, w, taken, out, at)
}
