// A tick.
ghost use Rattle.std.specs.Prelude.{◌+◌, ◌≤◌, length};
ghost use Rattle.link.specs.Given.{StateIn};
ghost use Rattle.link.specs.Steps.{read_in};
ghost use Rattle.trace.specs.Trace.{tick_line, traced_tick};
ghost use Rattle.trace.specs.Written.{Lines, Told};

use crate::Reached;
use crate::told::{Kind, Line, answer_of, byte_at, call_of, put_answer, put_flows};
use link::tick::tick;
use plan::Plan;
use state::{OWNERS, State};
use window::Window;

// Writes the line of a tick.
fn put_tick(s: &State, plan: Plan, w: Window, change: usize, out: &mut [u8], at: usize) -> usize
    requires { StateIn plan w s.now × (at + 384 ≤ length out.old) }
    ensures { Lines (tick_line (read_in plan s.now) change) out.old out.new at result 384 }
{
    let owner = byte_at(s, OWNERS + w.current);
    let line = Line {
        said: answer_of(b'T', 0, owner),
        call: call_of(Kind::Tick, change, 0),
        flow: plan.count,
        position: w.current,
    };
    put_answer(s, plan, w, line, out, at)
}

pub(crate) fn tick_step(s: &mut State, plan: Plan, w: Window, out: &mut [u8], at: usize) -> Reached
    requires { StateIn plan w s.old × (at + 2048 ≤ length out.old) }
    ensures { Told (traced_tick (read_in plan s.old)) plan result.window s.new
        out.old out.new at result.end }
{
    let ahead = w.ticked();
    let on = tick(s, plan, w);
    if ahead.head == w.head {
        return Reached {
            window: on,
            end: put_tick(s, plan, on, 0, out, at),
        };
    }
    let next = put_tick(s, plan, on, 1, out, at);
    Reached {
        window: on,
        end: put_flows(s, plan, on, out, next),
    }
}
