// A lend.
ghost use Rattle.std.specs.Prelude.{◌+◌, ◌≤◌, length, ◌≡◌, cond, eqb};
ghost use Rattle.link.specs.Given.{StateIn};
ghost use Rattle.link.specs.Steps.{read_in};
ghost use Rattle.trace.specs.Trace.{traced_lend};
ghost use Rattle.trace.specs.Written.{Told};

use crate::told::{Kind, Line, Said, call_of, put_answer, spoken};
use link::lend::lend;
use plan::Plan;
use state::State;
use window::Window;

// The flow that a lend's line is about, or one that no plan of so many flows has.
fn lent_to(a: Said, count: usize) -> usize
    ensures { result ≡ cond (eqb a.number 0) a.value count }
{
    if a.number != 0 { count } else { a.value }
}

pub(crate) fn hand_on(
    s: &mut State,
    plan: Plan,
    w: Window,
    mask: u16,
    out: &mut [u8],
    at: usize,
) -> usize
    requires { StateIn plan w s.old × (at + 2048 ≤ length out.old) }
    ensures { Told (traced_lend (read_in plan s.old) mask) plan w s.new
        out.old out.new at result }
{
    let answer = lend(s, plan, w, mask);
    let said = spoken(answer);
    let line = Line {
        said,
        flow: lent_to(said, plan.count),
        call: call_of(Kind::Lend, usize::from(mask), 0),
        position: w.current,
    };
    put_answer(s, plan, w, line, out, at)
}
