// The credit.
ghost use Rattle.std.specs.Prelude.{◌≡◌};
ghost use Rattle.model.specs.Credit as model;
ghost use Rattle.calls.specs.Reading.{answer_to_credit};
ghost use Rattle.link.specs.Steps.{read_in, read_of, Went, Stepped, number_of, credit_answer};
ghost use Rattle.link.specs.Given.{StateIn};

use crate::{Answer, Link, Step};
use plan::Plan;
use state::State;
use tables::holdings::lower_from;
use window::Window;

// A flow's cell falls free from a position on, on a state of a plan: what the flow holds falls by one from the position on, and the answer is 0;
// or it is the refusal's number, and nothing changes.
pub fn credit(s: &mut State, plan: Plan, w: Window, flow: usize, position: usize) -> u8
    requires { StateIn plan w s.old }
    ensures { Went number_of (model.credit (read_in plan s.old) flow position) plan s.new result }
{
    if plan.count <= flow {
        return 8;
    }
    if w.slots * w.frames <= position {
        return 13;
    }
    if w.passed(position) {
        return 14;
    }
    if !lower_from(s, flow, w, position) {
        return 15;
    }
    0
}

// The answer to a credit, from its number.
fn told(number: u8) -> Answer
    ensures { result ≡ credit_answer number }
{
    if number != 0 {
        return Answer::Refused(number);
    }
    Answer::Accepted
}

impl Link {
    // A flow's cell falls free from a position on.
    pub fn credit(mut self, flow: usize, position: usize) -> Step
        ensures { Stepped answer_to_credit (model.credit (read_of self) flow position) result }
    {
        let plan = self.plan;
        let w = self.window();
        let number = credit(&mut self.state, plan, w, flow, position);
        Step {
            link: self,
            answer: told(number),
        }
    }
}
