// The tick.
ghost use Rattle.std.specs.Prelude.{◌≡◌, ◌+◌, ◌<◌, get_or};
ghost use Rattle.model.specs.Tick as model;
ghost use Rattle.plan.specs.Reading.{Valid};
ghost use Rattle.calls.specs.Reading.{answer_to_tick};
ghost use Rattle.state.specs.State.{Whole};
ghost use Rattle.tables.specs.Owners.{owner_of};
ghost use Rattle.link.specs.Given.{StateIn};
ghost use Rattle.link.specs.Parts.{flows_of};
ghost use Rattle.link.specs.Changes.{FlowsNow, FrameLeft, ChangeIn};
ghost use Rattle.link.specs.Steps.{read_in, read_of, Went, Stepped};
ghost use Rattle.link.specs.Updates.{left_heads};

use crate::flows::{flow_at, put_flow};
use crate::{Answer, Link, Step};
use plan::Plan;
use state::{CURRENT, MARK, NOBODY, OWNERS, State};
use tables::holdings::carry_head;
use tables::owners::empty_head;
use tables::slot_masks::recycle_head;
use window::Window;

// The answer at a position with this owner.
pub fn tick_answer(owner: u8) -> Answer
    ensures { result ≡ answer_to_tick (owner_of owner) }
{
    if owner == NOBODY {
        return Answer::Idle;
    }
    Answer::Booked(owner)
}

// The flows of a plan, those in the head frame moved to the next one with their share.
fn leave_head(s: &mut State, plan: Plan, head: usize, on: usize)
    requires { Valid plan × Whole s.old × (on < 256) }
    ensures { FlowsNow s.old s.new (left_heads plan head on (flows_of s.old)) }
{
    for i in 0..plan.count {
        let e = plan.entries[i];
        let f = flow_at(s, i);
        if f.injection == head {
            put_flow(s, i, f.moved_to(on, usize::from(e.share)));
        }
    }
}

// The head frame is left, and `on` is the next one.
fn leave(s: &mut State, plan: Plan, w: Window, on: usize)
    requires { ChangeIn plan w on s.old }
    ensures { FrameLeft plan w on s.old s.new }
{
    empty_head(s, w);
    recycle_head(s, w);
    carry_head(s, plan.count, w);
    leave_head(s, plan, w.head, on);
}

// The current position goes on by one: the window there.
pub fn tick(s: &mut State, plan: Plan, w: Window) -> Window
    requires { StateIn plan w s.old }
    ensures is { Went answer_to_tick (model.tick (read_in plan s.old)) plan s.new
        (answer_to_tick (owner_of (get_or s.new (4096 + result.current) 0))) }
    ensures there { StateIn plan result s.new }
{
    let on = w.ticked();
    if on.head != w.head {
        leave(s, plan, w, on.head);
    }
    s[MARK] = 0;
    s[CURRENT] = on.current as u8;
    on
}

impl Link {
    // The current position goes on by one.
    pub fn tick(mut self) -> Step
        ensures { Stepped answer_to_tick (model.tick (read_of self)) result }
    {
        let plan = self.plan;
        let w = self.window();
        let on = tick(&mut self.state, plan, w);
        let next = on.current;
        let owner = self.state[OWNERS + next];
        Step {
            link: self,
            answer: tick_answer(owner),
        }
    }
}
