// The local reset.
ghost use Rattle.std.specs.Prelude.{◌≡◌, ◌<◌};
ghost use Rattle.model.specs.Reset as model;
ghost use Rattle.calls.specs.Reading.{answer_to_reset};
ghost use Rattle.window.specs.Window.{window_of};
ghost use Rattle.tables.specs.Asked.{FlowsOf};
ghost use Rattle.plan.specs.Reading.{Valid};
ghost use Rattle.state.specs.State.{Whole, owners_of};
ghost use Rattle.link.specs.Changes.{ResetTables};
ghost use Rattle.link.specs.Given.{StateIn};
ghost use Rattle.link.specs.Steps.{read_in, read_of, Went, Stepped};
ghost use Rattle.link.specs.Reset.{none_held_in, quiet_in};

use crate::fresh::start_flows;
use crate::{Answer, Link, Step};
use plan::Plan;
use state::{MARK, NOBODY, OWNERS, State, TURN, put_masks};
use tables::holdings::room_from;
use tables::owners::{disown, unbooked_later};
use unbooked::frames::every_slot;
use window::Window;

// Whether each of n flows holds nothing at the current position and at each later one: with one cell it would have room there.
fn none_held(s: &State, count: usize, w: Window) -> bool
    requires { FlowsOf w count }
    ensures { result ≡ none_held_in (window_of w) count s.now }
{
    let current = w.current;
    for i in 0..count {
        if !room_from(s, i, 1, w, current) {
            return false;
        }
    }
    true
}

// Whether a link is quiet: no later position is booked, and nothing is held from the current one on.
fn quiet(s: &State, count: usize, w: Window) -> bool
    requires { FlowsOf w count }
    ensures { result ≡ quiet_in (window_of w) count (owners_of s.now) s.now }
{
    unbooked_later(s, w) && none_held(s, count, w)
}

// Nobody owns a position of a state, and its flows start again in a frame.
fn reset_tables(s: &mut State, plan: Plan, frame: usize)
    requires { Valid plan × Whole s.old × (frame < 256) }
    ensures { ResetTables plan frame s.old s.new }
{
    disown(s);
    put_masks(s, every_slot(plan.slots, plan.frames));
    start_flows(s, plan, frame);
}

// Every frame of a state is recycled, when the link is quiet: the flows start again in the head frame. The clock goes on, and what is held stays, as
// do the expected numbers.
pub fn reset(s: &mut State, plan: Plan, w: Window) -> Answer
    requires { StateIn plan w s.old }
    ensures { Went answer_to_reset (model.reset (read_in plan s.old)) plan s.new result }
{
    if !quiet(s, plan.count, w) {
        return Answer::Refused(23);
    }
    let current = w.current;
    if s[OWNERS + current] != NOBODY {
        s[MARK] = 1;
    }
    reset_tables(s, plan, w.head);
    s[TURN] = 0;
    Answer::Reset
}

impl Link {
    // Every frame is recycled, when the link is quiet.
    pub fn reset(mut self) -> Step
        ensures { Stepped answer_to_reset (model.reset (read_of self)) result }
    {
        let plan = self.plan;
        let w = self.window();
        let answer = reset(&mut self.state, plan, w);
        Step { link: self, answer }
    }
}
