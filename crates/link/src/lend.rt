// The lend of the idle slot.
ghost use Rattle.std.specs.Prelude.{◌≡◌, ◌∷◌, [], not, ◌||◌, ◌/◌, ◌^◌, ◌<◌, ◌≤◌, leb, eqb};
ghost use Rattle.model.specs.Refusals.{first_of, ◌when◌};
ghost use Rattle.model.specs.Lend as model;
ghost use Rattle.calls.specs.Reading.{answer_to_lend};
ghost use Rattle.plan.specs.Reading.{Valid};
ghost use Rattle.window.specs.Window.{Proper};
ghost use Rattle.tables.specs.Owners.{nobody};
ghost use Rattle.link.specs.Given.{StateIn};
ghost use Rattle.link.specs.Steps.{read_in, read_of, Went, Stepped};
ghost use Rattle.link.specs.Lend.{takes_in, first_taker};

use crate::{Answer, Link, Step};
use plan::Plan;
use state::{MARK, NOBODY, OWNERS, State, TURN};
use tables::holdings::{raise_from, room_from};
use window::Window;
use window::positions::next;

// Whether a slot with this owner and this mark is booked or marked.
pub(crate) fn booked_or_marked(owner: u8, marked: bool) -> bool
    ensures { result ≡ not (eqb owner nobody) || marked }
{
    owner != NOBODY || marked
}

// The refusal of a lend before its flows are looked at, and 0 where there is none: n flows, the owner of the current position, and its mark.
fn refusal(count: usize, owner: u8, marked: bool, mask: u16) -> u8
    requires { count ≤ 16 }
    ensures { result ≡ first_of (8 when leb (2 ^ count) mask ∷ 17 when (not (eqb owner nobody) || marked) ∷ []) }
{
    if u32::from(mask) >> count != 0 {
        return 8;
    }
    if booked_or_marked(owner, marked) {
        return 17;
    }
    0
}

// The first flow of a mask that can take the current slot, looking from a flow on and going round.
fn taker(s: &State, plan: Plan, w: Window, mask: u16, from: usize) -> Option<usize>
    requires { Valid plan × Proper w × from < plan.count }
    ensures { result ≡ first_taker (takes_in plan w s.now mask) plan.count from }
{
    let current = w.current;
    let mut i = from;
    for _ in 0..plan.count {
        let e = plan.entries[i];
        if (mask >> i) % 2 == 1 && room_from(s, i, e.cells, w, current) {
            return Some(i);
        }
        i = next(plan.count, i);
    }
    None
}

// The current slot of a state, when nobody booked it, goes to a flow of a mask that has a quantum ready: in turn, to the first that can take it.
pub fn lend(s: &mut State, plan: Plan, w: Window, mask: u16) -> Answer
    requires { StateIn plan w s.old }
    ensures { Went answer_to_lend (model.lend (read_in plan s.old) mask) plan s.new result }
{
    let current = w.current;
    let owner = s[OWNERS + current];
    let mark = s[MARK];
    let number = refusal(plan.count, owner, mark != 0, mask);
    if number != 0 {
        return Answer::Refused(number);
    }
    let from = s[TURN];
    let Some(i) = taker(s, plan, w, mask, usize::from(from)) else {
        return Answer::Refused(18);
    };
    raise_from(s, i, w, current);
    s[MARK] = 1;
    s[TURN] = next(plan.count, i) as u8;
    Answer::Lent(i as u8)
}

impl Link {
    // The current slot, when nobody booked it, goes to a flow of a mask that has a quantum ready.
    pub fn lend(mut self, mask: u16) -> Step
        ensures { Stepped answer_to_lend (model.lend (read_of self) mask) result }
    {
        let plan = self.plan;
        let w = self.window();
        let answer = lend(&mut self.state, plan, w, mask);
        Step { link: self, answer }
    }
}
