// The fresh link.
ghost use Rattle.std.specs.Prelude.{◌≡◌, ◌<◌};
ghost use Rattle.plan.specs.Reading.{Valid, plan_for};
ghost use Rattle.model.specs.Fresh as model;
ghost use Rattle.state.specs.State.{Whole};
ghost use Rattle.link.specs.Parts.{flows_of};
ghost use Rattle.link.specs.Changes.{FlowsNow};
ghost use Rattle.link.specs.Sound.{SoundState};
ghost use Rattle.link.specs.Links.{SoundLink};
ghost use Rattle.link.specs.Started.{no_flows, started_flows};
ghost use Rattle.link.specs.Steps.{read_in, read_of};

use crate::flows::{flow_at, put_flow};
use crate::{Flow, Link};
use plan::Plan;
use state::{CURRENT, LENGTH, MARK, State, TURN, put_masks};
use tables::holdings::hold_nothing;
use tables::owners::disown;
use unbooked::frames::every_slot;

// Sixteen flows that a plan does not have: in frame 0, with nothing left and number 0.
fn no_flows(s: &mut State)
    requires { Whole s.old }
    ensures { FlowsNow s.old s.new no_flows }
{
    let spare = Flow {
        injection: 0,
        remainder: 0,
        number: 0,
    };
    for i in 0..16 {
        put_flow(s, i, spare);
    }
}

// The flows of a plan all in one frame and each with its share; their numbers stay.
pub(crate) fn start_flows(s: &mut State, plan: Plan, frame: usize)
    requires { Valid plan × Whole s.old × (frame < 256) }
    ensures { FlowsNow s.old s.new (started_flows frame plan.entries plan.count (flows_of s.old)) }
{
    for i in 0..plan.count {
        let e = plan.entries[i];
        let f = flow_at(s, i);
        put_flow(s, i, f.moved_to(frame, usize::from(e.share)));
    }
}

// The state of a fresh link; nothing of what it was is left but the bounds, and where nothing is held every bound holds.
fn begin(s: &mut State, plan: Plan)
    requires { Valid plan × Whole s.old }
    ensures link { read_in plan s.new ≡ model.fresh (plan_for plan) }
    ensures sound { SoundState plan s.new }
{
    hold_nothing(s);
    disown(s);
    put_masks(s, every_slot(plan.slots, plan.frames));
    no_flows(s);
    start_flows(s, plan, 0);
    s[CURRENT] = 0;
    s[MARK] = 0;
    s[TURN] = 0;
}

impl Link {
    pub fn fresh(plan: Plan) -> Link
        requires { Valid plan }
        ensures link { read_of result ≡ model.fresh (plan_for plan) }
        ensures sound { SoundLink result }
    {
        let mut state = [0u8; LENGTH];
        begin(&mut state, plan);
        Link { plan, state }
    }
}
