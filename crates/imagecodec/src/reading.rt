// A taken image read as a link.
ghost use Rattle.std.specs.Prelude.{◌≡◌};
ghost use Rattle.model.specs.WrittenPlan.{AllBytes};
ghost use Rattle.link.specs.Given.{StateIn};
ghost use Rattle.link.specs.Resumed.{empty};
ghost use Rattle.link.specs.Steps.{read_in};
ghost use Rattle.imagemodel.specs.Image.{link_in};
ghost use Rattle.imagemodel.specs.ValidImage.{ValidImage};

use crate::flows::{read_flows, read_held};
use fields::{byte, field, read_table};
use imagecheck::layout::layout_of;
use imagecheck::plans::plan_in;
use link::resume::resume;
use plan::Plan;
use state::State;
use window::Window;
use window::positions::window;

// What of a link doesn't stand in its state: the plan, and the window there.
#[derive(Clone, Copy)]
pub struct Kept {
    pub plan: Plan,
    pub window: Window,
}

// The link of a taken image, stored to an empty state. That each of its bytes is below 256 is stated so that callers find it.
pub fn read(s: &mut State, image: &[u8]) -> Kept
    requires { ValidImage image.now × (s.old ≡ empty) }
    ensures link { read_in result.plan s.new ≡ link_in image.now }
    ensures there { StateIn result.plan result.window s.new }
    ensures bytes { AllBytes image.now }
{
    let plan = plan_in(image).unwrap();
    let l = layout_of(plan);
    read_flows(s, image, l);
    read_held(s, image, l);
    let owner = read_table(image, l.positions, l.size, 16);
    let w = window(plan.slots, plan.frames, field(image, 12));
    let mark = field(image, 14);
    let turn = byte(image, 16);
    resume(s, w, owner, mark as u8, turn as u8);
    Kept { plan, window: w }
}
