// The limits of what is given: refusal 27.
ghost use Rattle.std.specs.Prelude.{◌≡◌, not, ◌≤◌};
ghost use Rattle.model.specs.Tables.{any};
ghost use Rattle.extras.specs.Extras as model;
ghost use Rattle.extras.specs.Reading.{extras_for, layer_with};

use crate::{Extras, MOST};

// The most slots of a frame.
const MOST_SLOTS: usize = 64;

// The most that a layer is worth.
const MOST_WORTH: usize = 1000;

// Whether a layer keeps its limits.
#[tactic(auto, unfolding(crate::specs::Extras::layer_inside))]
fn layer_inside(share: usize, worth: usize) -> bool
    ensures { result ≡ model.layer_inside (layer_with share worth) }
{
    (1..=MOST_SLOTS).contains(&share) && worth <= MOST_WORTH
}

// Whether some layer breaks its limits.
fn some_outside(x: Extras) -> bool
    requires { x.count ≤ 12 }
    ensures { result ≡ any x.count (λ i. not (model.layer_inside (model.layer (extras_for x) i))) }
{
    for i in 0..x.count {
        if !layer_inside(x.shares[i], x.worths[i]) {
            return true;
        }
    }
    false
}

// Whether a number is outside its limits.
pub(crate) fn outside(x: Extras) -> bool
    ensures { result ≡ model.outside (extras_for x) }
{
    if x.budget == 0 || MOST < x.count {
        return true;
    }
    MOST_SLOTS < x.slots || some_outside(x)
}
