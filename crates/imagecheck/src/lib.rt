// Which images are taken: the tests of a buffer, 21 and 22.
#![tactic(auto)]

ghost use Rattle.std.specs.Prelude.{◌≡◌};
ghost use Rattle.imagemodel.specs.ValidImage.{refusal_of};
ghost use Rattle.imagecheck.specs.Asked.{LongEnough};
ghost use Rattle.imagecheck.specs.Refusals.{refusal_number};

mod bookings; // the owners of positions
mod flows; // the conditions on a flow
pub mod layout; // where the parts of an image stand
mod links; // the conditions on a link
pub mod plans; // the plan of an image
mod refusal; // why a buffer is refused
mod straight; // straight passes over fields

use fields::field;
use layout::{HEADER, layout_of};
use links::{consistent, listed};
use plans::plan_in;
pub use refusal::Refusal;

// The tests of an image in a buffer that is long enough.
fn check_image(image: &[u8]) -> Result<(), Refusal>
    requires { LongEnough image.now }
    ensures { refusal_number result ≡ refusal_of image.now }
{
    let Ok(plan) = plan_in(image) else {
        return Err(Refusal::Fault);
    };
    let l = layout_of(plan);
    if !listed(image, l.stated()) {
        return Err(Refusal::Fault);
    }
    if 1 < field(image, 14) {
        return Err(Refusal::Fault);
    }
    if !consistent(image, l, plan) {
        return Err(Refusal::Fault);
    }
    Ok(())
}

// The tests of a buffer: whether it is long enough, and then those of its image, which is taken where all are passed.
pub fn check(image: &[u8]) -> Result<(), Refusal>
    ensures { refusal_number result ≡ refusal_of image.now }
{
    if image.len() < HEADER {
        return Err(Refusal::Short);
    }
    if image.len() < field(image, 0) {
        return Err(Refusal::Short);
    }
    check_image(image)
}
