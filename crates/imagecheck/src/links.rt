// The header of an image, and the conditions on its link.
ghost use Rattle.std.specs.Prelude.{◌≡◌, ◌≤◌, length, get_or, eqb};
ghost use Rattle.model.specs.Tables as model;
ghost use Rattle.plan.specs.Reading.{plan_for};
ghost use Rattle.imagemodel.specs.Image.{header_length, header_field, link_from};
ghost use Rattle.imagemodel.specs.Consistent as images;
ghost use Rattle.imagecheck.specs.Asked.{PlanOn};

use crate::bookings::known;
use crate::flows::flows_kept;
use crate::layout::Layout;
use fields::field;
use plan::Plan;
use window::positions::window;

// Whether the header begins with these fields.
pub(crate) fn listed(image: &[u8], stated: [usize; 6]) -> bool
    requires { header_length ≤ length image.now }
    ensures { result ≡ model.every 6 (λ k. eqb (header_field image.now k) (get_or stated k 0)) }
{
    for (k, x) in stated.iter().enumerate() {
        if field(image, 2 * k) != *x {
            return false;
        }
    }
    true
}

// Whether the link in an image of a plan is consistent.
pub(crate) fn consistent(image: &[u8], l: Layout, plan: Plan) -> bool
    requires { PlanOn image.now l plan }
    ensures { result ≡ images.consistent (link_from image.now (plan_for plan)) }
{
    let current = field(image, 12);
    if l.size <= current {
        return false;
    }
    let turn = field(image, 16);
    if l.count <= turn {
        return false;
    }
    if !known(image, l.positions, l.size, l.count) {
        return false;
    }
    let w = window(plan.slots, plan.frames, current);
    flows_kept(image, l, plan, w)
}
