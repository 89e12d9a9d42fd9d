// The plan of an image.
ghost use Rattle.std.specs.Prelude.{◌≡◌, ◌≤◌, ◌<◌, IfOk, length, get_or};
ghost use Rattle.plan.specs.Reading.{ReadAs, Valid};
ghost use Rattle.imagemodel.specs.Image.{header_length, plan_part};

use crate::layout::HEADER;
use plan::{Plan, Refusal};

// The byte at a place, and 0 where there is none.
fn byte_or_zero(image: &[u8], at: usize) -> usize
    ensures is { result ≡ get_or image.now at 0 }
    ensures most { result < 256 }
{
    match image.get(at) {
        Some(b) => usize::from(*b),
        None => 0,
    }
}

// Reads the plan of an image: as many bytes as it states, or those that are there.
pub fn plan_in(image: &[u8]) -> Result<Plan, Refusal>
    requires { header_length ≤ length image.now }
    ensures is { ReadAs (plan_part image.now) result }
    ensures valid { IfOk result Valid }
{
    let long = byte_or_zero(image, HEADER) + 256 * byte_or_zero(image, HEADER + 1);
    let end = (HEADER + long).min(image.len());
    plan::read(&image[HEADER..end])
}
