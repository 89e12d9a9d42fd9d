// A call on an image: the same for each export.
ghost use Rattle.imagemodel.specs.Exports.{HandsBack, called_on};
ghost use Rattle.nazgolv.specs.Calls.{call_for};

use crate::Call;
use crate::numbers::{leaves_all, refused};
use crate::steps::step;
use imagecheck::check;
use imagecodec::{read, write};
use link::resume::empty;

// Reads a taken image, makes the call on its link, and writes what that leaves. Where a refusal leaves all as it was nothing is stored, so that
// the image may stand where nothing can be written.
pub(crate) fn called(image: &mut [u8], call: Call) -> u64
    ensures { HandsBack (called_on image.old (call_for call)) result image.new }
{
    if let Err(refusal) = check(image) {
        return refused(refusal.number());
    }
    let mut state = empty();
    let kept = read(&mut state, image);
    let plan = kept.plan;
    let moved = step(&mut state, plan, kept.window, call);
    let result = moved.number;
    if leaves_all(result) {
        return result;
    }
    write(plan, &state, image);
    result
}
