// The ceiling.
ghost use Rattle.std.specs.Prelude.{◌≡◌, cond, ◌≤◌, leb};
ghost use Rattle.extras.specs.Extras as model;
ghost use Rattle.extras.specs.Reading.{extras_for, Inside};

use crate::Extras;

// What a layer adds to the ceiling: nothing where it doesn't fit singly.
fn added(share: usize, slots: usize, worth: usize) -> usize
    ensures is { result ≡ cond (leb share slots) worth 0 }
    ensures most { result ≤ worth }
{
    if share <= slots { worth } else { 0 }
}

// What the layers that fit singly are worth together.
fn singles(x: Extras) -> usize
    requires { Inside x }
    ensures { result ≡ model.singles_worth (extras_for x) }
{
    let mut worth = 0;
    for i in 0..x.count {
        worth += added(x.shares[i], x.slots, x.worths[i]);
    }
    worth
}

// The worth itself where all sets were looked at.
pub(crate) fn ceiling(x: Extras, sets: usize, worth: usize) -> usize
    requires { Inside x }
    ensures { result ≡ cond (leb sets x.budget) worth (model.singles_worth (extras_for x)) }
{
    if sets <= x.budget { worth } else { singles(x) }
}
