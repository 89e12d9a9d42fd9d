// The best of the sets looked at.
ghost use Rattle.std.specs.Prelude.{◌≡◌, ◌≤◌};
ghost use Rattle.extras.specs.Best.{Best};
ghost use Rattle.extras.specs.Reading.{extras_for, Inside};
ghost use Rattle.extras.specs.Search.{better_of};

use crate::Extras;
use crate::sets::sum_over;

// A set and its worth.
#[derive(Clone, Copy)]
pub(crate) struct SetWorth {
    pub mask: usize,
    pub worth: usize,
}

// The best so far, or a set that is looked at after it, if that one fits and is worth more.
fn better(best: SetWorth, set: SetWorth, share: usize, slots: usize) -> SetWorth
    ensures { result ≡ better_of best set share slots }
{
    if slots < share || set.worth <= best.worth {
        best
    } else {
        set
    }
}

// The best of the first sets.
pub(crate) fn best_of(x: Extras, looked: usize) -> SetWorth
    requires { Inside x × 1 ≤ looked }
    ensures { Best (extras_for x) looked result.mask result.worth }
{
    let mut best = SetWorth { mask: 0, worth: 0 };
    for mask in 1..looked {
        let share = sum_over(&x.shares, x.count, mask);
        let worth = sum_over(&x.worths, x.count, mask);
        best = better(best, SetWorth { mask, worth }, share, x.slots);
    }
    best
}
