// Which optional layers to switch on: the best set that fits in the slots left, of the sets that a budget allows to look at.
#![tactic(auto)]

mod ceiling;
mod ranges;
mod search;
mod sets;

ghost use Rattle.std.specs.Prelude.{◌≡◌};
ghost use Rattle.extras.specs.Extras as model;
ghost use Rattle.extras.specs.Reading.{extras_for, answer_for};

// The most layers.
pub const MOST: usize = 12;

// The refusal of what is outside its limits.
pub const OUT_OF_RANGE: u8 = 27;

// The slots left in a frame, how many sets may be looked at, n, and of each layer its share, the slots of a frame that it takes, and what it is
// worth. What stands at place n and from there on has no effect.
#[derive(Clone, Copy)]
pub struct Extras {
    pub slots: usize,
    pub budget: usize,
    pub count: usize,
    pub shares: [usize; MOST],
    pub worths: [usize; MOST],
}

// A set by its mask, bit i for layer i; what it is worth; and what no set that fits is worth more than.
#[derive(Clone, Copy, Debug, PartialEq, Eq)]
pub struct Chosen {
    pub mask: usize,
    pub worth: usize,
    pub ceiling: usize,
}

// The best set looked at; none where what is given is outside its limits.
pub fn choose(x: Extras) -> Option<Chosen>
    ensures { answer_for result ≡ model.choose (extras_for x) }
{
    if ranges::outside(x) {
        return None;
    }
    let sets = sets::set_count(x.count);
    let best = search::best_of(x, x.budget.min(sets));
    let ceiling = ceiling::ceiling(x, sets, best.worth);
    Some(Chosen {
        mask: best.mask,
        worth: best.worth,
        ceiling,
    })
}
