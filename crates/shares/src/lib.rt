// How many plans fit: of the share lists of a frame, those that pass the share test and those that fail it. RULES 17.1 and 17.2.
#![tactic(auto)]

mod lists;

ghost use Rattle.std.specs.Prelude.{◌≡◌};
ghost use Rattle.shares.specs.Counts as counts;
ghost use Rattle.shares.specs.Counts.{answer_for};

// The most slots of a frame.
const MOST_SLOTS: usize = 16;

// The most flows.
const MOST_FLOWS: usize = 8;

// The refusal of a frame or of flows that are out of range.
pub const OUT_OF_RANGE: u8 = 26;

// Of the share lists of so many flows in a frame, how many the share test accepts, and how many it refuses.
#[derive(Clone, Copy, Debug, PartialEq, Eq)]
pub struct Counted {
    pub accepts: u64,
    pub refuses: u64,
}

// Counts the lists of so many shares in a frame of so many slots; none where the frame or the flows are out of range.
#[tactic(auto, unfolding(crate::specs::Counts::counted))]
pub fn count(slots: usize, flows: usize) -> Option<Counted>
    ensures { answer_for result ≡ counts.counted slots flows }
{
    if !(1..=MOST_SLOTS).contains(&slots) || !(1..=MOST_FLOWS).contains(&flows) {
        return None;
    }
    let accepts = lists::fitting(slots, flows);
    let refuses = lists::all(slots as u64, flows as u32) - accepts;
    Some(Counted { accepts, refuses })
}
