// When a tile arrives: how many slots it takes over several links at most, and how many cells keep it so.
#![tactic(auto)]

ghost use Rattle.std.specs.Prelude.{◌≡◌, ◌≤◌};
ghost use Rattle.delay.specs.declared.Unanswered.{Unanswered};
ghost use Rattle.delay.specs.Bounds.{frames_in, no_question, refusal_of, answer_for};
ghost use Rattle.delay.specs.Reading.{number, refusal_number, told};
ghost use Rattle.delay.specs.Limits.{Asked};

// The most links of a way: those between two corners of the mesh.
const MOST_LINKS: usize = 14;

// The most tiles more than its share that may come at once.
const MOST_BURST: usize = 999;

// The most slots of a frame.
const MOST_SLOTS: usize = 64;

// What a stream can count on: the slots from a tile's coming to its arrival at most; the cells that suffice where each is given back as its tile comes
// up; and those where it is given back only when the tile was shown.
#[derive(Clone, Copy, Debug, PartialEq, Eq)]
pub struct Bounds {
    pub slots: usize,
    pub cells: usize,
    pub shown: usize,
}

// What a stream is refused for.
#[derive(Clone, Copy, Debug, PartialEq, Eq)]
pub enum Refusal {
    Frame,
    Share,
}

impl Refusal {
    // The number that the table of refusals has for it.
    pub fn number(self) -> u8
        ensures { result ≡ number self }
    {
        match self {
            Refusal::Frame => 3,
            Refusal::Share => 4,
        }
    }
}

// Why a stream is told no bounds.
#[derive(Clone, Copy, Debug, PartialEq, Eq)]
pub enum Unanswered {
    // The links or the burst are none that can be asked about.
    NoQuestion,
    Refused(Refusal),
}

impl From<Refusal> for Unanswered {
    ghost from_gives = { λ r u. u ≡ Unanswered.Refused r };

    fn from(refusal: Refusal) -> Unanswered {
        Unanswered::Refused(refusal)
    }
}

// Whether so many links or such a burst can't be asked about.
#[tactic(auto, unfolding(crate::specs::Bounds::no_question))]
fn no_question(links: usize, burst: usize) -> bool
    ensures { result ≡ no_question links burst }
{
    !(1..=MOST_LINKS).contains(&links) || MOST_BURST < burst
}

// The test of a frame and a share.
#[tactic(auto, unfolding(crate::specs::Bounds::refusal_of, model::specs::Refusals::first_of))]
fn check(slots: usize, share: usize) -> Result<(), Refusal>
    ensures { refusal_number result ≡ refusal_of slots share }
{
    if !(1..=MOST_SLOTS).contains(&slots) {
        return Err(Refusal::Frame);
    }
    if !(1..=slots).contains(&share) {
        return Err(Refusal::Share);
    }
    Ok(())
}

// A frame for each link and one more, and those that a burst costs at the source.
fn frames_in(links: usize, share: usize, burst: usize) -> usize
    requires { Asked links burst × (1 ≤ share) × (share ≤ 64) }
    ensures { (result ≡ frames_in links share burst) × (1 ≤ result) × (result ≤ 1077) }
{
    links + 1 + burst.div_ceil(share)
}

// What a stream can count on that has a share of each frame of so many slots on each of so many links, where `burst` tiles more than its share may
// come at once.
pub fn delay(slots: usize, links: usize, share: usize, burst: usize) -> Result<Bounds, Unanswered>
    ensures { told result ≡ answer_for slots links share burst }
{
    if no_question(links, burst) {
        return Err(Unanswered::NoQuestion);
    }
    check(slots, share)?;
    Ok(Bounds {
        slots: frames_in(links, share, burst) * slots - 1,
        cells: 2 * share,
        shown: 3 * share,
    })
}
