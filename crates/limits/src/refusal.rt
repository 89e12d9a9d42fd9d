// Why a plan is refused.
ghost use Rattle.std.specs.Prelude.{◌≡◌};
ghost use Rattle.limits.specs.Refusals.{number};

// The refusals of plans by their numbers, in the order of the tests: those of bytes that are read come before the others, and that of a buffer without room
// for the plan's bytes comes last.
#[derive(Clone, Copy, Debug, PartialEq, Eq)]
pub enum Refusal {
    Length = 1,
    Counts = 2,
    Frame = 3,
    Entries = 4,
    Pairs = 5,
    Shares = 6,
    Cells = 7,
    NoRoom = 19,
}

impl Refusal {
    // The paper's number of the refusal.
    pub fn number(self) -> u8
        ensures { result ≡ number self }
    {
        self as u8
    }
}

impl From<Refusal> for u8 {
    ghost from_gives = { λ r n. n ≡ number r };

    fn from(refusal: Refusal) -> u8 {
        refusal.number()
    }
}
