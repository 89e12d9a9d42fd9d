// Why a buffer is refused.
ghost use Rattle.std.specs.Prelude.{◌≡◌};
ghost use Rattle.imagecheck.specs.Refusals.{number};

// The refusals of buffers by their numbers.
#[derive(Clone, Copy, Debug, PartialEq, Eq)]
pub enum Refusal {
    // The buffer is shorter than the header or than the total that this states.
    Short = 21,
    // Any other fault in its image.
    Fault = 22,
}

impl Refusal {
    // The paper's number of the refusal.
    pub fn number(self) -> u8
        ensures { result ≡ number self }
    {
        self as u8
    }
}
