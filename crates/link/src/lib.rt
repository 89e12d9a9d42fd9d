// One link of a plan: its current position, the owner of each position, each flow's frame, remainder and expected number, what each flow
// holds, whether the current slot is marked, and whose turn it is to be lent to.
#![tactic(auto)]

ghost use Rattle.std.specs.Prelude.{◌≡◌, ◌<◌};
ghost use Rattle.link.specs.Updates.{moved_to, granted_in};
ghost use Rattle.link.specs.Sound.{SoundState};

pub mod credit;
mod fresh;
pub mod flows; // the flows of a state
pub mod lend;
pub mod request;
pub mod resume; // a state taken up again
pub mod reset;
pub mod tick;
mod windows;

use calls::Answer;
use plan::Plan;
use state::State;

// A flow's injection frame, its remainder, and the quantum number that is expected of its next word.
#[derive(Clone, Copy)]
pub struct Flow {
    pub injection: usize,
    pub remainder: usize,
    pub number: usize,
}

impl Flow {
    // The flow in another frame, with another remainder.
    pub fn moved_to(mut self, frame: usize, left: usize) -> Flow
        ensures { result ≡ moved_to self frame left }
    {
        self.injection = frame;
        self.remainder = left;
        self
    }

    // The flow after a grant: in that frame, with that remainder, and with the next number, which goes round after 1,023.
    pub(crate) fn granted_in(mut self, frame: usize, left: usize) -> Flow
        requires { self.number < 1024 }
        ensures { result ≡ granted_in self frame left }
    {
        self.injection = frame;
        self.remainder = left;
        self.number = (self.number + 1) % 1024;
        self
    }
}

// A link: its plan, and the rest of it in one array of bytes, which is sound.
#[derive(Clone, Copy)]
pub struct Link {
    pub plan: Plan,
    pub state: State,
    pub ghost sound: { SoundState plan state },
}

// What a call hands back.
#[derive(Clone, Copy)]
pub struct Step {
    pub link: Link,
    pub answer: Answer,
}
