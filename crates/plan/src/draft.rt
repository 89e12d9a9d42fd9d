// A plan as it would be asked for.
ghost use Rattle.std.specs.Prelude.{◌≡◌};
ghost use Rattle.plan.specs.Reading.{wanted_of, widened, draft_of};

use crate::{Entry, Plan};
use limits::{Draft, MOST_FLOWS, Wanted};

impl From<Entry> for Wanted {
    ghost from_gives = { λ e w. w ≡ wanted_of e };

    fn from(e: Entry) -> Wanted {
        Wanted {
            share: usize::from(e.share),
            cells: usize::from(e.cells),
            source: usize::from(e.source),
            destination: usize::from(e.destination),
        }
    }
}

// Stays: a pass over the places. The array's `map` keeps each element in an Option on its way, and made a call on a small image 50 ns slower.
fn wanted(entries: &[Entry; MOST_FLOWS]) -> [Wanted; MOST_FLOWS]
    ensures { result ≡ widened entries.now }
{
    let none = Wanted {
        share: 0,
        cells: 0,
        source: 0,
        destination: 0,
    };
    let mut all = [none; MOST_FLOWS];
    for i in 0..MOST_FLOWS {
        all[i] = Wanted::from(entries[i]);
    }
    all
}

impl Plan {
    // The same numbers as they would be asked for: `write` makes the plan's bytes of them.
    pub fn draft(self) -> Draft
        ensures { result ≡ draft_of self }
    {
        let stored = self.entries;
        Draft {
            slots: self.slots,
            frames: self.frames,
            buffer: self.buffer,
            count: self.count,
            entries: wanted(&stored),
        }
    }
}
