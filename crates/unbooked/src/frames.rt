// The words of a link.
ghost use Rattle.std.specs.Prelude.{true};
ghost use Rattle.window.specs.Window.{Measures};
ghost use Rattle.unbooked.specs.Words.{Words};

use crate::Unbooked;
use crate::bits::below;

// Nobody booked a slot of the W frames.
pub fn every_slot(slots: usize, frames: usize) -> Unbooked
    requires { Measures slots frames 0 }
    ensures { Words slots frames (λ p. true) result }
{
    let mut all = [0u64; 8];
    all[..frames].fill(below(slots));
    all
}
