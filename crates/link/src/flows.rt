// The flows of a state: frame, remainder and expected number, four bytes each.
ghost use Rattle.std.specs.Prelude.{◌≡◌, ◌<◌};
ghost use Rattle.link.specs.Parts.{flow_read, with_flow_at, FitsBytes};

use crate::Flow;
use state::{FLOWS, State};

pub fn flow_at(s: &State, i: usize) -> Flow
    requires { i < 16 }
    ensures is { result ≡ flow_read s.now i }
    ensures fits { FitsBytes result }
{
    let at = FLOWS + 4 * i;
    Flow {
        injection: usize::from(s[at]),
        remainder: usize::from(s[at + 1]),
        number: usize::from(u16::from_le_bytes([s[at + 2], s[at + 3]])),
    }
}

pub fn put_flow(s: &mut State, i: usize, f: Flow)
    requires { (i < 16) × FitsBytes f }
    ensures { s.new ≡ with_flow_at s.old i f }
{
    let at = FLOWS + 4 * i;
    let [low, high] = (f.number as u16).to_le_bytes();
    s[at..at + 4].copy_from_slice(&[f.injection as u8, f.remainder as u8, low, high]);
}
