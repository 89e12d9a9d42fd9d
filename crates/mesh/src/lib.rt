// Streams over the mesh of boards: what they put on each link, and whether a set of them is admitted.
#![tactic(auto)]

mod entries;
mod loads;
mod places;

ghost use Rattle.std.specs.Prelude.{◌≡◌, IfOk};
ghost use Rattle.mesh.specs.Admission as admission;
ghost use Rattle.mesh.specs.Reading.{streams_of, loads_of};
ghost use Rattle.mesh.specs.Refusals.{number, refusal_number};

pub use loads::any_over;
pub use places::{link_from, link_to};

// What a set of streams is refused for.
#[derive(Clone, Copy, Debug, PartialEq, Eq)]
pub enum Refusal {
    // The slots of a frame.
    Frame,
    // A stream breaks its limits.
    Stream,
    // There are too many streams, or a link carries too much.
    Mesh,
}

impl Refusal {
    // The number that the table of refusals has for it.
    pub fn number(self) -> u8
        ensures { result ≡ number self }
    {
        match self {
            Refusal::Frame => 3,
            Refusal::Stream => 4,
            Refusal::Mesh => 25,
        }
    }
}

// What streams put on the links: the load of each, four places for each board; or the first test before the links that applies. The numbers are the
// source, the destination and the share of each stream.
pub fn measure(slots: usize, numbers: &[usize]) -> Result<[usize; 256], Refusal>
    ensures refusal { refusal_number result ≡ admission.refusal_before_links slots (streams_of numbers.now) }
    ensures table { IfOk result (λ table. table ≡ loads_of (streams_of numbers.now)) }
{
    entries::check_before_links(slots, numbers)?;
    Ok(loads::gathered(numbers, numbers.len() / 3))
}

// Whether streams are admitted in frames of so many slots, or what they are refused for.
pub fn admit(slots: usize, numbers: &[usize]) -> Result<(), Refusal>
    ensures { refusal_number result ≡ admission.refusal slots (streams_of numbers.now) }
{
    let table = measure(slots, numbers)?;
    if loads::any_over(&table, slots) {
        return Err(Refusal::Mesh);
    }
    Ok(())
}
