// A show over the mesh: the plan of each link, and whether every link that is used has one.
#![tactic(auto)]

mod flows;
mod ways;

ghost use Rattle.std.specs.Prelude.{◌≡◌, ◌≤◌, IfOk, length};
ghost use Rattle.model.specs.WrittenPlan as writer;
ghost use Rattle.plan.specs.Writing.{answer_of};
ghost use Rattle.limits.specs.Refusals as link_refusals;
ghost use Rattle.mesh.specs.Admission as admission;
ghost use Rattle.mesh.specs.Reading.{link_at, streams_of};
ghost use Rattle.mesh.specs.Refusals as mesh_refusals;
ghost use Rattle.show.specs.declared.Refusal.{Refusal};
ghost use Rattle.show.specs.Show as show;
ghost use Rattle.show.specs.Reading.{show_of};
ghost use Rattle.show.specs.Refusals.{number, refusal_number, ComesOf};

// The places for links: four for each board, one for each side.
const PLACES: usize = 256;

// F, W and N, which hold for every link.
#[derive(Clone, Copy)]
pub struct Dome {
    pub slots: usize,
    pub frames: usize,
    pub buffer: usize,
}

// What a show is refused for: over the mesh, or for the plan of a link.
#[derive(Clone, Copy, Debug, PartialEq, Eq)]
pub enum Refusal {
    Mesh(mesh::Refusal),
    Link(limits::Refusal),
}

impl Refusal {
    // The number that the table of refusals has for it.
    pub fn number(self) -> u8
        ensures { result ≡ number self }
    {
        match self {
            Refusal::Mesh(refusal) => refusal.number(),
            Refusal::Link(refusal) => refusal.number(),
        }
    }
}

impl From<mesh::Refusal> for Refusal {
    ghost from_gives = { λ r s. s ≡ Refusal.Mesh r };

    fn from(refusal: mesh::Refusal) -> Refusal {
        Refusal::Mesh(refusal)
    }
}

impl From<limits::Refusal> for Refusal {
    ghost from_gives = { λ r s. s ≡ Refusal.Link r };

    fn from(refusal: limits::Refusal) -> Refusal {
        Refusal::Link(refusal)
    }
}

// Writes the plan of the link at a place of the mesh at the start of a buffer, or answers with its refusal; a link that no stream uses gives 2. The numbers are
// the source, the destination and the share of each stream; the cells are its cells on its way, and on the last link of it. That a count is at most 76 and at
// most the buffer's length follows; it is stated so that callers find it.
pub fn write(
    dome: Dome,
    numbers: &[usize],
    cells: &[usize],
    k: usize,
    out: &mut [u8],
) -> Result<usize, limits::Refusal>
    ensures is { answer_of result ≡ (writer.written (show.link_plan (show_of dome numbers.now cells.now) (link_at k)) out.old).answer }
    ensures out { out.new ≡ (writer.written (show.link_plan (show_of dome numbers.now cells.now) (link_at k)) out.old).out }
    ensures most { IfOk result (λ n. (n ≤ 76) × (n ≤ length out.old)) }
{
    let draft = flows::gathered(dome, numbers, cells, k);
    plan::write(draft, out)
}

// Tests the link at a place: its plan, where some stream uses it.
pub fn check_link(
    dome: Dome,
    numbers: &[usize],
    cells: &[usize],
    k: usize,
) -> Result<(), limits::Refusal>
    ensures { link_refusals.refusal_number result ≡ show.link_refusal (show_of dome numbers.now cells.now) (link_at k) }
{
    let draft = flows::gathered(dome, numbers, cells, k);
    if draft.count == 0 {
        return Ok(());
    }
    limits::check(draft)
}

// Tests the streams of a show over the mesh.
fn check_streams(dome: Dome, numbers: &[usize]) -> Result<(), mesh::Refusal>
    ensures { mesh_refusals.refusal_number result ≡ admission.refusal dome.slots (streams_of numbers.now) }
{
    mesh::admit(dome.slots, numbers)
}

// Tests a show: whether every link that is used has a plan.
pub fn check(dome: Dome, numbers: &[usize], cells: &[usize]) -> Result<(), Refusal>
    ensures number { refusal_number result ≡ show.refusal (show_of dome numbers.now cells.now) }
    ensures comes_of { ComesOf (admission.refusal dome.slots (streams_of numbers.now)) result }
{
    check_streams(dome, numbers)?;
    for k in 0..PLACES {
        check_link(dome, numbers, cells, k)?;
    }
    Ok(())
}
