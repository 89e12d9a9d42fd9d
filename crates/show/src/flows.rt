// The streams of a link, in the order of the set, as the flows of a plan.
ghost use Rattle.std.specs.Prelude.{◌<◌, ◌≡◌, cond, get_or, set, eqb, []};
ghost use Rattle.mesh.specs.Mesh.{to};
ghost use Rattle.mesh.specs.Streams.{stream_with};
ghost use Rattle.mesh.specs.Reading.{link_at};
ghost use Rattle.show.specs.Show.{flows_of};
ghost use Rattle.show.specs.Reading.{show_of};
ghost use Rattle.show.specs.Gathering.{added, joined, draft_over};

use crate::{Dome, ways};
use limits::{Draft, MOST_FLOWS, Wanted};

// A number of a list, and 0 past its end.
fn at(numbers: &[usize], i: usize) -> usize
    ensures { result ≡ get_or numbers.now i 0 }
{
    numbers.get(i).copied().unwrap_or(0)
}

// A plan with no flow.
#[tactic(auto, unfolding(crate::specs::Gathering::draft_over))]
fn none(dome: Dome) -> Draft
    ensures { result ≡ draft_over dome [] }
{
    let flow = Wanted {
        share: 0,
        cells: 0,
        source: 0,
        destination: 0,
    };
    Draft {
        slots: dome.slots,
        frames: dome.frames,
        buffer: dome.buffer,
        count: 0,
        entries: [flow; 16],
    }
}

// Sixteen flows with one of them stored; past the sixteenth nothing is.
fn stored(mut flows: [Wanted; 16], at: usize, flow: Wanted) -> [Wanted; 16]
    ensures { result ≡ set flows at flow }
{
    if at < MOST_FLOWS {
        flows[at] = flow;
    }
    flows
}

// One flow more.
#[tactic(auto, unfolding(crate::specs::Gathering::added))]
fn with_flow(d: Draft, flow: Wanted) -> Draft
    requires { d.count < 18446744073709551615 }
    ensures { result ≡ added d flow }
{
    Draft {
        count: d.count + 1,
        entries: stored(d.entries, d.count, flow),
        ..d
    }
}

// A stream's cells on the link at a place.
fn cells_on(k: usize, destination: usize, cells: usize, last: usize) -> usize
    ensures { result ≡ cond (eqb (to (link_at k)) destination) last cells }
{
    if mesh::link_to(k) == destination {
        last
    } else {
        cells
    }
}

// A stream's flow more, where it uses the link at a place.
#[tactic(auto, unfolding(mesh::specs::Streams::uses))]
fn with_stream(
    d: Draft,
    k: usize,
    source: usize,
    destination: usize,
    share: usize,
    cells: usize,
    last: usize,
) -> Draft
    requires { d.count < 18446744073709551615 }
    ensures { result ≡ joined (link_at k) (record { stream = stream_with source destination share; cells = cells; last_cells = last }) d }
{
    if !ways::on_way(source, destination, k) {
        return d;
    }
    let flow = Wanted {
        share,
        cells: cells_on(k, destination, cells, last),
        source,
        destination,
    };
    with_flow(d, flow)
}

// The plan of the link at a place, as it is asked for.
pub(crate) fn gathered(dome: Dome, numbers: &[usize], cells: &[usize], k: usize) -> Draft
    ensures { result ≡ draft_over dome (flows_of (link_at k) (show_of dome numbers.now cells.now).streams) }
{
    let count = numbers.len() / 3;
    let mut draft = none(dome);
    for i in 0..count {
        draft = with_stream(
            draft,
            k,
            numbers[3 * i],
            numbers[3 * i + 1],
            numbers[3 * i + 2],
            at(cells, 2 * i),
            at(cells, 2 * i + 1),
        );
    }
    draft
}
