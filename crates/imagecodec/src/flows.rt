// The flows of an image, stored to a state: their frames, remainders and expected numbers, and what they hold.
ghost use Rattle.std.specs.Prelude.{◌≡◌, ◌+◌, ◌*◌, ◌≤◌, length};
ghost use Rattle.state.specs.State.{Whole, held_of};
ghost use Rattle.tables.specs.Holdings.{nothing_held};
ghost use Rattle.link.specs.Parts.{flows_of};
ghost use Rattle.link.specs.Changes.{FlowsNow};
ghost use Rattle.imagecodec.specs.Reading.{flow_from, flows_over, HeldRead};
ghost use Rattle.imagecodec.specs.Asked.{FlowsOn, HoldingsOn};

use fields::{field, read_table};
use imagecheck::layout::Layout;
use link::Flow;
use link::flows::put_flow;
use state::State;
use tables::holdings::store;

// The injection frame, the remainder and the expected number of a part that stands at a place, with so many holdings.
fn read_flow(image: &[u8], at: usize, size: usize) -> Flow
    requires { at + 6 + 2 * size ≤ length image.now }
    ensures { result ≡ flow_from image.now size at }
{
    Flow {
        injection: field(image, at),
        remainder: field(image, at + 2),
        number: field(image, at + 4 + 2 * size),
    }
}

// Stores each flow of an image: its injection frame, its remainder and its expected number.
pub(crate) fn read_flows(s: &mut State, image: &[u8], l: Layout)
    requires { FlowsOn image.now l × Whole s.old }
    ensures { FlowsNow s.old s.new (flows_over image.now l (flows_of s.old)) }
{
    for i in 0..l.count {
        put_flow(s, i, read_flow(image, l.flow(i), l.size));
    }
}

// What each flow holds, where nothing is held.
pub(crate) fn read_held(s: &mut State, image: &[u8], l: Layout)
    requires { HoldingsOn image.now l × Whole s.old × (held_of s.old ≡ nothing_held) }
    ensures { HeldRead image.now l s.old s.new }
{
    for i in 0..l.count {
        store(s, i, read_table(image, l.flow(i) + 4, l.size, 0));
    }
}
