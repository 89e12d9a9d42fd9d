// A link written as its image.
ghost use Rattle.std.specs.Prelude.{◌≡◌, ◌+◌, ◌*◌, ◌≤◌, ◌<◌, length};
ghost use Rattle.model.specs.WrittenPlan.{bytes_of};
ghost use Rattle.plan.specs.Reading.{plan_for, Valid};
ghost use Rattle.calls.specs.Lines.{Puts};
ghost use Rattle.link.specs.Steps.{read_in};
ghost use Rattle.imagemodel.specs.Image.{fields};
ghost use Rattle.imagemodel.specs.Exports.{written_to};
ghost use Rattle.imagecodec.specs.Writing.{header_of, part_of, parts_of};
ghost use Rattle.imagecodec.specs.Asked.{Writable, HeaderFits, PartFits, PartsFit};

use fields::{put, put_all, put_part};
use imagecheck::layout::layout_of;
use link::flows::flow_at;
use plan::Plan;
use state::{CURRENT, MARK, OWNERS, ROW, State, TURN};

// Writes the header of an image and returns the place after it.
fn put_header(plan: Plan, current: usize, mark: usize, turn: usize, image: &mut [u8]) -> usize
    requires { HeaderFits plan current mark turn image.old }
    ensures { Puts (fields (header_of (plan_for plan) current mark turn)) image.old image.new 0 result }
{
    let l = layout_of(plan);
    let header = [
        l.total,
        l.plan,
        l.positions,
        l.size,
        l.flows,
        l.count,
        current,
        mark,
        turn,
    ];
    put_all(&header, image, 0)
}

// Writes the bytes of a plan and returns the place after them.
fn put_plan(plan: Plan, image: &mut [u8], at: usize) -> usize
    requires { Valid plan × (at + (12 + 4 * plan.count) ≤ length image.old) }
    ensures { Puts (bytes_of (plan_for plan)) image.old image.new at result }
{
    at + plan::write(plan.draft(), &mut image[at..]).unwrap()
}

// Writes the part of flow i and returns the place after it.
fn put_flow(s: &State, i: usize, size: usize, image: &mut [u8], at: usize) -> usize
    requires { PartFits i size image.old at }
    ensures { Puts (part_of size s.now i) image.old image.new at result }
{
    let flow = flow_at(s, i);
    let start = [flow.injection, flow.remainder];
    let next = put_all(&start, image, at);
    let last = put_part(s, ROW * i, size, image, next);
    put(flow.number, image, last)
}

// Writes the parts of all flows and returns the place after them.
fn put_flows(s: &State, count: usize, size: usize, image: &mut [u8], at: usize) -> usize
    requires { PartsFit count size image.old at }
    ensures { Puts (parts_of size s.now count) image.old image.new at result }
{
    let mut next = at;
    for i in 0..count {
        next = put_flow(s, i, size, image, next);
    }
    next
}

// Writes the image of a plan's link with this state to the start of a buffer. Bytes past the image keep their values.
pub fn write(plan: Plan, s: &State, image: &mut [u8])
    requires { Writable plan s.now image.old }
    ensures { image.new ≡ written_to image.old (read_in plan s.now) }
{
    let size = plan.slots * plan.frames;
    let current = usize::from(s[CURRENT]);
    let mark = usize::from(s[MARK]);
    let turn = usize::from(s[TURN]);
    let mut at = put_header(plan, current, mark, turn, image);
    at = put_plan(plan, image, at);
    at = put_part(s, OWNERS, size, image, at);
    put_flows(s, plan.count, size, image, at);
}
