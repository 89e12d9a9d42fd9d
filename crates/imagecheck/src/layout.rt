// Where the parts of an image stand.
ghost use Rattle.std.specs.Prelude.{◌≡◌, ◌+◌, ◌*◌, ◌≤◌, ◌<◌};
ghost use Rattle.plan.specs.Reading.{plan_for, Valid};
ghost use Rattle.imagecheck.specs.Layout.{fields_of, LaidOut, Sized};

use plan::Plan;

// The bytes of the header.
pub const HEADER: usize = 18;

// The layout of an image, as its header has it, and the number of fields of a flow's part.
#[derive(Clone, Copy)]
pub struct Layout {
    pub total: usize,
    // offset of the plan
    pub plan: usize,
    // offset and count of positions
    pub positions: usize,
    pub size: usize,
    // offset and count of flows
    pub flows: usize,
    pub count: usize,
    pub fields: usize,
}

// The layout of a plan's images.
pub fn layout_of(plan: Plan) -> Layout
    requires { Valid plan }
    ensures { LaidOut (plan_for plan) result }
{
    let size = plan.slots * plan.frames;
    let positions = HEADER + 12 + 4 * plan.count;
    let flows = positions + 2 * size;
    let fields = 3 + size;
    Layout {
        total: flows + 2 * (plan.count * fields),
        plan: HEADER,
        positions,
        size,
        flows,
        count: plan.count,
        fields,
    }
}

impl Layout {
    // What the header states of it.
    pub fn stated(self) -> [usize; 6]
        ensures { result ≡ fields_of self }
    {
        [
            self.total,
            self.plan,
            self.positions,
            self.size,
            self.flows,
            self.count,
        ]
    }

    // Where the part of flow i stands.
    pub fn flow(self, i: usize) -> usize
        requires { Sized self × (i < self.count) }
        ensures is { result ≡ self.flows + 2 * (i * self.fields) }
        ensures fits { result + 2 * self.fields ≤ self.total }
    {
        self.flows + 2 * (i * self.fields)
    }
}
