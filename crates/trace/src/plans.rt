// The lines of a plan.
ghost use Rattle.std.specs.Prelude.{◌+◌, ◌≤◌, length};
ghost use Rattle.plan.specs.Reading.{Valid, plan_for, entry_for};
ghost use Rattle.trace.specs.Trace.{entry_line, entry_lines, plan_lines};
ghost use Rattle.trace.specs.Written.{Lines};

use crate::written::put_line;
use plan::{Entry, Plan};

fn put_entry(e: Entry, out: &mut [u8], at: usize) -> usize
    requires { at + 86 ≤ length out.old }
    ensures { Lines (entry_line (entry_for e)) out.old out.new at result 86 }
{
    let numbers = [
        usize::from(e.share),
        usize::from(e.cells),
        usize::from(e.source),
        usize::from(e.destination),
    ];
    put_line(b'E', &numbers, out, at)
}

// Writes the lines of a plan's entries.
#[tactic(auto, using(crate::proofs::LinkTold::count_most))]
fn put_entries(plan: Plan, out: &mut [u8], at: usize) -> usize
    requires { Valid plan × (at + 1376 ≤ length out.old) }
    ensures { Lines (entry_lines (plan_for plan) plan.count) out.old out.new at result 1376 }
{
    let mut next = at;
    for e in &plan.entries[..plan.count] {
        next = put_entry(*e, out, next);
    }
    next
}

// Writes the lines of an accepted plan.
pub fn write_plan(plan: Plan, out: &mut [u8], at: usize) -> usize
    requires { Valid plan × (at + 2048 ≤ length out.old) }
    ensures { Lines (plan_lines (plan_for plan)) out.old out.new at result 2048 }
{
    let numbers = [0, plan.slots, plan.frames, plan.buffer, plan.count];
    let next = put_line(b'P', &numbers, out, at);
    put_entries(plan, out, next)
}
