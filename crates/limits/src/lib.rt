// The limits of a plan, tests 2 to 7, on numbers as they are asked for. Who reads plans and who writes them make the same tests.
#![tactic(auto)]

mod entries;
mod ranges;
mod refusal;

ghost use Rattle.std.specs.Prelude.{◌≡◌, not};
ghost use Rattle.model.specs.Tables.{within};
ghost use Rattle.model.specs.Refusals.{first_of};
ghost use Rattle.model.specs.WrittenPlan.{number_tests};
ghost use Rattle.limits.specs.Reading.{draft_for};
ghost use Rattle.limits.specs.Refusals.{refusal_number};

pub use ranges::{
    buffer_fits, cells_fit, frames_fit, many_positions, node_fits, share_fits, slots_fit,
};
pub use refusal::Refusal;

// The most flows of a plan.
pub const MOST_FLOWS: usize = 16;

// A flow's entry as asked for: numbers that may be too wide for their fields.
#[derive(Clone, Copy)]
pub struct Wanted {
    pub share: usize,
    pub cells: usize,
    pub source: usize,
    pub destination: usize,
}

// A plan as asked for: F, W, N, n and the entries, of which those from n on have no effect.
#[derive(Clone, Copy)]
pub struct Draft {
    pub slots: usize,
    pub frames: usize,
    pub buffer: usize,
    pub count: usize,
    pub entries: [Wanted; 16],
}

// Whether n is out of range.
pub fn count_out_of_range(count: usize) -> bool
    ensures { result ≡ not (within 1 16 count) }
{
    !(1..=MOST_FLOWS).contains(&count)
}

// Tests 2 to 7: the first that applies is the refusal.
#[tactic(auto, using(std::proofs::lemmas::Bool::Decides::nat_tests, crate::proofs::PlanLimits::limits_are, crate::proofs::PlanLimits::few_flows, crate::proofs::PlanLimits::gives_2, crate::proofs::PlanLimits::few_shares, crate::proofs::PlanLimits::few_cells), unfolding(model::specs::Refusals::first_of))]
pub fn check(d: Draft) -> Result<(), Refusal>
    ensures { refusal_number result ≡ first_of (number_tests (draft_for d)) }
{
    if count_out_of_range(d.count) {
        return Err(Refusal::Counts);
    }
    if ranges::frames_out_of_range(d.slots, d.frames, d.buffer) {
        return Err(Refusal::Frame);
    }
    let flows = &d.entries[..d.count];
    if entries::entries_out_of_range(flows, d.slots) {
        return Err(Refusal::Entries);
    }
    if entries::any_repeats(flows) {
        return Err(Refusal::Pairs);
    }
    if d.slots < entries::shares_of(flows) {
        return Err(Refusal::Shares);
    }
    if d.buffer < entries::cells_of(flows) {
        return Err(Refusal::Cells);
    }
    Ok(())
}
