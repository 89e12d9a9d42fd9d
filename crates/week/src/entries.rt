// Entries by themselves: whether one keeps its limits.
ghost use Rattle.std.specs.Prelude.{◌≡◌, not};
ghost use Rattle.std.specs.List.{list_any};
ghost use Rattle.week.specs.Week.{keeps_limits};
ghost use Rattle.week.specs.Reading.{entry_for};

use crate::{Entry, WEEK};

// Whether an entry starts before it ends and lies in the week. Where it starts before it ends, only the end can lie outside.
#[tactic(auto, using(std::proofs::lemmas::Bool::Decides::nat_tests), unfolding(crate::specs::Week::keeps_limits))]
fn keeps_limits(e: Entry) -> bool
    ensures { result ≡ keeps_limits (entry_for e) }
{
    e.start < e.end && e.end <= WEEK
}

// Whether some entry doesn't start before it ends, or lies outside the week.
pub(crate) fn any_breaks_limits(entries: &[Entry]) -> bool
    ensures { result ≡ list_any (λ e. not (keeps_limits (entry_for e))) entries.now }
{
    entries.iter().any(|e| !keeps_limits(*e))
}
