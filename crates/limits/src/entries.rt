// Entries: test 4, test 5, and the sums of tests 6 and 7.
ghost use Rattle.std.specs.Prelude.{◌≡◌, ◌<◌, ◌^◌, not, length, get_or, take};
ghost use Rattle.std.specs.List.{list_any, sum_by};
ghost use Rattle.model.specs.Tables.{any};
ghost use Rattle.model.specs.Plan.{entry_fits, same_pair};
ghost use Rattle.limits.specs.Reading.{wanted_for, no_wanted};

use crate::{Wanted, ranges};

// Whether an entry keeps its limits in frames of so many slots.
#[tactic(auto, using(std::proofs::lemmas::Bool::Decides::nat_tests), unfolding(model::specs::Plan::entry_fits))]
fn fits(e: Wanted, slots: usize) -> bool
    ensures { result ≡ entry_fits slots (wanted_for e) }
{
    ranges::share_fits(slots, e.share)
        && ranges::cells_fit(e.cells)
        && ranges::node_fits(e.source)
        && ranges::node_fits(e.destination)
        && e.source != e.destination
}

// Test 4: some entry breaks its limits.
pub(crate) fn entries_out_of_range(flows: &[Wanted], slots: usize) -> bool
    ensures { result ≡ list_any (λ e. not (entry_fits slots (wanted_for e))) flows.now }
{
    flows.iter().any(|e| !fits(*e, slots))
}

#[tactic(auto, using(std::proofs::lemmas::Bool::Decides::nat_tests))]
fn same_pair(a: Wanted, b: Wanted) -> bool
    ensures { result ≡ same_pair (wanted_for a) (wanted_for b) }
{
    a.source == b.source && a.destination == b.destination
}

// Whether an earlier entry has the same source and destination.
fn repeats(earlier: &[Wanted], e: Wanted) -> bool
    ensures { result ≡ list_any (λ d. same_pair (wanted_for d) (wanted_for e)) earlier.now }
{
    earlier.iter().any(|d| same_pair(*d, e))
}

// Test 5: two entries with equal source and destination.
pub(crate) fn any_repeats(flows: &[Wanted]) -> bool
    ensures { result ≡ any (length flows.now) (λ i. list_any (λ d. same_pair (wanted_for d) (wanted_for (get_or flows.now i no_wanted))) (take i flows.now)) }
{
    for (i, e) in flows.iter().enumerate() {
        if repeats(&flows[..i], *e) {
            return true;
        }
    }
    false
}

// The slots that the flows take together in a frame.
pub(crate) fn shares_of(flows: &[Wanted]) -> usize
    requires { sum_by (λ e. e.share) flows.now < 2 ^ 64 }
    ensures { result ≡ sum_by (λ e. e.share) flows.now }
{
    flows.iter().map(|e| e.share).sum()
}

// The places that the flows take together in the next board's buffer.
pub(crate) fn cells_of(flows: &[Wanted]) -> usize
    requires { sum_by (λ e. e.cells) flows.now < 2 ^ 64 }
    ensures { result ≡ sum_by (λ e. e.cells) flows.now }
{
    flows.iter().map(|e| e.cells).sum()
}
