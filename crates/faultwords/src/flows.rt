// The limits of flows: of each by itself, of two, and of all together.
ghost use Rattle.std.specs.Prelude.{ℕ, ◌+◌, ◌*◌, ◌≤◌, ◌<◌, ◌≡◌, length, get_or};
ghost use Rattle.model.specs.Tables.{sum};
ghost use Rattle.model.specs.Plan.{entry, same_pair};
ghost use Rattle.calls.specs.Lines.{Puts};
ghost use Rattle.planwords.specs.Plans.{flows_asked, entry_asked, plan_asked};
ghost use Rattle.faults.specs.Told.{each_below};
ghost use Rattle.faultwords.specs.PlanFaults.{entry_faults, alike_faults, sum_faults};
ghost use Rattle.faultwords.specs.Asked.{ShortNumbers, FlowsOf};

// Tells which limits of flow i are broken.
fn tell_entry(numbers: &[usize], i: usize, found: &mut [usize], at: usize) -> usize
    requires { (i < flows_asked numbers.now) × (at + 15 ≤ length found.old) }
    ensures put { Puts (entry_faults (get_or numbers.now 0 0) (entry_asked numbers.now i) i) found.old found.new at result }
    ensures most { result ≤ at + 15 }
{
    let from = 3 + 4 * i;
    let source = numbers[from + 2];
    let destination = numbers[from + 3];
    let after_share = faults::tell_if(
        !limits::share_fits(numbers[0], numbers[from]),
        4,
        i,
        0,
        found,
        at,
    );
    let after_cells = faults::tell_if(
        !limits::cells_fit(numbers[from + 1]),
        4,
        i,
        1,
        found,
        after_share,
    );
    let after_source = faults::tell_if(!limits::node_fits(source), 4, i, 2, found, after_cells);
    let after_nodes = faults::tell_if(
        !limits::node_fits(destination),
        4,
        i,
        3,
        found,
        after_source,
    );
    faults::tell_if(source == destination, 4, i, 4, found, after_nodes)
}

// Tells which limits of each of so many flows are broken.
pub(crate) fn tell_entries(numbers: &[usize], flows: usize, found: &mut [usize], at: usize) -> usize
    requires { FlowsOf numbers.now flows × (at + 240 ≤ length found.old) }
    ensures put { Puts (each_below flows (λ i. entry_faults (get_or numbers.now 0 0) (entry_asked numbers.now i) i)) found.old found.new at result }
    ensures most { result ≤ at + 240 }
{
    let mut next = at;
    for i in 0..flows {
        next = tell_entry(numbers, i, found, next);
    }
    next
}

// Whether two flows have the same source and the same destination.
fn same_pair(numbers: &[usize], i: usize, j: usize) -> bool
    requires { (i < flows_asked numbers.now) × (j < flows_asked numbers.now) }
    ensures { result ≡ same_pair (entry_asked numbers.now i) (entry_asked numbers.now j) }
{
    let one = 3 + 4 * i;
    let other = 3 + 4 * j;
    numbers[one + 2] == numbers[other + 2] && numbers[one + 3] == numbers[other + 3]
}

// Tells the first flow before flow j that has its nodes.
fn tell_alike(numbers: &[usize], j: usize, found: &mut [usize], at: usize) -> usize
    requires { (j < flows_asked numbers.now) × (at + 3 ≤ length found.old) }
    ensures put { Puts (alike_faults (plan_asked numbers.now) j) found.old found.new at result }
    ensures most { result ≤ at + 3 }
{
    for i in 0..j {
        if same_pair(numbers, i, j) {
            return faults::tell_if(true, 5, i, j, found, at);
        }
    }
    at
}

// Tells, for each of so many flows, the first flow before it that has its nodes.
pub(crate) fn tell_repeats(numbers: &[usize], flows: usize, found: &mut [usize], at: usize) -> usize
    requires { FlowsOf numbers.now flows × (at + 48 ≤ length found.old) }
    ensures put { Puts (each_below flows (alike_faults (plan_asked numbers.now))) found.old found.new at result }
    ensures most { result ≤ at + 48 }
{
    let mut next = at;
    for j in 0..flows {
        next = tell_alike(numbers, j, found, next);
    }
    next
}

// The sum of the shares of so many flows, or of their cells: of the numbers at a place of each flow's four.
fn total(numbers: &[usize], flows: usize, place: usize) -> usize
    requires { ShortNumbers numbers.now × FlowsOf numbers.now flows × (place < 4) }
    ensures { result ≡ sum flows (λ i. get_or numbers.now (3 + 4 * i + place) 0) }
{
    let mut sum = 0;
    for i in 0..flows {
        sum += numbers[3 + 4 * i + place];
    }
    sum
}

// Tells whether the shares of so many flows add to more than F, and their cells to more than N.
pub(crate) fn tell_sums(numbers: &[usize], flows: usize, found: &mut [usize], at: usize) -> usize
    requires { ShortNumbers numbers.now × FlowsOf numbers.now flows × (at + 6 ≤ length found.old) }
    ensures put { Puts (sum_faults (get_or numbers.now 0 0) (get_or numbers.now 2 0) (sum flows (λ i. (entry_asked numbers.now i).share)) (sum flows (λ i. (entry_asked numbers.now i).cells))) found.old found.new at result }
    ensures most { result ≤ at + 6 }
{
    let slots = numbers[0];
    let buffer = numbers[2];
    let shares = total(numbers, flows, 0);
    let cells = total(numbers, flows, 1);
    let after_shares = faults::tell_if(slots < shares, 6, shares, slots, found, at);
    faults::tell_if(buffer < cells, 7, cells, buffer, found, after_shares)
}
