// The limits of a week's entries: of each by itself, and of two.
ghost use Rattle.std.specs.Prelude.{◌+◌, ◌*◌, ◌≤◌, ◌≡◌, length};
ghost use Rattle.calls.specs.Lines.{Puts};
ghost use Rattle.week.specs.Week.{entry, share_minute};
ghost use Rattle.faults.specs.Told.{each_below};
ghost use Rattle.weekwords.specs.WeekFaults.{entry_faults, entries_faults, shared_faults};
ghost use Rattle.weekwords.specs.WeekWord.{week_asked};

// Tells which limits of entry i are broken.
fn tell_entry(numbers: &[usize], i: usize, found: &mut [usize], at: usize) -> usize
    requires { (3 * i + 3 ≤ length numbers.now) × (at + 6 ≤ length found.old) }
    ensures put { Puts (entry_faults (entry (week_asked numbers.now) i) i) found.old found.new at result }
    ensures most { result ≤ at + 6 }
{
    let start = numbers[3 * i];
    let end = numbers[3 * i + 1];
    let after_start = faults::tell_if(end <= start, 28, i, 0, found, at);
    faults::tell_if(week::WEEK < end, 28, i, 1, found, after_start)
}

// The same of each of so many entries.
pub(crate) fn tell_entries(numbers: &[usize], count: usize, found: &mut [usize], at: usize) -> usize
    requires { (count ≤ 64) × (3 * count ≤ length numbers.now) × (at + 384 ≤ length found.old) }
    ensures put { Puts (entries_faults (week_asked numbers.now) count) found.old found.new at result }
    ensures most { result ≤ at + 384 }
{
    let mut next = at;
    for i in 0..count {
        next = tell_entry(numbers, i, found, next);
    }
    next
}

// Whether two entries share a minute: at the later of their starts, a minute of the week, both run.
fn share_minute(numbers: &[usize], i: usize, j: usize) -> bool
    requires { (3 * i + 3 ≤ length numbers.now) × (3 * j + 3 ≤ length numbers.now) }
    ensures { result ≡ share_minute (entry (week_asked numbers.now) i) (entry (week_asked numbers.now) j) }
{
    let start = numbers[3 * i].max(numbers[3 * j]);
    if week::WEEK <= start {
        return false;
    }
    if numbers[3 * i + 1] <= start {
        return false;
    }
    start < numbers[3 * j + 1]
}

// Tells the first entry before entry j that shares a minute with it.
fn tell_shared(numbers: &[usize], j: usize, found: &mut [usize], at: usize) -> usize
    requires { (3 * j + 3 ≤ length numbers.now) × (at + 3 ≤ length found.old) }
    ensures put { Puts (shared_faults (week_asked numbers.now) j) found.old found.new at result }
    ensures most { result ≤ at + 3 }
{
    for i in 0..j {
        if share_minute(numbers, i, j) {
            return faults::tell_if(true, 29, i, j, found, at);
        }
    }
    at
}

// The same of each of so many entries.
pub(crate) fn tell_pairs(numbers: &[usize], count: usize, found: &mut [usize], at: usize) -> usize
    requires { (count ≤ 64) × (3 * count ≤ length numbers.now) × (at + 192 ≤ length found.old) }
    ensures put { Puts (each_below count (shared_faults (week_asked numbers.now))) found.old found.new at result }
    ensures most { result ≤ at + 192 }
{
    let mut next = at;
    for j in 0..count {
        next = tell_shared(numbers, j, found, next);
    }
    next
}
