// Entries two by two: whether they share a minute.
ghost use Rattle.std.specs.Prelude.{◌+◌, ◌≡◌, ◌<◌, length, map};
ghost use Rattle.model.specs.Tables.{any};
ghost use Rattle.week.specs.Week.{share_minute, some_shared, KeepsLimits};
ghost use Rattle.week.specs.Reading.{entry_for, stored, AllKeepLimits};

use crate::Entry;

// Whether two entries that keep their limits share a minute: each starts before the other ends.
fn share_minute(a: Entry, b: Entry) -> bool
    requires { KeepsLimits (entry_for a) × KeepsLimits (entry_for b) }
    ensures { result ≡ share_minute (entry_for a) (entry_for b) }
{
    a.start < b.end && b.start < a.end
}

// Whether an entry at a lower place shares a minute with entry i.
fn shared_below(entries: &[Entry], i: usize) -> bool
    requires { (i < length entries.now) × AllKeepLimits entries.now (i + 1) }
    ensures { result ≡ any i (λ j. share_minute (stored entries.now j) (stored entries.now i)) }
{
    let e = entries[i];
    for lower in &entries[..i] {
        if share_minute(*lower, e) {
            return true;
        }
    }
    false
}

// Whether some two entries share a minute.
pub(crate) fn any_shared(entries: &[Entry]) -> bool
    requires { AllKeepLimits entries.now (length entries.now) }
    ensures { result ≡ some_shared (map entry_for entries.now) }
{
    for i in 0..entries.len() {
        if shared_below(entries, i) {
            return true;
        }
    }
    false
}
