// The entry that runs at a minute.
ghost use Rattle.std.specs.Prelude.{◌≡◌};
ghost use Rattle.week.specs.Week as week;
ghost use Rattle.week.specs.Reading.{entry_for, plan_found};

use crate::Entry;

fn runs(e: Entry, minute: usize) -> bool
    ensures { result ≡ week.runs (entry_for e) minute }
{
    e.start <= minute && minute < e.end
}

// The plan of the first entry that runs at a minute.
pub(crate) fn plan_or_dark(entries: &[Entry], minute: usize) -> Option<u16>
    ensures { result ≡ plan_found entries.now minute }
{
    entries.iter().find(|e| runs(**e, minute)).map(|e| e.plan)
}
