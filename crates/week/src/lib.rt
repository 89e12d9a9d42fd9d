// The week's programme: which plan runs at a minute of the week.
#![tactic(auto)]

mod entries;
mod search;
mod shared;

ghost use Rattle.std.specs.Prelude.{◌≡◌};
ghost use Rattle.week.specs.Week.{plan_at, refusal};
ghost use Rattle.week.specs.Reading.{entries_of, number, refusal_number, answer_of};

// The minutes of a week.
pub const WEEK: usize = 10080;

// The most entries of a programme.
pub const MOST: usize = 64;

// An entry: a showing's start and end in minutes of the week, and its plan. It runs at its start and up to the minute before its end.
#[derive(Clone, Copy, Debug, PartialEq, Eq)]
pub struct Entry {
    pub start: usize,
    pub end: usize,
    pub plan: u16,
}

// A programme: how many entries it has, and the entries in any order, of which those from the count on have no effect.
#[derive(Clone, Copy)]
pub struct Programme {
    pub count: usize,
    pub entries: [Entry; 64],
}

// Why a programme or a minute is refused.
#[derive(Clone, Copy, Debug, PartialEq, Eq)]
pub enum Refusal {
    // 28: an entry breaks its limits, there are too many entries, or the minute lies outside the week.
    Limits,
    // 29: two entries share a minute.
    Shared,
}

impl Refusal {
    // Its number.
    pub fn number(self) -> u8
        ensures { result ≡ number self }
    {
        match self {
            Refusal::Limits => 28,
            Refusal::Shared => 29,
        }
    }
}

// The tests of a programme and a minute, up to the first that fails.
fn check(p: &Programme, minute: usize) -> Result<(), Refusal>
    ensures { refusal_number result ≡ refusal (entries_of p.now) minute }
{
    if MOST < p.count {
        return Err(Refusal::Limits);
    }
    if WEEK <= minute {
        return Err(Refusal::Limits);
    }
    let entries = &p.entries[..p.count];
    if entries::any_breaks_limits(entries) {
        return Err(Refusal::Limits);
    }
    if shared::any_shared(entries) {
        return Err(Refusal::Shared);
    }
    Ok(())
}

// The plan that runs at a minute, or none where it is dark.
pub fn plan_at(p: Programme, minute: usize) -> Result<Option<u16>, Refusal>
    ensures { answer_of result ≡ plan_at (entries_of p) minute }
{
    check(&p, minute)?;
    let entries = &p.entries[..p.count];
    Ok(search::plan_or_dark(entries, minute))
}
