// What is printed.
ghost use Rattle.std.specs.Prelude.{◌<◌, ◌≤◌};

use crate::file::{MOST, streak_end};
use std::io::Print;

// Shorter streaks are played but not counted: the clock would take too much of the time.
const SHORTEST: usize = 8;

// The calls of a kind that are counted, and their nanoseconds.
#[derive(Clone, Copy)]
struct Counted {
    calls: u64,
    spent: u64,
}

fn total(kind: u8, kinds: &[u8; MOST], lowest: &[u64; MOST], count: usize, cost: u64) -> Counted
    requires { count ≤ 4096 }
    ensures { result.calls ≤ 4096 }
{
    let mut calls = 0;
    let mut spent: u64 = 0;
    let mut from = 0;
    // Stays: a step is as long as a streak, so that no range has the places.
    while from < count {
        let to = streak_end(kinds, from, count);
        if kinds[from] == kind && SHORTEST <= to - from {
            calls += (to - from) as u64;
            spent = spent.wrapping_add(lowest[from].saturating_sub(cost));
        }
        from = to;
    }
    Counted { calls, spent }
}

// Prints bytes, if the output takes them.
pub fn print(out: &impl Print, text: &[u8]) {
    let _ = out.write_all(text);
}

// Prints a number's decimal digits, if the output takes them.
pub fn print_number(out: &impl Print, number: u64) {
    let _ = out.print(number);
}

// Prints the nanoseconds of one call of a kind, with one digit after the point, if the output takes them.
pub fn line(
    out: &impl Print,
    name: &[u8],
    kind: u8,
    kinds: &[u8; MOST],
    lowest: &[u64; MOST],
    count: usize,
    cost: u64,
)
    requires { count ≤ 4096 }
{
    let t = total(kind, kinds, lowest, count, cost);
    print(out, name);
    if t.calls == 0 {
        print(out, b" - ns (no streak of 8 calls)\n");
        return;
    }
    let whole = t.spent / t.calls;
    let tenth = 10 * (t.spent % t.calls) / t.calls;
    // Stays: a write for each part. An output that can't take one of them may take the next.
    print(out, b" ");
    print_number(out, whole);
    print(out, b".");
    print_number(out, tenth);
    print(out, b" ns (");
    print_number(out, t.calls);
    print(out, b" counted)\n");
}
