// Measures the check of streams over the mesh. It reads a word, F and the streams' numbers from standard input, all set apart by single spaces, checks the streams many times and prints the lowest time of a check, less the clock's own, and the sum of all answers.
#![tactic(auto)]

ghost use Rattle.std.specs.Prelude.{◌≤◌, length};

use std::io::Print;
use std::time::Clock;
use timing::{clock, input, report};

// Times that the streams are checked.
const REPEATS: usize = 20000;

// The lowest time of a check, and the sum of all answers.
#[derive(Clone, Copy)]
struct Checked {
    lowest: u64,
    sum: u64,
}

// Checks the streams many times. The first one's share alternates between 1 and 2, or the compiler could leave checks out.
fn repeat(clock: &impl Clock, slots: usize, numbers: &mut [usize]) -> Checked
    requires { 3 ≤ length numbers.old }
{
    let mut lowest = u64::MAX;
    let mut sum = 0u64;
    for i in 0..REPEATS {
        numbers[2] = 1 + i % 2;
        let begin = clock::nanoseconds(clock);
        let answer = mesh::admit(slots, numbers);
        lowest = lowest.min(clock::since(clock, begin));
        let number = match answer {
            Ok(()) => 0,
            Err(refusal) => u64::from(refusal.number()),
        };
        sum = sum.wrapping_add(number);
    }
    Checked { lowest, sum }
}

// Measures the first numbers, F and the streams; false where there is no stream.
fn measure(rt: &(impl Clock + Print), numbers: &mut [usize], count: usize) -> bool {
    if count < 4 || numbers.len() < count {
        return false;
    }
    let slots = numbers[0];
    let checked = repeat(rt, slots, &mut numbers[1..count]);
    report::print(rt, b"check ");
    report::print_number(rt, checked.lowest.saturating_sub(clock::cost(rt)));
    report::print(rt, b" ns\nanswers ");
    report::print_number(rt, checked.sum);
    report::print(rt, b"\n");
    true
}

fn main(rt: HostRuntime) {
    let mut space = [0u8; 4000];
    let got = input::read_full(&mut rt.stdin(), &mut space);
    let mut numbers = [0usize; 256];
    let Ok(count) = tokens::read_numbers(&space[..got], &mut numbers) else {
        report::print(&rt, b"no streams\n");
        return;
    };
    if !measure(&rt, &mut numbers, count) {
        report::print(&rt, b"no streams\n");
    }
}
