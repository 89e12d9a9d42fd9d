// Measures single calls by value, and requests in bursts of 16 and of none. It reads a call file of at most 4096 calls from standard input, plays it many times and times each streak, the calls of one kind in a row. The lowest time of each streak counts, less the clock's own.
#![tactic(auto)]

mod several;
mod timed;

ghost use Rattle.std.specs.Prelude.{◌≤◌};
ghost use Rattle.plan.specs.Reading.{Valid};

use calls::Answer;
use link::{Link, Step};
use plan::Plan;
use std::io::Print;
use std::time::Clock;
use timing::file::{Kind, MOST};
use timing::{clock, file, input, report};

// Times that the file is played.
const REPEATS: usize = 200;

// The bytes of the longest file that is played: a plan of 16 flows has 76 bytes, and a call has 5.
const LONGEST: usize = 76 + 5 * MOST;

// The calls of a file, taken apart: the kind and the number of each of the first `count`.
#[derive(Drop)]
struct Calls {
    kinds: [u8; MOST],
    words: [u32; MOST],
    count: usize,
}

// Plays the calls on a fresh link and keeps the lowest time of each streak, at its first call; the sum of all answers.
fn play(clock: &impl Clock, plan: Plan, calls: &Calls, lowest: &mut [u64; MOST], most: usize) -> u64
    requires { Valid plan × (calls.now.count ≤ 4096) }
{
    let mut step = Step {
        link: Link::fresh(plan),
        answer: Answer::Idle,
    };
    let mut sum: u64 = 0;
    let mut from = 0;
    // Stays: a step is as long as a streak, so that no range has the places.
    while from < calls.count {
        let Some(kind) = file::kind_of(calls.kinds[from]) else {
            break;
        };
        let to = file::streak_end(&calls.kinds, from, calls.count);
        let t = timed::streak(clock, step, kind, &calls.words[from..to], most);
        step = t.step;
        lowest[from] = lowest[from].min(t.spent);
        sum = sum.wrapping_add(t.sum);
        from = to;
    }
    sum
}

// Plays the calls many times over; the sum of all answers.
fn repeat(
    clock: &impl Clock,
    plan: Plan,
    calls: &Calls,
    lowest: &mut [u64; MOST],
    most: usize,
) -> u64
    requires { Valid plan × (calls.now.count ≤ 4096) }
{
    let mut sum = 0;
    for _ in 0..REPEATS {
        sum = play(clock, plan, calls, lowest, most);
    }
    sum
}

// Prints a line of the calls of a kind, with the lowest times of their streaks.
fn line(out: &impl Print, name: &[u8], kind: Kind, calls: &Calls, lowest: &[u64; MOST], cost: u64)
    requires { calls.now.count ≤ 4096 }
{
    report::line(
        out,
        name,
        kind as u8,
        &calls.kinds,
        lowest,
        calls.count,
        cost,
    );
}

// Plays the calls, and prints a line for each kind of call, and one for requests in bursts and for bursts of no words.
fn measure(rt: &(impl Clock + Print), plan: Plan, calls: &Calls)
    requires { Valid plan × (calls.now.count ≤ 4096) }
{
    let cost = clock::cost(rt);
    let mut single = [u64::MAX; MOST];
    let sum = repeat(rt, plan, calls, &mut single, 1);
    let mut several = [u64::MAX; MOST];
    let same = repeat(rt, plan, calls, &mut several, 16);
    let mut floor = [u64::MAX; MOST];
    repeat(rt, plan, calls, &mut floor, 0);
    line(rt, b"request", Kind::Request, calls, &single, cost);
    line(rt, b"burst", Kind::Request, calls, &several, cost);
    line(rt, b"floor", Kind::Request, calls, &floor, cost);
    line(rt, b"credit", Kind::Credit, calls, &single, cost);
    line(rt, b"tick", Kind::Tick, calls, &single, cost);
    report::print(rt, b"answers ");
    report::print_number(rt, sum);
    report::print(rt, b"\nin bursts ");
    report::print_number(rt, same);
    report::print(rt, b"\n");
}

// Takes the records apart, and measures their calls.
fn split(rt: &(impl Clock + Print), plan: Plan, records: &[u8])
    requires { Valid plan }
{
    let mut calls = Calls {
        kinds: [0; MOST],
        words: [0; MOST],
        count: 0,
    };
    calls.count = file::split(records, &mut calls.kinds, &mut calls.words);
    measure(rt, plan, &calls);
}

// Reads the plan at the start of the bytes, and measures the calls after it; none where no plan that is accepted stands there.
fn begin(rt: &(impl Clock + Print), bytes: &[u8]) -> Option<()> {
    if bytes.len() < 12 {
        return None;
    }
    let total = usize::from(file::two_bytes(bytes, 0));
    if bytes.len() < total {
        return None;
    }
    let plan = plan::read(&bytes[..total]).ok()?;
    split(rt, plan, &bytes[total..]);
    Some(())
}

fn main(rt: HostRuntime) {
    let mut space = [0u8; LONGEST];
    let got = input::read_full(&mut rt.stdin(), &mut space);
    if begin(&rt, &space[..got]).is_none() {
        let _ = println!(&rt; "no calls");
    }
}
