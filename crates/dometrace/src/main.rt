// Plays a file of calls, and writes what is so after each of them. With an argument it takes lends, resets and bursts too. RULES 26.1.
#![tactic(auto)]

mod input;
mod output;
mod pieces;
mod records;

ghost use Rattle.std.specs.Prelude.{◌≤◌, length, IfOk, IfSome};

use link::Link;
use pieces::{play, put_bytes};
use std::env::{Env, FillError};
use std::io;
use std::io::{Eprint, Read, Write};

// A link after some pieces of the input.
#[derive(Clone, Copy)]
struct Round {
    link: Link,
    // bytes at the start of the space that are not played yet
    kept: usize,
}

// Writes the line of what is left at the end of the input, if there is something.
fn finish(rt: &impl Eprint, output: &mut impl Write, rest: &[u8], out: &mut [u8]) -> io::Result<()>
    requires { (length rest.now ≤ 65536) × (131075 ≤ length out.old) }
{
    if rest.is_empty() {
        return Ok(());
    }
    let end = put_bytes(rest, out, 0);
    output::write(rt, output, out, end)
}

// Reads once behind what is kept, and plays what is whole; none where nothing comes. At the end of the input the rest is a record that is no call.
fn round_once(
    rt: &impl Eprint,
    input: &mut impl Read,
    output: &mut impl Write,
    round: Round,
    all: bool,
    space: &mut [u8],
    out: &mut [u8],
) -> io::Result<Option<Round>>
    requires { (round.kept ≤ length space.old) × (length space.old ≤ 65536) × (131075 ≤ length out.old) }
    ensures { IfOk result (λ on. IfSome on (λ next. next.kept ≤ length space.new)) }
{
    let Ok(got) = input.read(&mut space[round.kept..]) else {
        output::input_lost(rt);
        return Ok(None);
    };
    if got == 0 {
        finish(rt, output, &space[..round.kept], out)?;
        return Ok(None);
    }
    let have = round.kept + got;
    let played = play(rt, output, round.link, &space[..have], all, out)?;
    space.copy_within(played.used..have, 0);
    Ok(Some(Round {
        link: played.link,
        kept: have - played.used,
    }))
}

// Reads and plays to the end of the input. A proved loop has to end: its rounds have a number that is never used up.
fn rounds(
    rt: &impl Eprint,
    input: &mut impl Read,
    output: &mut impl Write,
    link: Link,
    all: bool,
    space: &mut [u8],
    out: &mut [u8],
) -> io::Result<()>
    requires { (length space.old ≤ 65536) × (131075 ≤ length out.old) }
{
    let mut now = Round { link, kept: 0 };
    for _ in 0..u64::MAX {
        let Some(next) = round_once(rt, input, output, now, all, space, out)? else {
            break;
        };
        now = next;
    }
    Ok(())
}

// Writes the plan's lines, and plays what comes after an accepted plan.
fn begin(
    rt: &impl Eprint,
    input: &mut impl Read,
    output: &mut impl Write,
    all: bool,
    space: &mut [u8],
    out: &mut [u8],
) -> io::Result<()>
    requires { (76 ≤ length space.old) × (length space.old ≤ 65536) × (131075 ≤ length out.old) }
{
    let Ok(total) = input::read_plan(input, space) else {
        output::input_lost(rt);
        return Ok(());
    };
    match plan::read(&space[..total]) {
        Err(refusal) => {
            let end = calls::write_plan(refusal.number(), out, 0);
            output::write(rt, output, out, end)
        }
        Ok(plan) => {
            let end = trace::write_plan(plan, out, 0);
            output::write(rt, output, out, end)?;
            rounds(rt, input, output, Link::fresh(plan), all, space, out)
        }
    }
}

// Whether an argument follows the program's name.
fn has_argument(rt: &impl Env) -> bool {
    let mut first = [0u8; 1];
    match rt.arg(1, &mut first) {
        Err(FillError::NotPresent) => false,
        Err(FillError::TooLong) | Ok(_) => true,
    }
}

fn main(rt: HostRuntime) {
    let all = has_argument(&rt);
    let mut space = [0u8; 65536];
    let mut out = [0u8; 131075];
    let mut input = rt.stdin();
    if input::is_lost(&mut input) {
        output::input_lost(&rt);
        return;
    }
    // what was lost is said
    let _ = begin(&rt, &mut input, &mut rt.stdout(), all, &mut space, &mut out);
}
