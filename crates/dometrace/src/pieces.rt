// The input in pieces: records that are whole are played, and what is left is kept for the next piece.
ghost use Rattle.std.specs.Prelude.{◌+◌, ◌*◌, ◌≤◌, length, IfOk, IfSome};
ghost use Rattle.link.specs.Given.{StateIn};

use crate::output;
use crate::records::{Record, record_at, words_of};
use calls::RECORD;
use link::Link;
use plan::Plan;
use state::State;
use std::io;
use std::io::{Eprint, Write};
use trace::{Call, Reached, step};
use window::Window;

// Room for the lines of a burst, which has the most.
const ROOM: usize = 43008;

// The bytes of a word.
const WORD: usize = 4;

// A word of a burst, by its place among them.
fn word_call(k: usize, word: u32) -> Call {
    if k < 16 {
        return Call::Word(word);
    }
    Call::Past(word)
}

// Plays the words of a burst.
fn words(s: &mut State, plan: Plan, w: Window, bytes: &[u8], out: &mut [u8], at: usize) -> Reached
    requires { StateIn plan w s.old × (length bytes.now ≤ 80) × (at + 40960 ≤ length out.old) }
    ensures hand { StateIn plan result.window s.new }
    ensures most { result.end ≤ at + 40960 }
{
    let mut end = at;
    let mut on = w;
    for k in 0..bytes.len() / WORD {
        let b = &bytes[WORD * k..WORD * k + WORD];
        let call = word_call(k, u32::from_le_bytes([b[0], b[1], b[2], b[3]]));
        let next = step(s, plan, on, call, out, end);
        on = next.window;
        end = next.end;
    }
    Reached { window: on, end }
}

// Writes two hexadecimal digits for each byte.
fn put_digits(bytes: &[u8], out: &mut [u8], at: usize) -> usize
    requires { at + 2 * length bytes.now ≤ length out.old }
    ensures { result ≤ at + 2 * length bytes.now }
{
    replies::put_hex(bytes, out, at)
}

// Writes the line of bytes that are no call, at most 85. RULES 26.9.
pub(crate) fn put_bytes(bytes: &[u8], out: &mut [u8], at: usize) -> usize
    requires { (at + (2 * length bytes.now + 3)) ≤ length out.old }
    ensures { result ≤ at + (2 * length bytes.now + 3) }
{
    let first = replies::put(b"X ", out, at);
    let last = put_digits(bytes, out, first);
    replies::put(b"\n", out, last)
}

// Plays one record with its words.
fn one(
    s: &mut State,
    plan: Plan,
    w: Window,
    part: &[u8],
    all: bool,
    out: &mut [u8],
    at: usize,
) -> Reached
    requires { StateIn plan w s.old × (5 ≤ length part.now) × (length part.now ≤ 85) × (at + 43008 ≤ length out.old) }
    ensures hand { StateIn plan result.window s.new }
    ensures most { result.end ≤ at + 43008 }
{
    match record_at(part, all) {
        Some(Record::Call(call)) => step(s, plan, w, call, out, at),
        Some(Record::Burst(count)) => {
            let first = trace::write_burst(s, plan, w, count, out, at);
            words(s, plan, w, &part[RECORD..], out, first)
        }
        None => Reached {
            window: w,
            end: put_bytes(part, out, at),
        },
    }
}

// How many bytes the record at a place has with its words, at most 85, if they are all there.
fn whole_at(bytes: &[u8], at: usize, all: bool) -> Option<usize>
    requires { at ≤ length bytes.now }
    ensures { IfSome result (λ size. (5 ≤ size) × (size ≤ 85) × (at + size ≤ length bytes.now)) }
{
    let left = bytes.len() - at;
    if left < RECORD {
        return None;
    }
    let size = RECORD + WORD * words_of(record_at(&bytes[at..], all));
    if left < size {
        return None;
    }
    Some(size)
}

// A link after the whole records of a piece.
#[derive(Clone, Copy)]
pub(crate) struct Played {
    pub(crate) link: Link,
    // bytes of the records
    pub(crate) used: usize,
}

// The place for the lines of the next record: behind those that there are, or the start once these are written, where they leave too little room.
fn place_in(rt: &impl Eprint, output: &mut impl Write, out: &[u8], end: usize) -> io::Result<usize>
    requires { (end ≤ length out.now) × (43008 ≤ length out.now) }
    ensures { IfOk result (λ at. at + 43008 ≤ length out.now) }
{
    if ROOM <= out.len() - end {
        return Ok(end);
    }
    output::write(rt, output, out, end)?;
    Ok(0)
}

// Plays the records of a slice that are whole, and writes their lines.
pub(crate) fn play(
    rt: &impl Eprint,
    output: &mut impl Write,
    link: Link,
    bytes: &[u8],
    all: bool,
    out: &mut [u8],
) -> io::Result<Played>
    requires { 43008 ≤ length out.old }
    ensures { IfOk result (λ played. played.used ≤ length bytes.now) }
{
    let plan = link.plan;
    let mut w = link.window();
    let mut state = link.state;
    let mut end = 0;
    let mut used = 0;
    while let Some(size) = whole_at(bytes, used, all) {
        let at = place_in(rt, output, out, end)?;
        let part = &bytes[used..used + size];
        let next = one(&mut state, plan, w, part, all, out, at);
        w = next.window;
        end = next.end;
        used += size;
    }
    output::write(rt, output, out, end)?;
    let link = Link { plan, state };
    Ok(Played { link, used })
}
