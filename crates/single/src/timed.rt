// Calls of one kind, by value, one after the other, and the time that they take.

use crate::several;
use burst::burst_first;
use calls::Answer;
use link::{Link, Step};
use std::time::Clock;
use timing::clock;
use timing::file::Kind;

// The most requests of a burst.
const BURST: usize = 16;

// A link after some calls, with the last answer; the sum of their answers, and the nanoseconds that they took.
#[derive(Clone, Copy)]
pub(crate) struct Timed {
    pub step: Step,
    pub sum: u64,
    pub spent: u64,
}

// An answer as a number.
fn number(answer: Answer) -> u64 {
    match answer {
        Answer::Granted(word) => u64::from(word),
        Answer::Booked(flow) | Answer::Lent(flow) => u64::from(flow),
        Answer::Idle => 16,
        Answer::Accepted | Answer::Reset => 1,
        Answer::Refused(number) => u64::from(number),
    }
}

// Makes calls one by one, each from its number. Every answer is used within the time, or the compiler could leave out what makes it.
fn singles<F: Fn(Link, u32) -> Step>(
    clock: &impl Clock,
    first: Step,
    words: &[u32],
    make: F,
) -> Timed
    requires { F.IsAlwaysCallable make }
{
    let mut step = first;
    let mut sum: u64 = 0;
    let begin = clock::nanoseconds(clock);
    for word in words {
        step = make(step.link, *word);
        sum = sum.wrapping_add(number(step.answer));
    }
    let spent = clock::since(clock, begin);
    Timed { step, sum, spent }
}

// The flow of a credit: the low byte.
fn flow(word: u32) -> usize {
    (word % 256) as usize
}

// The position of a credit: the two bytes after.
fn position(word: u32) -> usize {
    (word / 256 % 65536) as usize
}

// Makes credits one by one. Stays beside the others: with the call as a closure, or chosen in the loop, the link is copied once more for each credit.
fn credits(clock: &impl Clock, first: Step, words: &[u32]) -> Timed {
    let mut step = first;
    let mut sum: u64 = 0;
    let begin = clock::nanoseconds(clock);
    for word in words {
        step = step.link.credit(flow(*word), position(*word));
        sum = sum.wrapping_add(number(step.answer));
    }
    let spent = clock::since(clock, begin);
    Timed { step, sum, spent }
}

// The requests of a streak as bursts of 16; the last may have fewer. No more than `most` words of each are asked: where that is 0, a burst is what it
// takes to hand the link over and back.
fn bursts(clock: &impl Clock, first: Step, words: &[u32], most: usize) -> Timed {
    let mut back = several::none(first.link);
    let mut sum: u64 = 0;
    let begin = clock::nanoseconds(clock);
    for part in words.chunks(BURST) {
        let asked = part.len().min(BURST).min(most);
        back = burst_first(back.link, several::asks(&part[..asked]), asked);
        // Stays: the records are taken out. Read in place, behind the link, they keep it from being handed on without a copy more.
        let records = back.records;
        sum = sum.wrapping_add(several::answers(&records[..asked]));
    }
    let spent = clock::since(clock, begin);
    let step = Step {
        link: back.link,
        answer: Answer::Idle,
    };
    Timed { step, sum, spent }
}

// Plays a streak, calls of one kind: requests in bursts of at most so many words, and one by one where that is 1.
pub(crate) fn streak(
    clock: &impl Clock,
    step: Step,
    kind: Kind,
    words: &[u32],
    most: usize,
) -> Timed {
    match kind {
        Kind::Request if most != 1 => bursts(clock, step, words, most),
        Kind::Request => singles(clock, step, words, |link, word| link.request(word)),
        Kind::Credit => credits(clock, step, words),
        Kind::Tick => singles(clock, step, words, |link, _| link.tick()),
    }
}
