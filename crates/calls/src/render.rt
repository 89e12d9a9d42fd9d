// Lines: a letter, then a space and what is said unless the letter is C or Z, and a newline.
ghost use Rattle.std.specs.Prelude.{◌≡◌, ◌∷◌, [], ◌+◌, ◌<◌, ◌≤◌, length};
ghost use Rattle.model.specs.Listing.{plan_line};
ghost use Rattle.calls.specs.Reading.{line_for};
ghost use Rattle.calls.specs.Lines.{Puts, digit_at, number_line, room, out_with, next_after};

use crate::{Answer, LONGEST_LINE};

fn put_pair(a: u8, b: u8, out: &mut [u8], at: usize) -> usize
    requires { at + 1 < length out.old }
    ensures { Puts (a ∷ b ∷ []) out.old out.new at result }
{
    out[at] = a;
    out[at + 1] = b;
    at + 2
}

// The digit of n at a place, thousands, hundreds or tens, if n has one there.
#[tactic(auto, using(std::proofs::lemmas::Bool::Decides::nat_tests, crate::proofs::Stores::puts_none, crate::proofs::Stores::puts_one), unfolding(crate::specs::Lines::digit_at))]
fn put_digit(n: u32, place: u32, out: &mut [u8], at: usize) -> usize
    requires { (0 < place) × (at < length out.old) }
    ensures put { Puts (digit_at place n) out.old out.new at result }
    ensures one { result ≤ at + 1 }
{
    if n < place {
        return at;
    }
    out[at] = b'0' + (n / place % 10) as u8;
    at + 1
}

// A letter and a number below 10,000.
fn put_number(letter: u8, n: u32, out: &mut [u8], at: usize) -> usize
    requires { (n < 10000) × (at + 7 ≤ length out.old) }
    ensures put { Puts (number_line letter n) out.old out.new at result }
    ensures most { result ≤ at + 7 }
{
    let a = put_pair(letter, b' ', out, at);
    let b = put_digit(n, 1000, out, a);
    let c = put_digit(n, 100, out, b);
    let d = put_digit(n, 10, out, c);
    put_pair(b'0' + (n % 10) as u8, b'\n', out, d)
}

// Whether the longest line has room at a place.
#[tactic(auto, using(std::proofs::lemmas::Bool::Decides::nat_tests), unfolding(crate::specs::Lines::room))]
pub fn has_room(out: &[u8], at: usize) -> bool
    ensures { result ≡ room out.now at }
{
    LONGEST_LINE <= out.len() && at <= out.len() - LONGEST_LINE
}

// Writes an answer's line and returns the place after it. Where the longest line has no room it writes nothing and returns the same place.
// That a line has at most seven bytes is stated so that callers find it.
#[tactic(auto, using(std::proofs::lemmas::Bool::Decides::nat_tests), unfolding(crate::specs::Lines::room, crate::specs::Lines::out_with, crate::specs::Lines::next_after))]
pub fn write(answer: Answer, out: &mut [u8], at: usize) -> usize
    ensures out { out.new ≡ out_with (line_for answer) out.old at }
    ensures next { result ≡ next_after (line_for answer) out.old at }
    ensures most { result ≤ at + 7 }
{
    if !has_room(out, at) {
        return at;
    }
    match answer {
        Answer::Granted(word) => put_number(b'G', word % 1024, out, at),
        Answer::Accepted => put_pair(b'C', b'\n', out, at),
        Answer::Booked(flow) => put_number(b'T', u32::from(flow), out, at),
        Answer::Idle => {
            let next = put_pair(b'T', b' ', out, at);
            put_pair(b'-', b'\n', out, next)
        }
        Answer::Lent(flow) => put_number(b'L', u32::from(flow), out, at),
        Answer::Reset => put_pair(b'Z', b'\n', out, at),
        Answer::Refused(number) => put_number(b'R', u32::from(number), out, at),
    }
}

// A letter and a number, where the longest line has room; otherwise nothing is written and the same place is returned.
#[tactic(auto, using(std::proofs::lemmas::Bool::Decides::nat_tests), unfolding(crate::specs::Lines::room, crate::specs::Lines::out_with, crate::specs::Lines::next_after))]
fn put_line(letter: u8, number: u8, out: &mut [u8], at: usize) -> usize
    ensures out { out.new ≡ out_with (number_line letter number) out.old at }
    ensures next { result ≡ next_after (number_line letter number) out.old at }
    ensures most { result ≤ at + 7 }
{
    if !has_room(out, at) {
        return at;
    }
    put_number(letter, u32::from(number), out, at)
}

// Writes a plan's line, `P` and the refusal or `P 0`, and returns the place after it; without room as in `write`.
pub fn write_plan(number: u8, out: &mut [u8], at: usize) -> usize
    ensures out { out.new ≡ out_with (plan_line number) out.old at }
    ensures next { result ≡ next_after (plan_line number) out.old at }
    ensures most { result ≤ at + 7 }
{
    put_line(b'P', number, out, at)
}

// Writes the line of a refusal, the one that `write` writes for that answer.
pub fn write_refusal(number: u8, out: &mut [u8], at: usize) -> usize
    ensures out { out.new ≡ out_with (line_for (Answer.Refused number)) out.old at }
    ensures next { result ≡ next_after (line_for (Answer.Refused number)) out.old at }
    ensures most { result ≤ at + 7 }
{
    put_line(b'R', number, out, at)
}
