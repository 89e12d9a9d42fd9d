// The lines of granted positions and of ticks, made for many records at once and kept in two parts of four bytes each, which overlap; and
// the lines of what requests come to and of a credit that is taken.
#![tactic(auto)]

ghost use Rattle.std.specs.Prelude.{◌≡◌, cond, ◌∷◌, [], ◌+◌, ◌<◌, ◌≤◌, eqb, length};
ghost use Rattle.std.proofs.lemmas.List.Edits.{sets};
ghost use Rattle.model.specs.Calls.{accepted};
ghost use Rattle.model.specs.Listing.{credit_line, refusal_line};
ghost use Rattle.calls.specs.Lines.{number_line, Puts};
ghost use Rattle.linetable.specs.Lines.{four, text_of, Kept, line_at, AllLines};

use std::array;

// A line of four to seven bytes.
#[derive(Clone, Copy)]
pub struct Line {
    // its first four bytes, low byte first
    pub first: u32,
    // its last four
    pub last: u32,
    // how many bytes it has past the first four, modulo four
    pub past: u8,
}

// The place of the first line of a tick: those of 256 granted positions stand before it.
pub const TICKS: usize = 256;
// The place of an idle tick's line, that of nobody's number, 16: those of 16 flows stand before it.
const IDLE: usize = 272;

// Four bytes in one number, low byte first.
fn pack(a: u8, b: u8, c: u8, d: u8) -> u32
    ensures { four result ≡ a ∷ b ∷ c ∷ d ∷ [] }
{
    u32::from_le_bytes([a, b, c, d])
}

// The line of a letter and a number.
fn number_line(letter: u8, n: u8) -> Line
    ensures { Kept (number_line letter n) result }
{
    let ones = b'0' + n % 10;
    if n < 10 {
        let chunk = pack(letter, b' ', ones, b'\n');
        return Line {
            first: chunk,
            last: chunk,
            past: 0,
        };
    }
    let tens = b'0' + n / 10 % 10;
    if n < 100 {
        return Line {
            first: pack(letter, b' ', tens, ones),
            last: pack(b' ', tens, ones, b'\n'),
            past: 1,
        };
    }
    let hundreds = b'0' + n / 100;
    Line {
        first: pack(letter, b' ', hundreds, tens),
        last: pack(hundreds, tens, ones, b'\n'),
        past: 2,
    }
}

// The line at place k: position k is granted, the slot is flow k - 256's, or nobody's.
fn line_at(k: usize) -> Line
    ensures { Kept (line_at k) result }
{
    if k < TICKS {
        return number_line(b'G', k as u8);
    }
    if k < IDLE {
        return number_line(b'T', (k - TICKS) as u8);
    }
    let chunk = pack(b'T', b' ', b'-', b'\n');
    Line {
        first: chunk,
        last: chunk,
        past: 0,
    }
}

// The lines of all granted positions and of all ticks, each at its place.
pub fn lines() -> [Line; 273]
    ensures { AllLines result }
{
    array::from_fn(line_at)
}

// Stores four bytes.
fn put_four(chunk: u32, out: &mut [u8], at: usize)
    requires { at + 3 < length out.old }
    ensures { out.new ≡ sets out.old at (four chunk) }
{
    out[at..at + 4].copy_from_slice(&chunk.to_le_bytes());
}

// Writes a line where the longest has room, and returns the place after it.
pub fn write(line: Line, out: &mut [u8], at: usize) -> usize
    requires { at + 7 ≤ length out.old }
    ensures put { Puts (text_of line) out.old out.new at result }
    ensures most { result ≤ at + 7 }
{
    let past = usize::from(line.past % 4);
    put_four(line.last, out, at + past);
    put_four(line.first, out, at);
    at + past + 4
}

// Writes what a request comes to, where the longest line has room, and returns the place after it: the refusal that a number is, or a line where
// the number is 0.
pub fn write_reply(number: u8, line: Line, out: &mut [u8], at: usize) -> usize
    requires { at + 7 ≤ length out.old }
    ensures put { Puts (cond (eqb number 0) (text_of line) (refusal_line number)) out.old out.new at result }
    ensures most { result ≤ at + 7 }
{
    if number != 0 {
        return calls::write_refusal(number, out, at);
    }
    write(line, out, at)
}

// Writes the line of a credit that is taken where the longest has room, and returns the place after it.
pub fn write_accepted(out: &mut [u8], at: usize) -> usize
    requires { at + 7 ≤ length out.old }
    ensures put { Puts (credit_line (accepted tt)) out.old out.new at result }
    ensures most { result ≤ at + 7 }
{
    out[at] = b'C';
    out[at + 1] = b'\n';
    at + 2
}
