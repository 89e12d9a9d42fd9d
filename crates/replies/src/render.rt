// What answers are made of: texts, numbers, hexadecimal digits.
ghost use Rattle.std.specs.Prelude.{◌+◌, ◌*◌, ◌≤◌, ◌<◌, ◌≡◌, length};
ghost use Rattle.model.specs.Listing.{decimal, refusal_line};
ghost use Rattle.calls.specs.Lines.{Puts};
ghost use Rattle.replies.specs.Lines.{hex, hex_glyph, spaced, three_line, fault_line, room, Says};

use tokens::Fault;

// Stores bytes from a place on; the place after them.
pub fn put(bytes: &[u8], out: &mut [u8], at: usize) -> usize
    requires { at + length bytes.now ≤ length out.old }
    ensures { Puts bytes.now out.old out.new at result }
{
    let end = at + bytes.len();
    out[at..end].copy_from_slice(bytes);
    end
}

// Stores a number's decimal digits.
pub fn put_decimal(n: usize, out: &mut [u8], at: usize) -> usize
    requires { at + length (decimal n) ≤ length out.old }
    ensures { Puts (decimal n) out.old out.new at result }
{
    if n < 10 {
        out[at] = b'0' + n as u8;
        return at + 1;
    }
    let last = put_decimal(n / 10, out, at);
    out[last] = b'0' + (n % 10) as u8;
    last + 1
}

// Stores a space and a number, for which 21 bytes suffice.
pub fn put_number(n: usize, out: &mut [u8], at: usize) -> usize
    requires { at + 21 ≤ length out.old }
    ensures put { Puts (spaced n) out.old out.new at result }
    ensures most { result ≤ at + 21 }
{
    out[at] = b' ';
    put_decimal(n, out, at + 1)
}

// Stores a number at the start of a line, for which 20 bytes suffice.
pub fn put_first(n: usize, out: &mut [u8]) -> usize
    requires { 20 ≤ length out.old }
    ensures put { Puts (decimal n) out.old out.new 0 result }
    ensures most { result ≤ 20 }
{
    put_decimal(n, out, 0)
}

fn hex_glyph(n: u8) -> u8
    requires { n < 16 }
    ensures { result ≡ hex_glyph n }
{
    if n < 10 { b'0' + n } else { b'a' + (n - 10) }
}

// Stores two hexadecimal digits for each byte.
pub fn put_hex(bytes: &[u8], out: &mut [u8], at: usize) -> usize
    requires { at + 2 * length bytes.now ≤ length out.old }
    ensures { Puts (hex bytes.now) out.old out.new at result }
{
    for (i, byte) in bytes.iter().enumerate() {
        out[at + 2 * i] = hex_glyph(*byte / 16);
        out[at + 2 * i + 1] = hex_glyph(*byte % 16);
    }
    at + 2 * bytes.len()
}

// Says a text and nothing more.
pub fn say(answer: &[u8], out: &mut [u8]) -> usize
    requires { length answer.now ≤ length out.old }
    ensures { Says answer.now out.old out.new result }
{
    put(answer, out, 0)
}

// Says three numbers.
pub fn say_three(first: usize, second: usize, third: usize, out: &mut [u8]) -> usize
    requires { room ≤ length out.old }
    ensures { Says (three_line first second third) out.old out.new result }
{
    let one = put_first(first, out);
    let two = put_number(second, out, one);
    let three = put_number(third, out, two);
    put(b"\n", out, three)
}

// Says a refusal.
pub fn say_refusal(number: u8, out: &mut [u8]) -> usize
    requires { 7 ≤ length out.old }
    ensures { Says (refusal_line number) out.old out.new result }
{
    calls::write_refusal(number, out, 0)
}

// Says what is wrong with a field.
#[tactic(auto, unfolding(crate::specs::Lines::fault_line))]
pub fn say_fault(fault: Fault, out: &mut [u8]) -> usize
    requires { 100 ≤ length out.old }
    ensures { Says (fault_line fault) out.old out.new result }
{
    match fault {
        Fault::Missing => say(
            b"? a number is missing: words and numbers are set apart by single spaces\n",
            out,
        ),
        Fault::NoDigit => say(b"? a number has a byte that is no digit\n", out),
        Fault::LongNumber => say(b"? a number has more than nine digits\n", out),
        Fault::NoHexDigit => say(b"? a byte is no hexadecimal digit\n", out),
        Fault::OddDigits => say(b"? the number of hexadecimal digits is odd\n", out),
    }
}
