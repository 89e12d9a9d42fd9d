// Hexadecimal digits of either case, two to a byte.
ghost use Rattle.std.specs.Prelude.{◌≡◌, ◌+◌, ◌*◌, ◌<◌};
ghost use Rattle.std.proofs.lemmas.List.Edits.{sets};
ghost use Rattle.tokens.specs.Pieces.{each};
ghost use Rattle.tokens.specs.Hexadecimal.{hex_digit, is_hex_digit, bytes_of, found_bytes, kept_of};

use crate::{Fault, keep};

// The digit that a byte is.
#[tactic(auto, using(std::proofs::lemmas::Bool::Decides::nat_tests), unfolding(crate::specs::Hexadecimal::hex_digit))]
fn digit(byte: u8) -> u8
    requires { hex_digit byte < 16 }
    ensures { result ≡ hex_digit byte }
{
    match byte {
        ..=b'9' => byte - b'0',
        ..=b'F' => byte - b'A' + 10,
        _ => byte - b'a' + 10,
    }
}

#[tactic(auto, using(crate::proofs::BytesRead::hexdigit_same))]
fn is_digit(byte: u8) -> bool
    ensures { result ≡ is_hex_digit byte }
{
    byte.is_ascii_hexdigit()
}

fn all_digits(text: &[u8]) -> bool
    ensures { result ≡ each is_hex_digit text.now }
{
    text.iter().all(|byte| is_digit(*byte))
}

// The byte of two digits.
fn pair(high: u8, low: u8) -> u8
    requires { (hex_digit high < 16) × (hex_digit low < 16) }
    ensures { result ≡ 16 * hex_digit high + hex_digit low }
{
    16 * digit(high) + digit(low)
}

// Reads digits to bytes, if there is nothing wrong with them, and counts these. They are kept from the start of `kept` on, as many as have a place there.
pub fn read_bytes(digits: &[u8], kept: &mut [u8]) -> Result<usize, Fault>
    ensures found { result ≡ found_bytes digits.now }
    ensures kept { kept.new ≡ sets kept.old 0 (kept_of result (bytes_of digits.now)) }
{
    if !all_digits(digits) {
        return Err(Fault::NoHexDigit);
    }
    if digits.len() % 2 != 0 {
        return Err(Fault::OddDigits);
    }
    let count = digits.len() / 2;
    for i in 0..count.min(kept.len()) {
        keep(pair(digits[2 * i], digits[2 * i + 1]), kept, i);
    }
    Ok(count)
}
