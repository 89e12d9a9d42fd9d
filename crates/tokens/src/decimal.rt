// Decimal numbers.
ghost use Rattle.std.specs.Prelude.{◌≡◌, ◌≤◌, length};
ghost use Rattle.std.proofs.lemmas.List.Edits.{sets};
ghost use Rattle.tokens.specs.Pieces.{each, fields_of};
ghost use Rattle.tokens.specs.Decimal.{is_digit, value_from, number_of, numbers_in, found_in};

use crate::pieces::piece_end;
use crate::{Fault, MOST_DIGITS, keep};

fn all_digits(piece: &[u8]) -> bool
    ensures { result ≡ each is_digit piece.now }
{
    piece.iter().all(|byte| matches!(*byte, b'0'..=b'9'))
}

// The number of at most nine digits.
fn value(piece: &[u8]) -> usize
    requires { length piece.now ≤ 9 }
    ensures { result ≡ value_from 0 piece.now }
{
    let mut value = 0;
    for byte in piece {
        value = value * 10 + usize::from(byte.saturating_sub(b'0'));
    }
    value
}

// Reads a number's field.
#[tactic(auto, using(std::proofs::lemmas::Bool::Decides::nat_tests), unfolding(crate::specs::Decimal::number_of))]
pub fn read_number(field: &[u8]) -> Result<usize, Fault>
    ensures { result ≡ number_of field.now }
{
    if field.is_empty() {
        return Err(Fault::Missing);
    }
    if !all_digits(field) {
        return Err(Fault::NoDigit);
    }
    if MOST_DIGITS < field.len() {
        return Err(Fault::LongNumber);
    }
    Ok(value(field))
}

// Reads the numbers after a line's word, up to the first that is none, and counts them. They are kept from the start of `kept` on, as many as have a place there.
pub fn read_numbers(line: &[u8], kept: &mut [usize]) -> Result<usize, Fault>
    ensures found { result ≡ found_in (fields_of line.now) }
    ensures kept { kept.new ≡ sets kept.old 0 (numbers_in (fields_of line.now)) }
{
    let mut count = 0;
    let mut at = piece_end(line, 0);
    while at < line.len() {
        let end = piece_end(line, at + 1);
        let n = read_number(&line[at + 1..end])?;
        keep(n, kept, count);
        count += 1;
        at = end;
    }
    Ok(count)
}
