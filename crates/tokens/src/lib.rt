// The fields of a line, set apart by single spaces: a word, and decimal numbers or hexadecimal digits after it.
#![tactic(auto)]

mod decimal;
mod hexadecimal;
mod pieces;

ghost use Rattle.std.specs.Prelude.{◌≡◌, slice_set};

pub use decimal::{read_number, read_numbers};
pub use hexadecimal::read_bytes;
pub use pieces::piece_end;

// The most digits of a number.
pub const MOST_DIGITS: usize = 9;

// What is wrong with a field.
#[derive(Clone, Copy, Debug, PartialEq, Eq)]
pub enum Fault {
    // Nothing stands after a space.
    Missing,
    // A byte of a number is no digit.
    NoDigit,
    // A number has more than nine digits.
    LongNumber,
    // A byte is no hexadecimal digit.
    NoHexDigit,
    // The hexadecimal digits don't pair up to bytes.
    OddDigits,
}

// Keeps a value at its place, if there is such a place.
fn keep<T: Copy>(value: T, kept: &mut [T], place: usize)
    ensures { kept.new ≡ slice_set kept.old place value }
{
    if place < kept.len() {
        kept[place] = value;
    }
}
