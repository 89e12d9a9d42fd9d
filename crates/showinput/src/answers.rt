// The answer to an input.
ghost use Rattle.std.specs.Prelude.{◌≤◌, ◌≡◌, length, take};
ghost use Rattle.replies.specs.Lines.{Says};
ghost use Rattle.showwords.specs.Links.{room};
ghost use Rattle.showinput.specs.Input.{question_of, question_line, answer_to};

use crate::LONGEST;

// Where the question ends: a newline after it is no part of it.
fn question_end(input: &[u8]) -> usize
    ensures few { result ≤ length input.now }
    ensures is { take result input.now ≡ question_of input.now }
{
    input.strip_suffix(b"\n").unwrap_or(input).len()
}

// Reads a question's numbers, and answers them. It has at most half as many numbers as bytes.
fn answer_short(question: &[u8], out: &mut [u8]) -> usize
    requires { (length question.now ≤ 4000) × (room ≤ length out.old) }
    ensures { Says (question_line question.now) out.old out.new result }
{
    let mut numbers = [0usize; 2000];
    match tokens::read_numbers(question, &mut numbers) {
        Ok(count) => showwords::show(&numbers[..count], out),
        Err(fault) => replies::say_fault(fault, out),
    }
}

// Puts the answer to an input at the start of `out`; how many bytes it has.
pub(crate) fn answer(input: &[u8], out: &mut [u8]) -> usize
    requires { room ≤ length out.old }
    ensures { Says (answer_to input.now) out.old out.new result }
{
    let end = question_end(input);
    if LONGEST < end {
        return replies::say(b"? the question has more than 4,000 bytes\n", out);
    }
    answer_short(&input[..end], out)
}
