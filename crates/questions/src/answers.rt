// The answer to a line.
ghost use Rattle.std.specs.Prelude.{◌≤◌, length};
ghost use Rattle.tokens.specs.Pieces.{word_of};
ghost use Rattle.replies.specs.Lines as said;
ghost use Rattle.questions.specs.Answers as answers;

use crate::keywords::{NumberWord, Word};
use crate::{LONGEST, keywords};

// Reads the numbers after a word that asks for some, and answers them. A line has at most half as many numbers as bytes.
fn answer_counted(word: NumberWord, line: &[u8], out: &mut [u8]) -> usize
    requires { (length line.now ≤ 4000) × (said.room ≤ length out.old) }
    ensures { said.Says (answers.answer_to (Word.OfNumbers word) line.now) out.old out.new result }
{
    let mut numbers = [0usize; 2000];
    match tokens::read_numbers(line, &mut numbers) {
        Ok(count) => keywords::answer_numbers(word, &numbers[..count], out),
        Err(fault) => replies::say_fault(fault, out),
    }
}

// Answers a line that is short enough.
fn answer_short(line: &[u8], out: &mut [u8]) -> usize
    requires { (length line.now ≤ 4000) × (said.room ≤ length out.old) }
    ensures { said.Says (answers.answer_to (answers.word_for (word_of line.now)) line.now) out.old out.new result }
{
    let end = tokens::piece_end(line, 0);
    let word = keywords::named(&line[..end]);
    match word {
        Word::OfNumbers(number_word) => answer_counted(number_word, line, out),
        Word::Read => planwords::read(line, out),
        Word::Unknown => replies::say(
            b"? the first word is none of plan, room, read, mesh, mesh-over, count, extras, programme, delay, faults and week-faults\n",
            out,
        ),
    }
}

// Puts the answer to a line, which is given without its newline, at the start of `out`; how many bytes it has.
pub(crate) fn answer(line: &[u8], out: &mut [u8]) -> usize
    requires { said.room ≤ length out.old }
    ensures { said.Says (answers.answer_of line.now) out.old out.new result }
{
    if LONGEST < line.len() {
        return replies::say(b"? the line has more than 4,000 bytes\n", out);
    }
    answer_short(line, out)
}
