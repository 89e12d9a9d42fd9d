// The word that asks which optional layers to switch on.
#![tactic(auto)]

ghost use Rattle.std.specs.Prelude.{◌+◌, ◌*◌, ◌≤◌, ◌<◌, ◌≡◌, length, get_or};
ghost use Rattle.model.specs.Tables.{table};
ghost use Rattle.extras.specs.Reading.{answer_for};
ghost use Rattle.replies.specs.Lines as said;
ghost use Rattle.extrawords.specs.ExtrasWord as answers;
ghost use Rattle.extrawords.specs.Asked.{struct_asked};

use extras::{Chosen, Extras, MOST, OUT_OF_RANGE};

// Every second number from a place on, twelve of them, and 0 past the last.
fn every_second(numbers: &[usize], from: usize) -> [usize; MOST]
    requires { from < 4 }
    ensures { result ≡ table 12 (λ i. get_or numbers.now (from + 2 * i) 0) }
{
    let mut all = [0usize; MOST];
    for (i, number) in all.iter_mut().enumerate() {
        *number = numbers.get(from + 2 * i).copied().unwrap_or(0);
    }
    all
}

// What the choice is given; layers that are not asked for are all zero.
fn asked(numbers: &[usize]) -> Extras
    requires { 2 ≤ length numbers.now }
    ensures { result ≡ struct_asked numbers.now }
{
    let shares = every_second(numbers, 2);
    let worths = every_second(numbers, 3);
    Extras {
        slots: numbers[0],
        budget: numbers[1],
        count: (numbers.len() - 2) / 2,
        shares,
        worths,
    }
}

// Says mask, worth and ceiling, or the refusal.
fn say_choice(choice: Option<Chosen>, out: &mut [u8]) -> usize
    requires { said.room ≤ length out.old }
    ensures { said.Says (answers.chosen_line (answer_for choice)) out.old out.new result }
{
    match choice {
        Some(c) => replies::say_three(c.mask, c.worth, c.ceiling, out),
        None => replies::say_refusal(OUT_OF_RANGE, out),
    }
}

// Answers the word `extras` and its numbers.
pub fn extras(numbers: &[usize], out: &mut [u8]) -> usize
    requires { said.room ≤ length out.old }
    ensures { said.Says (answers.answer_to_extras numbers.now) out.old out.new result }
{
    if numbers.len() < 2 {
        return replies::say(b"? the slots or the budget is missing\n", out);
    }
    if (numbers.len() - 2) % 2 != 0 {
        return replies::say(
            b"? each layer has a share and a worth: the numbers after the budget are no multiple of two\n",
            out,
        );
    }
    say_choice(extras::choose(asked(numbers)), out)
}
