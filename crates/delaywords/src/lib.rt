// The word that asks when a tile arrives.
#![tactic(auto)]

ghost use Rattle.std.specs.Prelude.{◌≤◌, length};
ghost use Rattle.delay.specs.Reading.{told};
ghost use Rattle.replies.specs.Lines.{room, Says};
ghost use Rattle.delaywords.specs.DelayWord.{line_for, answer_to_delay};

use delay::{Bounds, Unanswered};

// Says what a stream can count on, or the refusal.
fn say_delayed(answer: Result<Bounds, Unanswered>, out: &mut [u8]) -> usize
    requires { room ≤ length out.old }
    ensures { Says (line_for (told answer)) out.old out.new result }
{
    match answer {
        Ok(
            Bounds {
                slots,
                cells,
                shown,
            },
        ) => replies::say_three(slots, cells, shown, out),
        Err(Unanswered::Refused(refusal)) => replies::say_refusal(refusal.number(), out),
        Err(Unanswered::NoQuestion) => replies::say(
            b"? the links are 1 to 14, and the burst 0 to 999\n",
            out,
        ),
    }
}

// Answers the word `delay` and its numbers.
pub fn delay(numbers: &[usize], out: &mut [u8]) -> usize
    requires { room ≤ length out.old }
    ensures { Says (answer_to_delay numbers.now) out.old out.new result }
{
    let &[slots, links, share, burst] = numbers else {
        return replies::say(b"? the numbers are F, links, share and burst\n", out);
    };
    say_delayed(delay::delay(slots, links, share, burst), out)
}
