// The word that asks how many plans fit.
#![tactic(auto)]

ghost use Rattle.std.specs.Prelude.{◌≤◌, length};
ghost use Rattle.shares.specs.Counts.{answer_for};
ghost use Rattle.replies.specs.Lines.{room, Says};
ghost use Rattle.sharewords.specs.CountWord.{two_line, count_line, answer_to_count};

use shares::{Counted, OUT_OF_RANGE};

// Says two numbers.
fn say_two(first: usize, second: usize, out: &mut [u8]) -> usize
    requires { room ≤ length out.old }
    ensures { Says (two_line first second) out.old out.new result }
{
    let space = replies::put_decimal(first, out, 0);
    let end = replies::put_number(second, out, space);
    replies::put(b"\n", out, end)
}

// Says what was counted, or the refusal.
fn say_counted(answer: Option<Counted>, out: &mut [u8]) -> usize
    requires { room ≤ length out.old }
    ensures { Says (count_line (answer_for answer)) out.old out.new result }
{
    match answer {
        Some(Counted { accepts, refuses }) => say_two(accepts as usize, refuses as usize, out),
        None => replies::say_refusal(OUT_OF_RANGE, out),
    }
}

// Answers the word `count` and its numbers.
pub fn count(numbers: &[usize], out: &mut [u8]) -> usize
    requires { room ≤ length out.old }
    ensures { Says (answer_to_count numbers.now) out.old out.new result }
{
    let &[slots, flows] = numbers else {
        return replies::say(b"? the numbers are F and n\n", out);
    };
    say_counted(shares::count(slots, flows), out)
}
