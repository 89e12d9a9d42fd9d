// The word `faults`: numbers that ask for a plan, answered by the limits that it breaks.
ghost use Rattle.std.specs.Prelude.{◌+◌, ◌≤◌, ◌≡◌, length};
ghost use Rattle.calls.specs.Lines.{Puts};
ghost use Rattle.replies.specs.Lines as said;
ghost use Rattle.planwords.specs.Plans.{plan_asked};
ghost use Rattle.faultwords.specs.PlanFaults.{faults_of};
ghost use Rattle.faultwords.specs.FaultsWord as answers;
ghost use Rattle.faultwords.specs.Asked.{ShortNumbers};

use crate::{flows, header};

// The largest number of nine digits.
const LONGEST: usize = 999999999;
// The most flows that are looked at.
const FLOWS: usize = 16;

// Whether some number has more than nine digits.
fn some_long(numbers: &[usize]) -> bool
    ensures { result ≡ answers.some_long numbers.now }
{
    for n in numbers {
        if LONGEST < *n {
            return true;
        }
    }
    false
}

// Finds the faults of the plan that numbers ask for, and stores them from the start on; how many numbers they have.
fn find(numbers: &[usize], found: &mut [usize]) -> usize
    requires { ShortNumbers numbers.now × (309 ≤ length found.old) }
    ensures put { Puts (faults_of (plan_asked numbers.now)) found.old found.new 0 result }
    ensures most { result ≤ 309 }
{
    let count = (numbers.len() - 3) / 4;
    let flows = count.min(FLOWS);
    let after_count = faults::tell_if(limits::count_out_of_range(count), 2, count, 0, found, 0);
    let after_frame = header::tell_frame(numbers[0], numbers[1], numbers[2], found, after_count);
    let after_entries = flows::tell_entries(numbers, flows, found, after_frame);
    let after_repeats = flows::tell_repeats(numbers, flows, found, after_entries);
    flows::tell_sums(numbers, flows, found, after_repeats)
}

// Says the faults of the plan that numbers ask for.
fn say_found(numbers: &[usize], out: &mut [u8]) -> usize
    requires { ShortNumbers numbers.now × (said.room ≤ length out.old) }
    ensures { said.Says (answers.answer_to_faults numbers.now) out.old out.new result }
{
    let mut found = [0usize; 309];
    let count = find(numbers, &mut found);
    faults::say(&found[..count], out)
}

// Answers the word `faults` and its numbers.
pub fn faults(numbers: &[usize], out: &mut [u8]) -> usize
    requires { said.room ≤ length out.old }
    ensures { said.Says (answers.answer_to_faults numbers.now) out.old out.new result }
{
    if numbers.len() < 3 {
        return replies::say(b"? F, W or N is missing\n", out);
    }
    if (numbers.len() - 3) % 4 != 0 {
        return replies::say(
            b"? each flow has a share, cells, a source and a destination: the numbers after N are no multiple of four\n",
            out,
        );
    }
    if some_long(numbers) {
        return replies::say(b"? a number has more than nine digits\n", out);
    }
    say_found(numbers, out)
}
