// The word `week-faults`: a week's entries, answered by the limits that they break.
ghost use Rattle.std.specs.Prelude.{◌+◌, ◌*◌, ◌≤◌, ◌≡◌, length, get_or, ltb};
ghost use Rattle.model.specs.Tables.{any};
ghost use Rattle.calls.specs.Lines.{Puts};
ghost use Rattle.replies.specs.Lines as said;
ghost use Rattle.faults.specs.Told.{faults_line};
ghost use Rattle.weekwords.specs.WeekFaults.{faults_of};
ghost use Rattle.weekwords.specs.WeekWord.{week_asked, answer_to_week_faults};

use crate::entries;

// The largest number of a plan.
const WIDEST: usize = 65535;

// Whether some plan's number has more than 16 bits.
fn some_wide(numbers: &[usize], count: usize) -> bool
    requires { length numbers.now ≡ 3 * count }
    ensures { result ≡ any count (λ i. ltb 65535 (get_or numbers.now (3 * i + 2) 0)) }
{
    for i in 0..count {
        if WIDEST < numbers[3 * i + 2] {
            return true;
        }
    }
    false
}

// Finds the faults of entries, and stores them from the start on; how many numbers they have.
fn find(numbers: &[usize], count: usize, found: &mut [usize]) -> usize
    requires { (length numbers.now ≡ 3 * count) × (579 ≤ length found.old) }
    ensures put { Puts (faults_of (week_asked numbers.now)) found.old found.new 0 result }
    ensures most { result ≤ 579 }
{
    let first = count.min(week::MOST);
    let after_entries = entries::tell_entries(numbers, first, found, 0);
    let after_count = faults::tell_if(week::MOST < count, 28, count, 2, found, after_entries);
    entries::tell_pairs(numbers, first, found, after_count)
}

// Says the faults of entries.
fn say_found(numbers: &[usize], count: usize, out: &mut [u8]) -> usize
    requires { (length numbers.now ≡ 3 * count) × (said.room ≤ length out.old) }
    ensures { said.Says (faults_line (faults_of (week_asked numbers.now))) out.old out.new result }
{
    let mut found = [0usize; 579];
    let end = find(numbers, count, &mut found);
    faults::say(&found[..end], out)
}

// Answers the word `week-faults` and its numbers.
pub fn week_faults(numbers: &[usize], out: &mut [u8]) -> usize
    requires { said.room ≤ length out.old }
    ensures { said.Says (answer_to_week_faults numbers.now) out.old out.new result }
{
    if numbers.len() % 3 != 0 {
        return replies::say(
            b"? each entry has a start, an end and a plan: the numbers are no multiple of three\n",
            out,
        );
    }
    let count = numbers.len() / 3;
    if some_wide(numbers, count) {
        return replies::say(b"? a plan's number is above 65,535\n", out);
    }
    say_found(numbers, count, out)
}
