// The word `programme`: a minute and entries, answered by what runs then.
ghost use Rattle.std.specs.Prelude.{◌+◌, ◌*◌, ◌≤◌, ◌≡◌, ◌++◌, length, get_or, ltb};
ghost use Rattle.model.specs.Tables.{table, any};
ghost use Rattle.model.specs.Listing.{text};
ghost use Rattle.replies.specs.Lines as said;
ghost use Rattle.week.specs.Reading.{answer_of};
ghost use Rattle.programmewords.specs.Programmes.{programme_line, answer_to_programme};
ghost use Rattle.programmewords.specs.Asked.{WholeEntries, NarrowPlans, stored_entry, stored_asked};

use week::{Entry, Programme, Refusal};

// The largest number of a plan.
const WIDEST: usize = 65535;

// Whether some plan's number has more than 16 bits.
fn any_wide(numbers: &[usize], count: usize) -> bool
    requires { WholeEntries numbers.now count }
    ensures { result ≡ any count (λ i. ltb 65535 (get_or numbers.now (1 + 3 * i + 2) 0)) }
{
    for i in 0..count {
        if WIDEST < numbers[1 + 3 * i + 2] {
            return true;
        }
    }
    false
}

// The entry at place i.
fn entry_at(numbers: &[usize], i: usize) -> Entry
    requires { (3 * i + 4 ≤ length numbers.now) × (get_or numbers.now (1 + 3 * i + 2) 0 ≤ 65535) }
    ensures { result ≡ stored_entry numbers.now i }
{
    let at = 1 + 3 * i;
    let start = numbers[at];
    let end = numbers[at + 1];
    let plan = numbers[at + 2] as u16;
    Entry { start, end, plan }
}

// The first 64 entries; those that are not asked about are all zero.
fn entries(numbers: &[usize], count: usize) -> [Entry; 64]
    requires { WholeEntries numbers.now count × NarrowPlans numbers.now count }
    ensures { result ≡ table 64 (stored_entry numbers.now) }
{
    let none = Entry {
        start: 0,
        end: 0,
        plan: 0,
    };
    let mut all = [none; 64];
    for i in 0..count.min(week::MOST) {
        all[i] = entry_at(numbers, i);
    }
    all
}

// The programme that is asked about.
fn asked(numbers: &[usize], count: usize) -> Programme
    requires { WholeEntries numbers.now count × NarrowPlans numbers.now count }
    ensures { result ≡ stored_asked numbers.now }
{
    let entries = entries(numbers, count);
    Programme { count, entries }
}

// Says a plan's number.
fn say_plan(number: u16, out: &mut [u8]) -> usize
    requires { said.room ≤ length out.old }
    ensures { said.Says (text "plan" ++ said.spaced number ++ text "\n") out.old out.new result }
{
    let word = replies::put(b"plan", out, 0);
    let end = replies::put_number(usize::from(number), out, word);
    replies::put(b"\n", out, end)
}

// Says what runs.
fn say_answer(answer: Result<Option<u16>, Refusal>, out: &mut [u8]) -> usize
    requires { said.room ≤ length out.old }
    ensures { said.Says (programme_line (answer_of answer)) out.old out.new result }
{
    match answer {
        Ok(Some(number)) => say_plan(number, out),
        Ok(None) => replies::say(b"dark\n", out),
        Err(refusal) => replies::say_refusal(refusal.number(), out),
    }
}

// Says what runs at the first of some numbers, which are known to be a minute and whole entries.
fn say_asked(numbers: &[usize], count: usize, out: &mut [u8]) -> usize
    requires { WholeEntries numbers.now count × NarrowPlans numbers.now count × (said.room ≤ length out.old) }
    ensures { said.Says (answer_to_programme numbers.now) out.old out.new result }
{
    let p = asked(numbers, count);
    let answer = week::plan_at(p, numbers[0]);
    say_answer(answer, out)
}

// Answers the word `programme` and its numbers.
pub fn programme(numbers: &[usize], out: &mut [u8]) -> usize
    requires { said.room ≤ length out.old }
    ensures { said.Says (answer_to_programme numbers.now) out.old out.new result }
{
    if numbers.is_empty() {
        return replies::say(b"? the minute is missing\n", out);
    }
    if (numbers.len() - 1) % 3 != 0 {
        return replies::say(
            b"? each entry has a start, an end and a plan: the numbers after the minute are no multiple of three\n",
            out,
        );
    }
    let count = (numbers.len() - 1) / 3;
    if any_wide(numbers, count) {
        return replies::say(b"? a plan's number is above 65,535\n", out);
    }
    say_asked(numbers, count, out)
}
