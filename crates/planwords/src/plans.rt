// The words `plan` and `room`: numbers that ask for a plan, answered by its bytes.
ghost use Rattle.std.specs.Prelude.{◌+◌, ◌*◌, ◌/◌, ◌%◌, ◌-◌, ◌≤◌, ◌≡◌, length};
ghost use Rattle.model.specs.Tables.{table};
ghost use Rattle.model.specs.WrittenPlan as writer;
ghost use Rattle.limits.specs.Reading.{draft_for};
ghost use Rattle.replies.specs.Lines as said;
ghost use Rattle.planwords.specs.Plans as answers;
ghost use Rattle.planwords.specs.Drafts.{WholeFlows, wanted_at, draft_asked};

use plan::{Draft, Wanted};

// The longest plan: a header of 12 bytes and 16 entries of four.
const LONGEST: usize = 76;

// The entry of flow i.
fn wanted(numbers: &[usize], i: usize) -> Wanted
    requires { 4 * i + 7 ≤ length numbers.now }
    ensures { result ≡ wanted_at numbers.now i }
{
    let at = 3 + 4 * i;
    Wanted {
        share: numbers[at],
        cells: numbers[at + 1],
        source: numbers[at + 2],
        destination: numbers[at + 3],
    }
}

// The entries of the first 16 flows; those that are not asked for are all zero.
fn entries(numbers: &[usize], flows: usize) -> [Wanted; 16]
    requires { length numbers.now ≡ 3 + 4 * flows }
    ensures { result ≡ table 16 (wanted_at numbers.now) }
{
    let none = Wanted {
        share: 0,
        cells: 0,
        source: 0,
        destination: 0,
    };
    let mut all = [none; 16];
    for i in 0..flows.min(16) {
        all[i] = wanted(numbers, i);
    }
    all
}

// The plan that numbers ask for.
fn asked(numbers: &[usize]) -> Draft
    requires { WholeFlows numbers.now }
    ensures { result ≡ draft_asked numbers.now }
{
    let count = (numbers.len() - 3) / 4;
    let entries = entries(numbers, count);
    Draft {
        slots: numbers[0],
        frames: numbers[1],
        buffer: numbers[2],
        count,
        entries,
    }
}

// Writes a plan into a buffer, and says its bytes or the refusal.
fn say_written(draft: Draft, buffer: &mut [u8], out: &mut [u8]) -> usize
    requires { said.room ≤ length out.old }
    ensures { said.Says (answers.file_line (writer.written (draft_for draft) buffer.old).answer (draft_for draft)) out.old out.new result }
{
    match plan::write(draft, buffer) {
        Ok(count) => {
            let end = replies::put_hex(&buffer[..count], out, 0);
            replies::put(b"\n", out, end)
        }
        Err(refusal) => replies::say_refusal(refusal.number(), out),
    }
}

// Answers numbers that ask for a plan in a buffer of so many bytes.
fn in_room(size: usize, numbers: &[usize], out: &mut [u8]) -> usize
    requires { said.room ≤ length out.old }
    ensures { said.Says (answers.in_room size numbers.now) out.old out.new result }
{
    if numbers.len() < 3 {
        return replies::say(b"? F, W or N is missing\n", out);
    }
    if (numbers.len() - 3) % 4 != 0 {
        return replies::say(
            b"? each flow has a share, cells, a source and a destination: the numbers after N are no multiple of four\n",
            out,
        );
    }
    let mut buffer = [0u8; LONGEST];
    let end = size.min(LONGEST);
    say_written(asked(numbers), &mut buffer[..end], out)
}

// Answers the word `plan` and its numbers.
pub fn plan(numbers: &[usize], out: &mut [u8]) -> usize
    requires { said.room ≤ length out.old }
    ensures { said.Says (answers.answer_to_plan numbers.now) out.old out.new result }
{
    in_room(LONGEST, numbers, out)
}

// Answers the word `room` and its numbers.
pub fn room(numbers: &[usize], out: &mut [u8]) -> usize
    requires { said.room ≤ length out.old }
    ensures { said.Says (answers.answer_to_room numbers.now) out.old out.new result }
{
    if numbers.len() == 0 {
        return replies::say(b"? the buffer's size is missing\n", out);
    }
    in_room(numbers[0], &numbers[1..], out)
}
