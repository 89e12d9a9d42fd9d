// The word `read`: hexadecimal digits of a plan's bytes, answered by the line that asks for this plan.
ghost use Rattle.std.specs.Prelude.{◌+◌, ◌*◌, ◌≤◌, ◌≡◌, length, get_or, drop};
ghost use mathlib.Core.List.{◌++◌, flat_map};
ghost use Rattle.model.specs.Tables.{table};
ghost use Rattle.model.specs.Listing.{text};
ghost use Rattle.model.specs.Plan as model;
ghost use Rattle.plan.specs.Reading.{entry_for, no_entry, plan_for, Valid};
ghost use Rattle.calls.specs.Lines.{Puts};
ghost use Rattle.tokens.specs.Pieces.{after_word};
ghost use Rattle.replies.specs.Lines.{spaced, room, Says};
ghost use Rattle.planwords.specs.Reads as answers;

use plan::{Entry, Plan};

fn put_entry(e: Entry, out: &mut [u8], at: usize) -> usize
    requires { at + 84 ≤ length out.old }
    ensures put { Puts (flat_map spaced (answers.entry_numbers (entry_for e))) out.old out.new at result }
    ensures most { result ≤ at + 84 }
{
    let cells = replies::put_number(e.share as usize, out, at);
    let source = replies::put_number(e.cells as usize, out, cells);
    let destination = replies::put_number(e.source as usize, out, source);
    replies::put_number(e.destination as usize, out, destination)
}

// Stores the numbers of the first entries.
fn put_entries(entries: [Entry; 16], count: usize, out: &mut [u8], at: usize) -> usize
    requires { (count ≤ 16) × (at + 1344 ≤ length out.old) }
    ensures put { Puts (flat_map spaced (flat_map answers.entry_numbers (table count (λ i. entry_for (get_or entries i no_entry))))) out.old out.new at result }
    ensures most { result ≤ at + 1344 }
{
    let mut next = at;
    for e in &entries[..count] {
        next = put_entry(*e, out, next);
    }
    next
}

// Stores the word and the numbers of a plan's header.
fn put_header(slots: usize, frames: usize, buffer: usize, out: &mut [u8]) -> usize
    requires { room ≤ length out.old }
    ensures put { Puts (text "plan" ++ spaced slots ++ spaced frames ++ spaced buffer) out.old out.new 0 result }
    ensures most { result ≤ 67 }
{
    let word = replies::put(b"plan", out, 0);
    let f = replies::put_number(slots, out, word);
    let w = replies::put_number(frames, out, f);
    replies::put_number(buffer, out, w)
}

// Says the line that asks for a plan.
fn say_question(p: Plan, out: &mut [u8]) -> usize
    requires { Valid p × (room ≤ length out.old) }
    ensures { Says (answers.question (plan_for p)) out.old out.new result }
{
    let header = put_header(p.slots, p.frames, p.buffer, out);
    let entries = p.entries;
    let end = put_entries(entries, p.count, out, header);
    replies::put(b"\n", out, end)
}

// Says what a plan's bytes are read as.
fn say_plan(bytes: &[u8], out: &mut [u8]) -> usize
    requires { room ≤ length out.old }
    ensures { Says (answers.read_line (model.refusal bytes.now) (model.plan_of bytes.now)) out.old out.new result }
{
    match plan::read(bytes) {
        Ok(plan) => say_question(plan, out),
        Err(refusal) => replies::say_refusal(refusal.number(), out),
    }
}

// Says what hexadecimal digits are read as.
fn say_digits(digits: &[u8], out: &mut [u8]) -> usize
    requires { (length digits.now ≤ 4000) × (room ≤ length out.old) }
    ensures { Says (answers.digits_line digits.now) out.old out.new result }
{
    let mut bytes = [0u8; 2000];
    match tokens::read_bytes(digits, &mut bytes) {
        Ok(count) => say_plan(&bytes[..count], out),
        Err(fault) => replies::say_fault(fault, out),
    }
}

// The start of what stands after a line's word and one space.
fn after_word(line: &[u8]) -> usize
    ensures most { result ≤ length line.now }
    ensures rest { drop result line.now ≡ after_word line.now }
{
    let end = tokens::piece_end(line, 0);
    if end < line.len() { end + 1 } else { end }
}

// Answers a line whose word is `read`.
pub fn read(line: &[u8], out: &mut [u8]) -> usize
    requires { (length line.now ≤ 4000) × (room ≤ length out.old) }
    ensures { Says (answers.digits_line (after_word line.now)) out.old out.new result }
{
    let from = after_word(line);
    say_digits(&line[from..], out)
}
