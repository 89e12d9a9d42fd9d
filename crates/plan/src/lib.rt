// A link's plan. Its bytes are read, tested, and accepted or refused by a number from 1 to 7. A plan that is asked for is tested in the same way and
// written as bytes, or refused by a number from 2 to 7 or by 19.
#![tactic(auto)]

mod draft;
mod entries;
mod header;

ghost use Rattle.std.specs.Prelude.{◌≡◌, ◌≤◌, IfOk, length};
ghost use Rattle.model.specs.WrittenPlan as writer;
ghost use Rattle.limits.specs.Reading.{draft_for};
ghost use Rattle.plan.specs.Reading.{ReadAs, Valid};
ghost use Rattle.plan.specs.Writing.{answer_of};

pub use limits::{Draft, Refusal, Wanted};

// A flow's entry: its slots a frame, its places in the next board's buffer, and its two nodes.
#[derive(Clone, Copy)]
pub struct Entry {
    pub share: u8,
    pub cells: u8,
    pub source: u8,
    pub destination: u8,
}

// A plan: F, W, N, n, and the entries, of which those from n on are all zero.
#[derive(Clone, Copy)]
pub struct Plan {
    pub slots: usize,
    pub frames: usize,
    pub buffer: usize,
    pub count: usize,
    pub entries: [Entry; 16],
}

// Reads a plan's bytes. The tests are made in the order of their numbers, and the first that applies is the refusal.
pub fn read(bytes: &[u8]) -> Result<Plan, Refusal>
    ensures is { ReadAs bytes.now result }
    ensures valid { IfOk result Valid }
{
    if bytes.len() < 12 {
        return Err(Refusal::Length);
    }
    let h = header::read_header(bytes);
    if bytes.len() != h.total {
        return Err(Refusal::Length);
    }
    if header::count_out_of_range(h) {
        return Err(Refusal::Counts);
    }
    let part = &bytes[12..];
    let entries = entries::read_entries(part, h.count);
    let plan = Plan {
        slots: h.slots,
        frames: h.frames,
        buffer: h.buffer,
        count: h.count,
        entries,
    };
    limits::check(plan.draft())?;
    Ok(plan)
}

// Writes a plan's bytes at the start of a buffer, and says how many there are. The tests are made in the order of their numbers, 19 last, and a refusal
// leaves the buffer as it came. That a count is at most 76 and at most the buffer's length follows; it is stated so that callers find it.
pub fn write(draft: Draft, out: &mut [u8]) -> Result<usize, Refusal>
    ensures is { answer_of result ≡ (writer.written (draft_for draft) out.old).answer }
    ensures out { out.new ≡ (writer.written (draft_for draft) out.old).out }
    ensures most { IfOk result (λ n. (n ≤ 76) × (n ≤ length out.old)) }
{
    limits::check(draft)?;
    let total = 12 + 4 * draft.count;
    if out.len() < total {
        return Err(Refusal::NoRoom);
    }
    let h = header::Header {
        total,
        count: draft.count,
        offset: 12,
        slots: draft.slots,
        frames: draft.frames,
        buffer: draft.buffer,
    };
    header::put_header(h, out);
    let entries = draft.entries;
    entries::put_entries(entries, draft.count, &mut out[12..]);
    Ok(total)
}
