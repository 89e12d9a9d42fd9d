// What is told of a link, and of a flow.
ghost use Rattle.std.specs.Prelude.{◌+◌, ◌*◌, ◌≤◌, ◌<◌, ◌≡◌, length, get_or};
ghost use mathlib.Core.List.{flat_map};
ghost use Rattle.replies.specs.Lines.{spaced};
ghost use Rattle.plan.specs.declared.Plan.{Plan};
ghost use Rattle.link.specs.Given.{StateIn, SomePlan};
ghost use Rattle.link.specs.Steps.{read_in};
ghost use Rattle.trace.specs.Trace.{about, answered, burst_line, call_numbers, flow_line, flow_lines, flow_numbers, held_last, said_for};
ghost use Rattle.trace.specs.Written.{Lines, Tellable, kind_number};

use crate::written::{put_line, put_numbers};
use calls::Answer;
use link::flows::flow_at;
use plan::Plan;
use state::{MARK, OWNERS, State, TURN};
use window::Window;
use window::positions::before;

// RULES 26.5: a call's numbers, its kind and what it has. Kinds are told by number.
pub(crate) type Numbers = [usize; 5];

// The kinds of calls.
#[derive(Clone, Copy, Debug, PartialEq, Eq)]
pub(crate) enum Kind {
    Request,
    Credit,
    Tick,
    Lend,
    Reset,
    Burst,
}

impl Kind {
    // The number of a kind.
    pub(crate) fn number(self) -> usize
        ensures { result ≡ kind_number self }
    {
        match self {
            Kind::Request => 1,
            Kind::Credit => 2,
            Kind::Tick => 3,
            Kind::Lend => 4,
            Kind::Reset => 5,
            Kind::Burst => 6,
        }
    }
}

// A call that has no more than two numbers.
pub(crate) fn call_of(kind: Kind, first: usize, second: usize) -> Numbers
    ensures { result ≡ call_numbers (kind_number kind) first second }
{
    [kind.number(), first, second, 0, 0]
}

// An answer: its letter, the refusal or 0, and what is answered.
// Stays: a refusal has the field that is 0 where there is none, by RULES 26.4 and `said_for`.
#[derive(Clone, Copy)]
pub(crate) struct Said {
    pub(crate) letter: u8,
    pub(crate) number: usize,
    pub(crate) value: usize,
}

pub(crate) fn answer_of(letter: u8, number: usize, value: usize) -> Said
    ensures { result ≡ record { letter = letter; number = number; value = value } }
{
    Said {
        letter,
        number,
        value,
    }
}

// What an answer's line has: the answer, the call, and the flow and the position that it is about.
#[derive(Clone, Copy)]
pub(crate) struct Line {
    pub(crate) said: Said,
    pub(crate) call: Numbers,
    pub(crate) flow: usize,
    pub(crate) position: usize,
}

// An answer, as it is said.
pub(crate) fn spoken(answer: Answer) -> Said
    ensures { result ≡ said_for answer }
{
    match answer {
        Answer::Granted(word) => answer_of(b'G', 0, (word % 1024) as usize),
        Answer::Accepted => answer_of(b'C', 0, 0),
        Answer::Booked(flow) => answer_of(b'T', 0, usize::from(flow)),
        Answer::Idle => answer_of(b'T', 0, 16),
        Answer::Lent(flow) => answer_of(b'L', 0, usize::from(flow)),
        Answer::Reset => answer_of(b'Z', 0, 0),
        Answer::Refused(number) => answer_of(b'R', usize::from(number), 0),
    }
}

// The byte at a place of a state, as a number.
pub(crate) fn byte_at(s: &State, k: usize) -> usize
    requires { k < 4499 }
    ensures { result ≡ get_or s.now k 0 }
{
    usize::from(s[k])
}

// What flow i holds at the last position of the window.
fn last_held(s: &State, w: Window, i: usize) -> usize
    requires { SomePlan (λ plan. StateIn plan w s.now) × (i < 16) }
    ensures { (plan : Plan) → StateIn plan w s.now → result ≡ held_last (read_in plan s.now) i }
{
    let last = before(w.slots * w.frames, w.head * w.slots);
    byte_at(s, 256 * i + last)
}

// What is told of flow i and position p.
fn part_of(s: &State, w: Window, i: usize, p: usize) -> [usize; 7]
    requires { SomePlan (λ plan. StateIn plan w s.now) × (i < 16) × (p < 256) }
    ensures { (plan : Plan) → StateIn plan w s.now → result ≡ flow_numbers (read_in plan s.now) i p }
{
    let f = flow_at(s, i);
    let size = w.slots * w.frames;
    [
        f.injection,
        f.remainder,
        f.number,
        (p + size - w.current) % size,
        byte_at(s, OWNERS + p),
        byte_at(s, 256 * i + p),
        last_held(s, w, i),
    ]
}

// Writes the numbers of the link, and those of the flow that a line is about if the plan has it.
fn put_about(s: &State, plan: Plan, w: Window, line: Line, out: &mut [u8], at: usize) -> usize
    requires { StateIn plan w s.now × (line.position < 256) × (at + 212 ≤ length out.old) }
    ensures { Lines (flat_map spaced (about (read_in plan s.now) line.flow line.position)) out.old out.new at result 210 }
{
    let link = [w.current, byte_at(s, MARK), byte_at(s, TURN)];
    let next = put_numbers(&link, out, at);
    if plan.count <= line.flow {
        return next;
    }
    let part = part_of(s, w, line.flow, line.position);
    put_numbers(&part, out, next)
}

// Writes the line of an answer, with the flow that it is about if the plan has it.
pub(crate) fn put_answer(
    s: &State,
    plan: Plan,
    w: Window,
    line: Line,
    out: &mut [u8],
    at: usize,
) -> usize
    requires { Tellable plan w s.now line.position out.old at }
    ensures { Lines (answered line.said.letter line.said.number line.said.value line.call
        (read_in plan s.now) line.flow line.position) out.old out.new at result 384 }
{
    let said = [line.said.number, line.said.value];
    out[at] = line.said.letter;
    let call = put_numbers(&said, out, at + 1);
    let about = put_numbers(&line.call, out, call);
    let last = put_about(s, plan, w, line, out, about);
    out[last] = b'\n';
    last + 1
}

// Writes the line of flow i after a frame change or a reset.
fn put_flow(s: &State, w: Window, i: usize, out: &mut [u8], at: usize) -> usize
    requires { SomePlan (λ plan. StateIn plan w s.now) × (i < 16) × (at + 86 ≤ length out.old) }
    ensures { (plan : Plan) → StateIn plan w s.now
        → Lines (flow_line (read_in plan s.now) i) out.old out.new at result 86 }
{
    let f = flow_at(s, i);
    let numbers = [i, f.injection, f.remainder, last_held(s, w, i)];
    put_line(b'F', &numbers, out, at)
}

// Writes the lines of all flows.
pub(crate) fn put_flows(s: &State, plan: Plan, w: Window, out: &mut [u8], at: usize) -> usize
    requires { StateIn plan w s.now × (at + 1376 ≤ length out.old) }
    ensures { Lines (flow_lines (read_in plan s.now) plan.count) out.old out.new at result 1376 }
{
    let mut next = at;
    for i in 0..plan.count {
        next = put_flow(s, w, i, out, next);
    }
    next
}

// Writes the line of a burst of so many words.
pub fn write_burst(
    s: &State,
    plan: Plan,
    w: Window,
    count: usize,
    out: &mut [u8],
    at: usize,
) -> usize
    requires { StateIn plan w s.now × (at + 384 ≤ length out.old) }
    ensures { Lines (burst_line (read_in plan s.now) count) out.old out.new at result 384 }
{
    let line = Line {
        said: answer_of(b'W', 0, 0),
        call: call_of(Kind::Burst, count, 0),
        flow: plan.count,
        position: w.current,
    };
    put_answer(s, plan, w, line, out, at)
}
