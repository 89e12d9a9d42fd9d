// A crossing from one link to the next: what a board does in a slot with the tiles that come on the one and go on by the other, on two lent states.

#![tactic(auto)]

ghost use Rattle.std.specs.Prelude.{◌-◌, ◌<◌, ◌≡◌};
ghost use Rattle.model.specs.Credit as credit;
ghost use Rattle.model.specs.Request as request;
ghost use Rattle.model.specs.Tick.{next_position};
ghost use Rattle.tables.specs.Owners.{owner_of};
ghost use Rattle.link.specs.Given.{StateIn};
ghost use Rattle.link.specs.Steps.{read_in, Went, number_of, reply_of};
ghost use Rattle.crossings.specs.Crossing as reference;
ghost use Rattle.crossings.specs.Playing.{both_tick, tick_answer_of};
ghost use Rattle.crossing.specs.Reading.{BoardIn, Reads, Passes, Comes};

use link::credit::credit;
use link::flows::flow_at;
use link::request::{Reply, request};
use link::tick::tick;
use plan::Plan;
use state::{OWNERS, State};
use window::Window;
use window::positions::next;
use word::Fields;

// The plans of the in-link and of the out-link, and for each flow of the first the flow of the second that it goes on as; a number that is no flow of
// the second says that it doesn't go on here.
#[derive(Clone, Copy)]
pub struct Crossing {
    pub arriving: Plan,
    pub leaving: Plan,
    pub onward: [u8; 16],
}

// Asks for a tile of flow j on the out-link: the current position is its departure, and it has the expected number.
fn ask(b: &mut State, plan: Plan, w: Window, j: usize) -> Reply
    requires { StateIn plan w b.old × (j < plan.count) }
    ensures { Went reply_of (request.request (read_in plan b.old) (reference.asking (read_in plan b.old) j))
        plan b.new result }
{
    let flow = flow_at(b, j);
    let e = plan.entries[j];
    let fields = Fields {
        destination: e.destination,
        flow: j as u8,
        quantum: flow.number as u16,
        departure: w.current as u16,
    };
    request(b, plan.count, e, w, fields)
}

// Asks for the first tile of flow i that waits, as flow j; where a position is granted, its cell of the in-link is credited, dated that position,
// and it waits no more. Whether it was granted.
fn pass(
    a: &mut State,
    b: &mut State,
    waiting: &mut [u8; 16],
    x: Crossing,
    w: Window,
    i: usize,
    j: usize,
) -> bool
    requires { BoardIn x w a.old b.old × (i < 16) × (j < x.leaving.count) }
    ensures is { Passes x i j a.old b.old waiting.old
        a.new b.new waiting.new result }
    ensures there { BoardIn x w a.new b.new }
{
    let reply = ask(b, x.leaving, w, j);
    if reply.number != 0 {
        return false;
    }
    credit(a, x.arriving, w, i, reply.position as usize);
    waiting[i] = waiting[i].saturating_sub(1);
    true
}

// Asks for the tiles of flow i that wait, as flow j, until one is refused.
fn pass_on(
    a: &mut State,
    b: &mut State,
    waiting: &mut [u8; 16],
    x: Crossing,
    w: Window,
    i: usize,
    j: usize,
)
    requires { BoardIn x w a.old b.old × (i < 16) × (j < x.leaving.count) }
    ensures is { Comes x (λ p. reference.pass_on (reference.waits p i) i j p) a.old b.old waiting.old
        a.new b.new waiting.new }
    ensures there { BoardIn x w a.new b.new }
{
    for _ in 0..waiting[i] {
        if !pass(a, b, waiting, x, w, i, j) {
            break;
        }
    }
}

// The tiles of flow i that wait, where it goes on here.
fn pass_flow(a: &mut State, b: &mut State, waiting: &mut [u8; 16], x: Crossing, w: Window, i: usize)
    requires { BoardIn x w a.old b.old × (i < 16) }
    ensures is { Comes x (reference.pass_flow i) a.old b.old waiting.old
        a.new b.new waiting.new }
    ensures there { BoardIn x w a.new b.new }
{
    let j = x.onward[i] as usize;
    if j < x.leaving.count {
        pass_on(a, b, waiting, x, w, i, j);
    }
}

// The tiles that wait, flow by flow.
fn pass_waiting(a: &mut State, b: &mut State, waiting: &mut [u8; 16], x: Crossing, w: Window)
    requires { BoardIn x w a.old b.old }
    ensures is { Comes x (reference.pass_waiting x.arriving.count) a.old b.old waiting.old
        a.new b.new waiting.new }
    ensures there { BoardIn x w a.new b.new }
{
    for i in 0..x.arriving.count {
        pass_flow(a, b, waiting, x, w, i);
    }
}

// A tile of flow i has just come: it is the last of its flow that waits, and is asked for if it is the only one.
fn come(a: &mut State, b: &mut State, waiting: &mut [u8; 16], x: Crossing, w: Window, i: usize)
    requires { BoardIn x w a.old b.old × (i < 16) }
    ensures is { Comes x (λ p. reference.comes (reference.goes_on_as p i) i p) a.old b.old waiting.old
        a.new b.new waiting.new }
    ensures there { BoardIn x w a.new b.new }
{
    let j = x.onward[i] as usize;
    if j < x.leaving.count {
        let k = waiting[i];
        waiting[i] = k.saturating_add(1);
        if k == 0 {
            pass(a, b, waiting, x, w, i, j);
        }
    }
}

// The board's part of a slot, after the ticks: `owner` is the owner of the in-link's slot, and 16 where it has none.
pub fn serve(
    a: &mut State,
    b: &mut State,
    waiting: &mut [u8; 16],
    x: Crossing,
    w: Window,
    owner: u8,
)
    requires { BoardIn x w a.old b.old }
    ensures is { Comes x (reference.served (owner_of owner)) a.old b.old waiting.old
        a.new b.new waiting.new }
    ensures there { BoardIn x w a.new b.new }
{
    pass_waiting(a, b, waiting, x, w);
    if owner < 16 {
        come(a, b, waiting, x, w, owner as usize);
    }
}

// One slot: both links tick, and the board does its part. The window there.
pub fn cross(a: &mut State, b: &mut State, waiting: &mut [u8; 16], x: Crossing, w: Window) -> Window
    requires { BoardIn x w a.old b.old }
    ensures is { Comes x (λ p. reference.served (tick_answer_of p) (both_tick p)) a.old b.old waiting.old
        a.new b.new waiting.new }
    ensures there { BoardIn x result a.new b.new }
{
    let on = tick(a, x.arriving, w);
    tick(b, x.leaving, w);
    let owner = a[OWNERS + on.current];
    serve(a, b, waiting, x, on, owner);
    on
}

// A tile of flow i that ends here was shown: its cell is free from the next slot on. 0, or the refusal of the credit.
pub fn shown(a: &mut State, plan: Plan, w: Window, i: usize) -> u8
    requires { StateIn plan w a.old }
    ensures { Went number_of (credit.credit (read_in plan a.old) i (next_position (read_in plan a.old)))
        plan a.new result }
{
    credit(a, plan, w, i, next(w.slots * w.frames, w.current))
}
