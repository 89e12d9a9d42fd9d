// A call of any sort on the state of a link, answered by its number.
ghost use Rattle.model.specs.Calls as model;
ghost use Rattle.link.specs.Given.{StateIn};
ghost use Rattle.link.specs.Steps.{read_in};
ghost use Rattle.imagemodel.specs.Exports.{on_link};
ghost use Rattle.nazgolv.specs.Calls.{call_for};
ghost use Rattle.nazgolv.specs.Steps.{StepsTo};

use crate::Call;
use crate::numbers::{number_of, number_of_reply, refused};
use link::credit::credit;
use link::lend::lend;
use link::request::{flow_or_zero, request};
use link::reset::reset;
use link::tick::{tick, tick_answer};
use plan::Plan;
use state::{OWNERS, State};
use window::Window;

// What a call comes to: the window after it, and its number.
#[derive(Clone, Copy)]
pub(crate) struct Moved {
    pub window: Window,
    pub number: u64,
}

// A word asks for a slot.
fn ask(s: &mut State, plan: Plan, w: Window, word: u32) -> u64
    requires { StateIn plan w s.old }
    ensures { StepsTo (on_link (read_in plan s.old) (model.Call.request word)) plan w s.new result }
{
    let fields = word::split(word);
    let i = flow_or_zero(plan.count, usize::from(fields.flow));
    let e = plan.entries[i];
    let reply = request(s, plan.count, e, w, fields);
    number_of_reply(word, reply)
}

// A flow's cell falls free from a position on.
fn give(s: &mut State, plan: Plan, w: Window, flow: usize, position: usize) -> u64
    requires { StateIn plan w s.old }
    ensures { StepsTo (on_link (read_in plan s.old) (model.Call.credit flow position)) plan w s.new result }
{
    let number = credit(s, plan, w, flow, position);
    refused(number)
}

// The current position goes on by one.
fn go_on(s: &mut State, plan: Plan, w: Window) -> Moved
    requires { StateIn plan w s.old }
    ensures { StepsTo (on_link (read_in plan s.old) model.Call.tick) plan result.window s.new result.number }
{
    let on = tick(s, plan, w);
    let next = on.current;
    let owner = s[OWNERS + next];
    let number = number_of(tick_answer(owner));
    Moved { window: on, number }
}

// The current slot, when nobody booked it, goes in turn to a flow of a mask that has a quantum ready.
fn hand_on(s: &mut State, plan: Plan, w: Window, mask: u16) -> u64
    requires { StateIn plan w s.old }
    ensures { StepsTo (on_link (read_in plan s.old) (model.Call.lend mask)) plan w s.new result }
{
    let answer = lend(s, plan, w, mask);
    number_of(answer)
}

// Every frame is recycled, when the link is quiet.
fn reset_step(s: &mut State, plan: Plan, w: Window) -> u64
    requires { StateIn plan w s.old }
    ensures { StepsTo (on_link (read_in plan s.old) model.Call.reset) plan w s.new result }
{
    let answer = reset(s, plan, w);
    number_of(answer)
}

// A call.
pub(crate) fn step(s: &mut State, plan: Plan, w: Window, call: Call) -> Moved
    requires { StateIn plan w s.old }
    ensures { StepsTo (on_link (read_in plan s.old) (call_for call)) plan result.window s.new result.number }
{
    match call {
        Call::Request(word) => Moved {
            window: w,
            number: ask(s, plan, w, word),
        },
        Call::Credit(flow, position) => Moved {
            window: w,
            number: give(s, plan, w, flow, position),
        },
        Call::Tick => go_on(s, plan, w),
        Call::Lend(mask) => Moved {
            window: w,
            number: hand_on(s, plan, w, mask),
        },
        Call::Reset => Moved {
            window: w,
            number: reset_step(s, plan, w),
        },
    }
}
