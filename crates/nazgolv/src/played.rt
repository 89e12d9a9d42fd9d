// The records of a play, one after another, on the state of a link.
ghost use Rattle.std.specs.Prelude.{◌+◌, ◌*◌, ◌≤◌, length, take, drop};
ghost use Rattle.model.specs.Record.{records};
ghost use Rattle.calls.specs.Lines.{Puts};
ghost use Rattle.imagemodel.specs.Play.{eight, call_of, made_on, in_order};
ghost use Rattle.link.specs.Given.{StateIn};
ghost use Rattle.link.specs.Steps.{read_in};
ghost use Rattle.nazgolv.specs.Steps.{StepsTo, PlaysTo};

use crate::numbers::refused;
use crate::records::record_at;
use crate::steps::{Moved, step};
use calls::RECORD;
use fields::put_all;
use plan::Plan;
use state::State;
use window::Window;

// Writes a number at a place, as four fields, and returns the place after it.
// Stays: `four_fields` of RULES 12.9 has these four numbers, and `put_all` writes fields.
fn put_number(x: u64, out: &mut [u8], at: usize) -> usize
    requires { at + 8 ≤ length out.old }
    ensures { Puts (eight x) out.old out.new at result }
{
    let parts = [
        (x % 65536) as usize,
        (x / 65536 % 65536) as usize,
        (x / 4294967296 % 65536) as usize,
        (x / 281474976710656) as usize,
    ];
    put_all(&parts, out, at)
}

// Plays the record that starts at a place.
fn play_one(s: &mut State, plan: Plan, w: Window, records: &[u8], at: usize) -> Moved
    requires { StateIn plan w s.old }
    ensures { StepsTo (made_on (read_in plan s.old) (call_of (take 5 (drop at records.now))))
        plan result.window s.new result.number }
{
    let Some(call) = record_at(records, at) else {
        return Moved {
            window: w,
            number: refused(16),
        };
    };
    step(s, plan, w, call)
}

// Plays all of them, and writes their numbers from the start of `out` on.
pub(crate) fn play_all(s: &mut State, plan: Plan, start: Window, stream: &[u8], out: &mut [u8])
    requires { StateIn plan start s.old × (8 * length (records stream.now) ≤ length out.old) }
    ensures { PlaysTo (in_order (read_in plan s.old) (records stream.now))
        plan s.new out.old out.new }
{
    let mut w = start;
    let mut end = 0;
    for k in 0..stream.len().div_ceil(RECORD) {
        let moved = play_one(s, plan, w, stream, RECORD * k);
        w = moved.window;
        end = put_number(moved.number, out, end);
    }
}
