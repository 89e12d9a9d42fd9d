// The calls for a host in C, which keeps the link as an image in its own bytes. A number below 2 to the power 32 is what a call is
// answered; else it is a refusal times that power.
#![tactic(auto)]

ghost use Rattle.std.specs.Prelude.{◌≡◌};
ghost use Rattle.imagemodel.specs.ValidImage.{refusal_of};
ghost use Rattle.imagemodel.specs.Exports.{HandsBack, fresh_on, request_on, credit_on, tick_on, lend_on, reset_on};
ghost use Rattle.imagemodel.specs.Play.{PlaysBack, play_on};
ghost use Rattle.nazgolv.specs.Calls.{call_also};

mod called; // a call on an image
mod numbers; // the number of an answer
mod played; // the records of a play, on a state
mod records; // a record of a play
mod steps; // a call on a state

use called::called;
use imagecheck::check;
use imagecheck::layout::layout_of;
use imagecodec::{read, write};
use link::Link;
use link::resume::empty;
use numbers::refused;
use played::play_all;

// A call on a link.
#[derive(Clone, Copy)]
pub enum Call {
    // A request has a word.
    Request(u32),
    // A credit has a flow and a position.
    Credit(usize, usize),
    Tick,
    // A lend has a mask.
    Lend(u16),
    Reset,
}

impl From<calls::Call> for Call {
    ghost from_gives = { λ call r. r ≡ call_also call };

    fn from(call: calls::Call) -> Call {
        match call {
            calls::Call::Request(word) => Call::Request(word),
            calls::Call::Credit(flow, position) => Call::Credit(flow, position),
            calls::Call::Tick => Call::Tick,
        }
    }
}

// The image of a plan's fresh link.
#[unsafe(no_mangle)]
pub extern "C" fn nazgolv_fresh(plan: &[u8], image: &mut [u8]) -> u64
    ensures { HandsBack (fresh_on plan.now image.old) result image.new }
{
    match plan::read(plan) {
        Err(refusal) => refused(refusal.number()),
        Ok(plan) => {
            let l = layout_of(plan);
            if image.len() < l.total {
                return refused(21);
            }
            let link = Link::fresh(plan);
            write(link.plan, &link.state, image);
            0
        }
    }
}

// The refusal that a call on these bytes would give before its own tests, and 0 where they are an image that is taken: the number itself.
#[unsafe(no_mangle)]
pub extern "C" fn nazgolv_check(image: &[u8]) -> u64
    ensures { result ≡ refusal_of image.now }
{
    match check(image) {
        Err(refusal) => u64::from(refusal.number()),
        Ok(()) => 0,
    }
}

// A word asks for a slot.
#[unsafe(no_mangle)]
pub extern "C" fn nazgolv_request(image: &mut [u8], word: u32) -> u64
    ensures { HandsBack (request_on image.old word) result image.new }
{
    called(image, Call::Request(word))
}

// A flow's cell falls free from a position on.
#[unsafe(no_mangle)]
pub extern "C" fn nazgolv_credit(image: &mut [u8], flow: usize, position: usize) -> u64
    ensures { HandsBack (credit_on image.old flow position) result image.new }
{
    called(image, Call::Credit(flow, position))
}

// The current position goes on by one.
#[unsafe(no_mangle)]
pub extern "C" fn nazgolv_tick(image: &mut [u8]) -> u64
    ensures { HandsBack (tick_on image.old) result image.new }
{
    called(image, Call::Tick)
}

// The current slot, when nobody booked it, goes in turn to a flow of a mask that has a quantum ready.
#[unsafe(no_mangle)]
pub extern "C" fn nazgolv_lend(image: &mut [u8], mask: u16) -> u64
    ensures { HandsBack (lend_on image.old mask) result image.new }
{
    called(image, Call::Lend(mask))
}

// Every frame is recycled, when the link is quiet.
#[unsafe(no_mangle)]
pub extern "C" fn nazgolv_reset(image: &mut [u8]) -> u64
    ensures { HandsBack (reset_on image.old) result image.new }
{
    called(image, Call::Reset)
}

// Records one after another: the image is tested once and written once, and each record's number goes to `out`.
#[unsafe(no_mangle)]
pub extern "C" fn nazgolv_play(image: &mut [u8], records: &[u8], out: &mut [u8]) -> u64
    ensures { PlaysBack (play_on image.old records.now out.old) result image.new out.new }
{
    if let Err(refusal) = check(image) {
        return refused(refusal.number());
    }
    if out.len() / 8 < (records.len() + 4) / 5 {
        return refused(19);
    }
    let mut state = empty();
    let kept = read(&mut state, image);
    let plan = kept.plan;
    play_all(&mut state, plan, kept.window, records, out);
    write(plan, &state, image);
    0
}
