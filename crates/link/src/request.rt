// The request.
ghost use Rattle.std.specs.Prelude.{ℕ, ◌<◌, ◌≡◌};
ghost use Rattle.plan.specs.declared.Plan.{Plan};
ghost use Rattle.model.specs.Refusals.{first_of};
ghost use Rattle.model.specs.Request as model;
ghost use Rattle.calls.specs.Reading.{answer_to_request};
ghost use Rattle.unbooked.specs.Words.{InFrame};
ghost use Rattle.link.specs.Parts.{parts_in};
ghost use Rattle.link.specs.Changes.{BookedIn};
ghost use Rattle.link.specs.Steps.{read_in, read_of, Went, Stepped, reply_of, request_answer};
ghost use Rattle.link.specs.Given.{SomePlan, SomeRequest, RequestIn, SeekIn, flow_or_zero, tests_of};
ghost use Rattle.link.specs.Sought.{sought_in};

use crate::flows::{flow_at, put_flow};
use crate::{Answer, Flow, Link, Step};
use plan::Entry;
use state::{OWNERS, State};
use tables::Place;
use tables::holdings::raise_from;
use tables::search::{find, late_rank, valid_in_newest};
use window::Window;
use word::Fields;

// What a request comes to: 0 and the position granted, or the refusal and 0.
#[derive(Clone, Copy)]
pub struct Reply {
    pub number: u8,
    pub position: u8,
}

// Where a search finds no position: what is left of the share, and the refusal.
#[derive(Clone, Copy)]
pub(crate) struct Missed {
    pub left: usize,
    pub number: u8,
}

// A request that books nothing.
fn refused(number: u8) -> Reply
    ensures { result ≡ record { number = number; position = 0 } }
{
    Reply {
        number,
        position: 0,
    }
}

// The refusal of a word with these fields by the tests before the search, and 0 where it passes them.
fn refusal(s: &State, count: usize, e: Entry, w: Window, fields: Fields) -> u8
    requires { SomeRequest (λ p x. RequestIn p count e w fields x s.now) }
    ensures { (p : Plan) (x : ℕ) → RequestIn p count e w fields x s.now → result ≡ tests_of (parts_in p s.now) x }
{
    let i = fields.flow as usize;
    if count <= i {
        return 8;
    }
    if fields.destination != e.destination {
        return 9;
    }
    if w.slots * w.frames <= fields.departure as usize {
        return 10;
    }
    let flow = flow_at(s, i);
    if fields.quantum as usize != flow.number {
        return 24;
    }
    0
}

// The refusal where the search ends with no position and some of the share is left; `would` says whether the newest frame has a position
// that only the departure rules out.
fn nowhere(would: bool) -> u8
    ensures { (left : ℕ) → (left ≡ 0 → ⊥) → result ≡ first_of (model.newest_tests would left) }
{
    if would {
        return 20;
    }
    12
}

// Flow i of a plan of n flows, and 0 where there is none.
pub fn flow_or_zero(count: usize, i: usize) -> usize
    ensures { result ≡ flow_or_zero count i }
{
    if i < count {
        return i;
    }
    0
}

// The search for flow i and a departure.
fn seek(
    s: &State,
    e: Entry,
    w: Window,
    i: usize,
    flow: Flow,
    departure: usize,
) -> Result<Place, Missed>
    requires { SomePlan (λ p. SeekIn p e w i flow departure s.now) }
    ensures { (p : Plan) → SeekIn p e w i flow departure s.now → result ≡ sought_in (read_in p s.now) i departure }
{
    // the share is spent up to the newest frame: there is nothing to search, and no other word is refused as 11
    if flow.remainder == 0 && flow.injection == w.newest() {
        return Err(Missed {
            left: 0,
            number: 11,
        });
    }
    let late = late_rank(s, i, e.cells, w);
    let share = e.share as usize;
    match find(s, w, late, departure, share, flow.injection, flow.remainder) {
        Ok(place) => Ok(place),
        Err(left) => Err(Missed {
            left,
            number: nowhere(valid_in_newest(s, w, late)),
        }),
    }
}

// Flow i books a position of a frame.
fn book(s: &mut State, w: Window, i: usize, frame: usize, position: usize)
    requires { InFrame w frame position × (i < 16) }
    ensures { BookedIn w i frame position s.old s.new }
{
    s[OWNERS + position] = i as u8;
    tables::slot_masks::book(s, w, frame, position);
    raise_from(s, i, w, position);
}

// A word with these fields asks for a slot on a state of a plan with n flows; e is the entry of its flow, or of flow 0 where the plan does not have
// it. What it comes to; and the state is the next one.
pub fn request(s: &mut State, count: usize, e: Entry, w: Window, fields: Fields) -> Reply
    requires { SomeRequest (λ p x. RequestIn p count e w fields x s.old) }
    ensures { (p : Plan) (x : ℕ) → RequestIn p count e w fields x s.old
        → Went reply_of (model.request (read_in p s.old) x) p s.new result }
{
    let number = refusal(s, count, e, w, fields);
    if number != 0 {
        return refused(number);
    }
    let i = fields.flow as usize;
    let flow = flow_at(s, i);
    match seek(s, e, w, i, flow, fields.departure as usize) {
        Ok(place) => {
            put_flow(s, i, flow.granted_in(place.frame, place.left));
            book(s, w, i, place.frame, place.position);
            Reply {
                number: 0,
                position: place.position as u8,
            }
        }
        Err(missed) => {
            put_flow(s, i, flow.moved_to(w.newest(), missed.left));
            refused(missed.number)
        }
    }
}

// The answer to a word, from what its request comes to.
fn told(word: u32, reply: Reply) -> Answer
    ensures { result ≡ request_answer word reply }
{
    let number = reply.number;
    if number != 0 {
        return Answer::Refused(number);
    }
    Answer::Granted(word::depart(word, reply.position))
}

impl Link {
    // A word asks for a slot.
    pub fn request(mut self, word: u32) -> Step
        ensures { Stepped answer_to_request (model.request (read_of self) word) result }
    {
        let plan = self.plan;
        let fields = word::split(word);
        let i = flow_or_zero(plan.count, fields.flow as usize);
        let e = plan.entries[i];
        let w = self.window();
        let reply = request(&mut self.state, plan.count, e, w, fields);
        Step {
            link: self,
            answer: told(word, reply),
        }
    }
}
