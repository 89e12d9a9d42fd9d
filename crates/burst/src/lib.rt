// A burst: the requests of several words in a single call.
#![tactic(auto)]

ghost use Rattle.std.specs.Prelude.{◌≡◌, ◌≤◌, min};
ghost use Rattle.model.specs.Burst as model;
ghost use Rattle.model.specs.Request as reference;
ghost use Rattle.link.specs.Steps.{read_in, read_of, Went, reply_of};
ghost use Rattle.link.specs.Given.{StateIn};
ghost use Rattle.link.specs.Bursts.{Bursted};
ghost use Rattle.burst.specs.Reading.{asks_of};
ghost use Rattle.burst.specs.First.{burst_of_first};

use link::Link;
use link::request::{Reply, flow_or_zero, request};
use plan::Plan;
use state::State;
use window::Window;

// A word, and what its request comes to: 0 and the position granted, or the refusal and 0.
#[derive(Clone, Copy)]
pub struct BurstRecord {
    pub word: u32,
    pub result: u8,
    pub position: u8,
}

// What a word's request comes to, on a state of a plan in its window.
pub fn reply_to(s: &mut State, plan: Plan, w: Window, word: u32) -> Reply
    requires { StateIn plan w s.old }
    ensures { Went reply_of (reference.request (read_in plan s.old) word) plan s.new result }
{
    let fields = word::split(word);
    let i = flow_or_zero(plan.count, fields.flow as usize);
    let e = plan.entries[i];
    request(s, plan.count, e, w, fields)
}

// The most records that a burst handles.
const MOST: usize = 16;

// How many of n records a burst handles: all of them, or the first 16.
fn handled(n: usize) -> usize
    ensures { result ≡ min n 16 }
{
    n.min(MOST)
}

// The requests of the first 16 records, in order: their answers are filled in, and all else of the slice stays.
pub fn burst(link: Link, records: &mut [BurstRecord]) -> Link
    ensures { Bursted (model.burst (read_of link) (asks_of records.old)) result (asks_of records.new) }
{
    let plan = link.plan;
    let w = link.window();
    let mut state = link.state;
    let n = handled(records.len());
    // Stays: the loop is here, on a state of its own. In a function on the lent state a word took 2 to 6 ns more where the caller takes the records
    // out before it reads them; where it reads them behind the link, a burst without a word took 28 ns for each of 16, and so 12.
    for r in &mut records[..n] {
        let reply = reply_to(&mut state, plan, w, r.word);
        r.result = reply.number;
        r.position = reply.position;
    }
    Link { plan, state }
}

// A link after a burst, and the array whose first records it was lent.
#[derive(Clone, Copy)]
pub struct HandedBack {
    pub link: Link,
    pub records: [BurstRecord; 20],
}

fn lend_first(link: Link, records: [BurstRecord; 20], count: usize) -> HandedBack
    requires { count ≤ 20 }
    ensures { Bursted (burst_of_first count (read_of link) (asks_of records)) result.link (asks_of result.records) }
{
    let mut rs = records;
    let last = burst(link, &mut rs[..count]);
    HandedBack {
        link: last,
        records: rs,
    }
}

// A burst of the first records of an array, at most 20. No reference stands in the signature.
pub fn burst_first(link: Link, records: [BurstRecord; 20], count: usize) -> HandedBack
    ensures { Bursted (burst_of_first (min count 20) (read_of link) (asks_of records)) result.link (asks_of result.records) }
{
    lend_first(link, records, count.min(20))
}
