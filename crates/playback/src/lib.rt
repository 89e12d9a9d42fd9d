// Call records of a slice played in place.
#![tactic(auto)]

ghost use Rattle.link.specs.Links.{SoundLink};
ghost use Rattle.link.specs.Steps.{read_of};
ghost use Rattle.playback.specs.Playback.{PlayedRecords};

use calls::{Call, LONGEST_LINE, RECORD};
use linetable::{TICKS, lines, write_accepted, write_reply};
use link::Link;
use link::credit::credit;
use link::request::{flow_or_zero, request};
use link::tick::tick;
use state::OWNERS;

// A link after some records, and how far they and their lines go.
#[derive(Clone, Copy)]
pub struct Playback {
    pub link: Link,
    // bytes of the records that were played
    pub used: usize,
    // where their lines end in `out`
    pub end: usize,
}

// Plays the records of a slice and writes their lines from the start of `out` on: every whole record, or as many as `out` has room for,
// seven bytes each.
pub fn play(link: Link, records: &[u8], out: &mut [u8]) -> Playback
    ensures played_records { PlayedRecords (read_of link) records.now out.old
        (read_of result.link) result.used result.end out.new }
    ensures sound { SoundLink result.link }
{
    let count = (records.len() / RECORD).min(out.len() / LONGEST_LINE);
    let plan = link.plan;
    let mut w = link.window();
    let mut state = link.state;
    let made = lines();
    let mut end = 0;
    for k in 0..count {
        let Some(call) = calls::read(records, RECORD * k) else {
            end = calls::write_refusal(16, out, end);
            continue;
        };
        match call {
            Call::Request(word) => {
                let fields = word::split(word);
                let i = flow_or_zero(plan.count, fields.flow as usize);
                let reply = request(&mut state, plan.count, plan.entries[i], w, fields);
                end = write_reply(reply.number, made[reply.position as usize], out, end);
            }
            Call::Credit(flow, position) => {
                let number = credit(&mut state, plan, w, flow, position);
                if number != 0 {
                    end = calls::write_refusal(number, out, end);
                } else {
                    end = write_accepted(out, end);
                }
            }
            Call::Tick => {
                w = tick(&mut state, plan, w);
                let owner = state[OWNERS + w.current];
                let line = made[TICKS + owner as usize];
                end = linetable::write(line, out, end);
            }
        }
    }
    Playback {
        link: Link { plan, state },
        used: RECORD * count,
        end,
    }
}
