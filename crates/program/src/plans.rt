// The plan: its bytes are kept until they are all there, then they are read, and records follow an accepted plan.
ghost use Rattle.std.specs.Prelude.{◌≡◌, not, ◌+◌, ◌*◌, ◌/◌, ◌≤◌, ◌<◌, length};
ghost use Rattle.model.specs.Tables.{within};
ghost use Rattle.model.specs.Listing.{plan_length};
ghost use Rattle.program.specs.Stage as stage;
ghost use Rattle.program.specs.State.{bytes_in, Keeps, Awaits};
ghost use Rattle.program.specs.Parts.{RoomFor, LeavesFed, LeavesPlan};

use crate::keeping::filled;
use crate::records::play_on;
use crate::{Kept, LONGEST_PLAN, Progress, State};
use link::Link;

// L, the first two bytes as a number.
fn stated_length(bytes: [u8; LONGEST_PLAN]) -> usize
    ensures { result ≡ plan_length bytes }
{
    usize::from(u16::from_le_bytes([bytes[0], bytes[1]]))
}

// Whether L isn't 12 to 76.
fn never_a_plan(total: usize) -> bool
    ensures { result ≡ not (within 12 76 total) }
{
    !(12..=LONGEST_PLAN).contains(&total)
}

// Reads a plan whose bytes are all there, writes its line, and plays on where it is accepted.
fn begin(kept: Kept, rest: &[u8], out: &mut [u8]) -> Progress
    requires { Keeps kept (bytes_in kept) × (7 + 7 * (length rest.now / 5) ≤ length out.old) }
    ensures { LeavesPlan (bytes_in kept) rest.now out.old 0 result out.new }
{
    let count = kept.count;
    let bytes = kept.bytes;
    match plan::read(&bytes[..count]) {
        Ok(plan) => {
            let at = calls::write_plan(0, out, 0);
            play_on(Link::fresh(plan), rest, out, at)
        }
        Err(refusal) => {
            let written = calls::write_plan(refusal.number(), out, 0);
            Progress {
                state: State::Ended,
                written,
            }
        }
    }
}

// Keeps bytes from the start of a piece until the plan is all there, or can't be one, and goes on with the rest.
pub(crate) fn go_on(kept: Kept, piece: &[u8], out: &mut [u8]) -> Progress
    requires { Awaits kept × RoomFor piece.now out.old }
    ensures { LeavesFed (stage.reading (bytes_in kept)) piece.now out.old 0 result out.new }
{
    let start = kept.count;
    let two = filled(kept, 2, piece);
    if two.count < 2 {
        return Progress {
            state: State::Reading(two),
            written: 0,
        };
    }
    let bytes = two.bytes;
    let total = stated_length(bytes);
    if never_a_plan(total) {
        let written = calls::write_plan(1, out, 0);
        return Progress {
            state: State::Ended,
            written,
        };
    }
    let behind = &piece[two.count - start..];
    let whole = filled(two, total, behind);
    if whole.count < total {
        return Progress {
            state: State::Reading(whole),
            written: 0,
        };
    }
    begin(whole, &behind[whole.count - two.count..], out)
}
