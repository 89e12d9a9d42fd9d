// Waiting for an output that takes nothing for now.
ghost use Rattle.std.specs.Prelude.{◌≡◌};
ghost use Rattle.domeplan.specs.Waiting.{may_go_on};

use std::thread;
use std::time::{Clock, Duration};

// The numbers of two errors, as the system has them.
const EINTR: i32 = 4;

const EAGAIN: i32 = 11;

// Waits for a millisecond.
fn pause(clock: &impl Clock) {
    thread::sleep(clock, Duration::from_millis(1));
}

// Whether a write that failed for this reason may be made again: a signal came first, or the output takes nothing for now, which is waited for.
pub(crate) fn may_go_on(clock: &impl Clock, reason: i32) -> bool
    ensures { result ≡ may_go_on reason }
{
    if reason == EINTR {
        return true;
    }
    if reason != EAGAIN {
        return false;
    }
    pause(clock);
    true
}
