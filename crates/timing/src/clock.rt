// The clock.
ghost use Rattle.std.specs.Prelude.{◌-◌, ◌≤◌};

use std::time::{Clock, Duration};

// The latest time that is told: 4,294,967,295 seconds and 999,999,999 nanoseconds.
const LAST_SECOND: u64 = 4294967295;

const LAST_REST: u64 = 999999999;

const LATEST: u64 = 1000000000 * LAST_SECOND + LAST_REST;

// Times that the clock's cost is taken.
const READINGS: usize = 100000;

// The time on a clock that never goes back, as the system has it; none where the clock can't be read.
fn instant(clock: &impl Clock) -> Duration {
    clock.monotonic().unwrap_or(Duration::ZERO)
}

// The time on the clock in nanoseconds: what the system says, within 4,294,967,295 seconds.
pub fn nanoseconds(clock: &impl Clock) -> u64
    ensures { result ≤ 4294967295999999999 }
{
    let time = instant(clock);
    let rest = u64::from(time.subsec_nanos());
    1000000000 * time.as_secs().min(LAST_SECOND) + rest.min(LAST_REST)
}

// The nanoseconds since a time.
pub fn since(clock: &impl Clock, begin: u64) -> u64
    ensures { result ≤ 4294967295999999999 - begin }
{
    nanoseconds(clock).saturating_sub(begin)
}

// What it costs to read the clock twice: the lowest of many.
pub fn cost(clock: &impl Clock) -> u64
    ensures { result ≤ 4294967295999999999 }
{
    let mut lowest = LATEST;
    for _ in 0..READINGS {
        let begin = nanoseconds(clock);
        lowest = lowest.min(since(clock, begin));
    }
    lowest
}
