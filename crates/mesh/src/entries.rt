// The tests of the numbers, before the links are looked at.
ghost use Rattle.std.specs.Prelude.{◌*◌, ◌≤◌, ◌≡◌, not, length};
ghost use Rattle.model.specs.Tables.{any};
ghost use Rattle.mesh.specs.Admission as admission;
ghost use Rattle.mesh.specs.Streams.{stream_with};
ghost use Rattle.mesh.specs.Reading.{stream_at, streams_of};
ghost use Rattle.mesh.specs.Refusals.{refusal_number};

use crate::Refusal;

// The most slots of a frame.
const MOST_SLOTS: usize = 64;

// The most streams.
const MOST_STREAMS: usize = 64;

// The node of the last board.
const LAST_NODE: usize = 63;

// Whether a stream keeps its limits in frames of so many slots.
#[tactic(auto, unfolding(crate::specs::Admission::stream_fits))]
fn fits(slots: usize, source: usize, destination: usize, share: usize) -> bool
    ensures { result ≡ admission.stream_fits slots (stream_with source destination share) }
{
    if !(1..=slots).contains(&share) || LAST_NODE < source || LAST_NODE < destination {
        return false;
    }
    source != destination
}

// Test 4: some stream breaks its limits.
fn streams_out_of_range(slots: usize, numbers: &[usize], count: usize) -> bool
    requires { 3 * count ≤ length numbers.now }
    ensures { result ≡ any count (λ i. not (admission.stream_fits slots (stream_at numbers.now i))) }
{
    for i in 0..count {
        if !fits(
            slots,
            numbers[3 * i],
            numbers[3 * i + 1],
            numbers[3 * i + 2],
        ) {
            return true;
        }
    }
    false
}

// The first of these tests that applies.
pub(crate) fn check_before_links(slots: usize, numbers: &[usize]) -> Result<(), Refusal>
    ensures { refusal_number result ≡ admission.refusal_before_links slots (streams_of numbers.now) }
{
    let count = numbers.len() / 3;
    if MOST_STREAMS < count {
        return Err(Refusal::Mesh);
    }
    if !(1..=MOST_SLOTS).contains(&slots) {
        return Err(Refusal::Frame);
    }
    if streams_out_of_range(slots, numbers, count) {
        return Err(Refusal::Stream);
    }
    Ok(())
}
