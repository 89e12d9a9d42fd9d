// The records of a play: five bytes each, of which the last may have fewer.
ghost use Rattle.std.specs.Prelude.{◌≡◌, take, drop};
ghost use Rattle.imagemodel.specs.Play.{call_of, other_call};
ghost use Rattle.nazgolv.specs.Calls.{found_for};

use crate::Call;
use calls::RECORD;
use fields::field;

// The record that starts at a place, if it is a lend's or a reset's.
fn other(records: &[u8], at: usize) -> Option<Call>
    ensures { result ≡ found_for (other_call (take 5 (drop at records.now))) }
{
    if records.len() < RECORD || records.len() - RECORD < at {
        return None;
    }
    let first = field(records, at + 1);
    // the last two bytes are fillers of both
    if field(records, at + 3) != 0 {
        return None;
    }
    match records[at] {
        4 => Some(Call::Lend(first as u16)),
        5 if first == 0 => Some(Call::Reset),
        _ => None,
    }
}

// The record that starts at a place. One that makes no call, refusal 16, is None.
pub(crate) fn record_at(records: &[u8], at: usize) -> Option<Call>
    ensures { result ≡ found_for (call_of (take 5 (drop at records.now))) }
{
    let Some(call) = calls::read(records, at) else {
        return other(records, at);
    };
    Some(Call::from(call))
}
