// Records of a piece of the input, as calls.
ghost use Rattle.std.specs.Prelude.{◌≤◌, length};

use trace::Call;

// The most words that stand behind the record of a burst.
const MOST: usize = 20;

// What a record of five bytes comes to.
#[derive(Clone, Copy)]
pub(crate) enum Record {
    Call(Call),
    // so many words follow
    Burst(usize),
}

// How many words stand behind a record.
pub(crate) fn words_of(record: Option<Record>) -> usize
    ensures { result ≤ 20 }
{
    match record {
        Some(Record::Burst(count)) => count.min(MOST),
        _ => 0,
    }
}

// A record that is none of domelink's, if it makes a call.
fn other(bytes: &[u8]) -> Option<Record>
    requires { 5 ≤ length bytes.now }
{
    match [bytes[0], bytes[1], bytes[2], bytes[3], bytes[4]] {
        [4, low, high, 0, 0] => Some(Record::Call(Call::Lend(u16::from_le_bytes([low, high])))),
        [5, 0, 0, 0, 0] => Some(Record::Call(Call::Reset)),
        [6, count, 0, 0, 0] if usize::from(count) <= MOST => {
            Some(Record::Burst(usize::from(count)))
        }
        _ => None,
    }
}

// The record at the start of some bytes, if it makes a call; those of section 14 too where all are asked for.
pub(crate) fn record_at(bytes: &[u8], all: bool) -> Option<Record>
    requires { 5 ≤ length bytes.now }
{
    let Some(call) = calls::read(bytes, 0) else {
        return if all { other(bytes) } else { None };
    };
    Some(Record::Call(match call {
        calls::Call::Request(word) => Call::Request(word),
        calls::Call::Credit(flow, position) => Call::Credit(flow, position),
        calls::Call::Tick => Call::Tick,
    }))
}
