// Call records: five bytes each.
ghost use Rattle.std.specs.Prelude.{◌≡◌, ◌+◌, ◌<◌, length, take, drop};
ghost use Rattle.model.specs.Record.{field32, call_of};
ghost use Rattle.calls.specs.Reading.{record_for, number_of, number_for};

use crate::{Call, RECORD};

// The number of four bytes, low byte first.
fn word_at(bytes: &[u8], at: usize) -> u32
    requires { at + 3 < length bytes.now }
    ensures { result ≡ field32 bytes.now at }
{
    u32::from_le_bytes([bytes[at], bytes[at + 1], bytes[at + 2], bytes[at + 3]])
}

// Reads the record that starts at a place: its kind, and its other bytes as a word. A record that makes no call, refusal 16, is None.
#[tactic(auto, using(std::proofs::lemmas::Bool::Decides::nat_tests, crate::proofs::Words::call_by_word, crate::proofs::Words::none_of_few))]
pub fn read(records: &[u8], at: usize) -> Option<Call>
    ensures is { result ≡ record_for (call_of (take 5 (drop at records.now))) }
    ensures number { number_of result ≡ number_for (call_of (take 5 (drop at records.now))) }
{
    if records.len() < RECORD || records.len() - RECORD < at {
        return None;
    }
    let word = word_at(records, at + 1);
    match records[at] {
        1 => Some(Call::Request(word)),
        // the last byte is the filler
        2 if word < 16777216 => Some(Call::Credit((word % 256) as usize, (word / 256) as usize)),
        3 if word == 0 => Some(Call::Tick),
        _ => None,
    }
}
