// The records of a burst.

use burst::{BurstRecord, HandedBack};
use link::Link;

// A record that asks for a word.
fn unfilled(word: u32) -> BurstRecord {
    BurstRecord {
        word,
        result: 0,
        position: 0,
    }
}

// A link before any burst.
pub(crate) fn none(link: Link) -> HandedBack {
    HandedBack {
        link,
        records: [unfilled(0); 20],
    }
}

// The records of some words.
pub(crate) fn asks(words: &[u32]) -> [BurstRecord; 20] {
    let mut all = [unfilled(0); 20];
    for (record, word) in all.iter_mut().zip(words) {
        *record = unfilled(*word);
    }
    all
}

// An answer as a number: the granted word, or the refusal.
fn number(record: BurstRecord) -> u64 {
    if record.result == 0 {
        return u64::from(record.word / 1024) * 1024 + u64::from(record.position);
    }
    u64::from(record.result)
}

// The sum of the answers in some records.
pub(crate) fn answers(records: &[BurstRecord]) -> u64 {
    let mut sum: u64 = 0;
    for record in records {
        sum = sum.wrapping_add(number(*record));
    }
    sum
}
