// A call file in memory: the calls, taken apart before anything is timed.
ghost use Rattle.std.specs.Prelude.{◌≡◌, ◌+◌, ◌*◌, ◌/◌, ◌<◌, ◌≤◌, min, length};
ghost use Rattle.timing.specs.File.{two_bytes, kind_of, word_at, Split, Streak};

// The most calls that are played.
pub const MOST: usize = 4096;

// The kinds of calls, with the byte that stands for each.
#[derive(Clone, Copy, Debug, PartialEq, Eq)]
pub enum Kind {
    Request = 1,
    Credit = 2,
    Tick = 3,
}

// The number of two bytes, low byte first.
pub fn two_bytes(bytes: &[u8], at: usize) -> u16
    requires { at + 1 < length bytes.now }
    ensures { result ≡ two_bytes bytes.now at }
{
    u16::from_le_bytes([bytes[at], bytes[at + 1]])
}

// The kind that a byte stands for, if it does.
pub fn kind_of(byte: u8) -> Option<Kind>
    ensures { result ≡ kind_of byte }
{
    match byte {
        1 => Some(Kind::Request),
        2 => Some(Kind::Credit),
        3 => Some(Kind::Tick),
        _ => None,
    }
}

// The number of the four bytes after a record's kind.
fn word_at(records: &[u8], k: usize) -> u32
    requires { 5 * k + 5 ≤ length records.now }
    ensures { result ≡ word_at records.now k }
{
    let low = two_bytes(records, 5 * k + 1);
    let high = two_bytes(records, 5 * k + 3);
    u32::from(low) + 65536 * u32::from(high)
}

// How many records are played of so many bytes.
fn records_in(bytes: usize) -> usize
    ensures { result ≡ min (bytes / 5) 4096 }
{
    (bytes / 5).min(MOST)
}

// Takes the records apart into their kinds and the numbers of the four bytes after, up to one that is of no kind; how many there are.
pub fn split(records: &[u8], kinds: &mut [u8; MOST], words: &mut [u32; MOST]) -> usize
    ensures { Split records.now kinds.old words.old kinds.new words.new result }
{
    let count = records_in(records.len());
    for i in 0..count {
        let kind = records[5 * i];
        if kind_of(kind).is_none() {
            return i;
        }
        kinds[i] = kind;
        words[i] = word_at(records, i);
    }
    count
}

// The place after the streak that starts at a place, of the first `count` calls: calls of one kind in a row.
pub fn streak_end(kinds: &[u8], from: usize, count: usize) -> usize
    requires { (from < count) × (count ≤ length kinds.now) }
    ensures { Streak kinds.now from count result }
{
    for to in from + 1..count {
        if kinds[to] != kinds[from] {
            return to;
        }
    }
    count
}
