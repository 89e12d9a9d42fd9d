// 16-bit fields of a slice, low byte first: one read or written, and a table of them.
#![tactic(auto)]

ghost use Rattle.std.specs.Prelude.{◌≡◌, ◌∷◌, [], ◌+◌, ◌*◌, ◌≤◌, ◌<◌, length, get_or};
ghost use Rattle.model.specs.Plan.{field16};
ghost use Rattle.model.specs.WrittenPlan.{AllBytes};
ghost use Rattle.calls.specs.Lines.{Puts};
ghost use Rattle.window.specs.Ranges.{in_range, replaced};
ghost use Rattle.state.specs.Parts.{part};
ghost use Rattle.tables.specs.Owners.{everywhere};
ghost use Rattle.imagemodel.specs.Image.{fields, field_at};
ghost use Rattle.fields.specs.Fields.{AllFit, ByteFields};

use state::State;

// The byte at a place. That each one is below 256 is so by their type; it is stated so that callers find it.
pub fn byte(bytes: &[u8], at: usize) -> usize
    requires { at < length bytes.now }
    ensures is { result ≡ get_or bytes.now at 0 }
    ensures all { AllBytes bytes.now }
{
    usize::from(bytes[at])
}

// The field at a place.
pub fn field(bytes: &[u8], at: usize) -> usize
    requires { at + 1 < length bytes.now }
    ensures is { result ≡ field16 bytes.now at }
    ensures most { result < 65536 }
{
    usize::from(u16::from_le_bytes([bytes[at], bytes[at + 1]]))
}

// Writes a field at a place and returns the place after it.
// Stays: a copy of the bytes of `to_le_bytes` over a part of the slice is no plainer than two stores.
pub fn put(x: usize, out: &mut [u8], at: usize) -> usize
    requires { (x < 65536) × (at + 1 < length out.old) }
    ensures { Puts (fields (x ∷ [])) out.old out.new at result }
{
    out[at] = (x % 256) as u8;
    out[at + 1] = (x / 256) as u8;
    at + 2
}

// Writes numbers as fields from a place on and returns the place after them.
pub fn put_all(numbers: &[usize], out: &mut [u8], at: usize) -> usize
    requires { AllFit numbers.now × (at + 2 * length numbers.now ≤ length out.old) }
    ensures { Puts (fields numbers.now) out.old out.new at result }
{
    let mut next = at;
    for x in numbers {
        next = put(*x, out, next);
    }
    next
}

// The fields from a place on, each of them a byte, as the first of a table; the rest of it is one value.
pub fn read_table(bytes: &[u8], at: usize, count: usize, spare: u8) -> [u8; 256]
    requires { ByteFields bytes.now at count }
    ensures { result ≡ replaced (in_range 0 count) (λ p x. field_at bytes.now at p) (everywhere spare) }
{
    let mut table = [spare; 256];
    for p in 0..count {
        table[p] = field(bytes, at + 2 * p) as u8;
    }
    table
}

// Writes bytes of a state as fields, so many from its place `first` on, and returns the place after them.
pub fn put_part(s: &State, first: usize, count: usize, out: &mut [u8], at: usize) -> usize
    requires { (first + count ≤ 4499) × (at + 2 * count ≤ length out.old) }
    ensures { Puts (fields (part s.now first count)) out.old out.new at result }
{
    let mut next = at;
    for x in &s[first..first + count] {
        next = put(usize::from(*x), out, next);
    }
    next
}
