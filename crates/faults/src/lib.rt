// Faults: limits that are broken, told one after another as three numbers each, and said in a line.
#![tactic(auto)]

ghost use Rattle.std.specs.Prelude.{◌+◌, ◌*◌, ◌≤◌, ◌<◌, length};
ghost use mathlib.Core.List.{flat_map};
ghost use Rattle.calls.specs.Lines.{Puts};
ghost use Rattle.replies.specs.Lines.{spaced, room, Says};
ghost use Rattle.faults.specs.Told.{told, faults_line};

// Tells a fault, if the limit is broken, at the next place of those found; the place after it.
pub fn tell_if(
    broken: bool,
    number: usize,
    place: usize,
    which: usize,
    found: &mut [usize],
    at: usize,
) -> usize
    requires { at + 3 ≤ length found.old }
    ensures put { Puts (told broken number place which) found.old found.new at result }
    ensures most { result ≤ at + 3 }
{
    if broken {
        found[at] = number;
        found[at + 1] = place;
        found[at + 2] = which;
        return at + 3;
    }
    at
}

// Stores numbers one after another, each after a space.
fn put_numbers(numbers: &[usize], out: &mut [u8], at: usize) -> usize
    requires { at + 21 * length numbers.now ≤ length out.old }
    ensures put { Puts (flat_map spaced numbers.now) out.old out.new at result }
    ensures most { result ≤ at + 21 * length numbers.now }
{
    let mut next = at;
    for n in numbers {
        next = replies::put_number(*n, out, next);
    }
    next
}

// Says the faults that were found, or that there are none.
pub fn say(found: &[usize], out: &mut [u8]) -> usize
    requires { (length found.now ≤ 780) × (room ≤ length out.old) }
    ensures { Says (faults_line found.now) out.old out.new result }
{
    let Some(number) = found.first() else {
        return replies::say(b"ok\n", out);
    };
    let first = replies::put_first(*number, out);
    let end = put_numbers(&found[1..], out, first);
    replies::put(b"\n", out, end)
}
