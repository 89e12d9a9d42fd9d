// Lines of a letter and numbers.
ghost use Rattle.std.specs.Prelude.{◌+◌, ◌*◌, ◌≤◌, length};
ghost use mathlib.Core.List.{flat_map};
ghost use Rattle.replies.specs.Lines.{spaced};
ghost use Rattle.trace.specs.Trace.{line_of};
ghost use Rattle.trace.specs.Written.{Lines};

use replies::put_number;

// Writes numbers with a blank before each, 21 bytes at most for each of them.
pub(crate) fn put_numbers(numbers: &[usize], out: &mut [u8], at: usize) -> usize
    requires { at + 21 * length numbers.now ≤ length out.old }
    ensures { Lines (flat_map spaced numbers.now) out.old out.new at result (21 * length numbers.now) }
{
    let mut next = at;
    for number in numbers {
        next = put_number(*number, out, next);
    }
    next
}

// Writes a line.
pub(crate) fn put_line(letter: u8, numbers: &[usize], out: &mut [u8], at: usize) -> usize
    requires { at + (21 * length numbers.now + 2) ≤ length out.old }
    ensures { Lines (line_of letter numbers.now) out.old out.new at result (21 * length numbers.now + 2) }
{
    out[at] = letter;
    let last = put_numbers(numbers, out, at + 1);
    out[last] = b'\n';
    last + 1
}
