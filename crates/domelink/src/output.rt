// Standard output, and what is said on standard error where something was lost.
ghost use Rattle.std.specs.Prelude.{◌≤◌, length, take};
ghost use Rattle.std.specs.Bool.{OnTrue};
ghost use Rattle.std.specs.Io.KnownBytes.{Appends};

use std::io::{Eprint, Write};

// Writes the first bytes of a slice. Where the output takes no more it says so and answers false.
pub(crate) fn write<W: Write>(rt: &impl Eprint, output: &mut W, out: &[u8], end: usize) -> bool
    requires { end ≤ length out.now }
    ensures { OnTrue result (Appends (W.contents output.old) (W.contents output.new) (take end out.now)) }
{
    if output.write_all(&out[..end]).is_ok() {
        return true;
    }
    let _ = rt.eprintln("domelink: output was lost: standard output takes no more");
    false
}

pub(crate) fn input_lost(rt: &impl Eprint) {
    let _ = rt.eprintln("domelink: input was lost: standard input can't be read");
}
