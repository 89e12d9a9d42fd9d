// Standard output, and what is said on standard error where something was lost.
ghost use Rattle.std.specs.Prelude.{◌≤◌, length, take, OnOk};
ghost use Rattle.std.specs.Io.KnownBytes.{Appends};

use std::io;
use std::io::{Eprint, Write};

// Writes the first bytes of a slice. Where the output takes no more it says so, and hands the error on.
pub(crate) fn write<W: Write>(
    rt: &impl Eprint,
    output: &mut W,
    out: &[u8],
    end: usize,
) -> io::Result<()>
    requires { end ≤ length out.now }
    ensures { OnOk result (Appends (W.contents output.old) (W.contents output.new) (take end out.now)) }
{
    let written = output.write_all(&out[..end]);
    if written.is_err() {
        let _ = rt.eprintln("dometrace: output was lost: standard output takes no more");
    }
    written
}

pub(crate) fn input_lost(rt: &impl Eprint) {
    let _ = rt.eprintln("dometrace: input was lost: standard input can't be read");
}
