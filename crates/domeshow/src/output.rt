// Standard output, and what is said on standard error where something was lost.
ghost use Rattle.std.specs.Prelude.{◌≤◌, length};

use std::io::{Eprint, Write};

// Writes the first bytes of a slice, and says so where the output takes no more.
pub(crate) fn write(rt: &impl Eprint, output: &mut impl Write, out: &[u8], end: usize)
    requires { end ≤ length out.now }
{
    if output.write_all(&out[..end]).is_ok() {
        return;
    }
    let _ = rt.eprintln("domeshow: output was lost: standard output takes no more");
}
