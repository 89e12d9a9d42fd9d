// Standard output, and what is said on standard error where something was lost.
ghost use Rattle.std.specs.Prelude.{◌≤◌, ◌<◌, cond, length, take, IfSome, unwrap_or};
ghost use Rattle.std.specs.Bool.{OnTrue};
ghost use Rattle.std.specs.Io.KnownBytes.{Appends};

use crate::waiting::may_go_on;
use std::io::{Eprint, Write};
use std::time::Clock;

// Writes once; how many bytes were taken, as long as the output may take more. Where it takes nothing for now, it waits a moment.
fn write_once<W: Write>(clock: &impl Clock, output: &mut W, bytes: &[u8]) -> Option<usize>
    ensures few { IfSome result (λ n. n ≤ length bytes.now) }
    ensures written { Appends (W.contents output.old) (W.contents output.new) (take (unwrap_or result 0) bytes.now) }
{
    match output.write(bytes) {
        Ok(0) => None,
        Ok(got) => Some(got),
        Err(error) => may_go_on(clock, error.raw_os_error().unwrap_or(0)).then_some(0),
    }
}

// Writes the first bytes of a slice, as long as the output may take more; how many were taken. A proved loop has to end: the turns are more than are ever
// made.
fn write_all<W: Write>(clock: &impl Clock, output: &mut W, out: &[u8], end: usize) -> usize
    requires { end ≤ length out.now }
    ensures most { result ≤ end }
    ensures written { Appends (W.contents output.old) (W.contents output.new) (take result out.now) }
{
    let mut done = 0;
    'turns: for _ in 0..u64::MAX {
        if done == end {
            break 'turns;
        }
        let Some(count) = write_once(clock, output, &out[done..end]) else {
            break 'turns;
        };
        done += count;
    }
    done
}

// Writes the first bytes of a slice. Where the output takes no more it says so and answers false.
pub(crate) fn write<W: Write>(
    rt: &(impl Eprint + Clock),
    output: &mut W,
    out: &[u8],
    end: usize,
) -> bool
    requires { end ≤ length out.now }
    ensures lost { 0 < cond result 1 end }
    ensures written { OnTrue result (Appends (W.contents output.old) (W.contents output.new) (take end out.now)) }
{
    if write_all(rt, output, out, end) == end {
        return true;
    }
    let _ = rt.eprintln("domeplan: output was lost: standard output takes no more");
    false
}

pub(crate) fn input_lost(rt: &impl Eprint) {
    let _ = rt.eprintln("domeplan: input was lost: standard input can't be read");
}
