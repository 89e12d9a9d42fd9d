// Records: whole ones are played, and the bytes of one that is not whole yet are kept.
ghost use Rattle.std.specs.Prelude.{[], ◌+◌, ◌*◌, ◌/◌, ◌≤◌, length};
ghost use Rattle.link.specs.Steps.{read_of};
ghost use Rattle.program.specs.Stage as stage;
ghost use Rattle.program.specs.State.{bytes_in, Plays};
ghost use Rattle.program.specs.Promises.{Finished};
ghost use Rattle.program.specs.Parts.{RoomFor, LeavesFed};

use crate::keeping::{filled, none};
use crate::{Kept, Progress, State};
use calls::RECORD;
use link::Link;

// Plays the whole records of a slice, whose lines go to `out` from `at` on, and keeps the bytes after them.
pub(crate) fn play_on(link: Link, bytes: &[u8], out: &mut [u8], at: usize) -> Progress
    requires { at + 7 * (length bytes.now / 5) ≤ length out.old }
    ensures { LeavesFed (stage.playing (read_of link) []) bytes.now out.old at result out.new }
{
    let played = playback::play(link, bytes, &mut out[at..]);
    let used = played.used;
    let kept = filled(none(), RECORD, &bytes[used..]);
    Progress {
        state: State::Playing(played.link, kept),
        written: at + played.end,
    }
}

// Makes a record that was cut off whole from the start of a piece, plays it, and plays on.
pub(crate) fn go_on(link: Link, kept: Kept, piece: &[u8], out: &mut [u8]) -> Progress
    requires { Plays kept × RoomFor piece.now out.old }
    ensures { LeavesFed (stage.playing (read_of link) (bytes_in kept)) piece.now out.old 0 result out.new }
{
    let count = kept.count;
    if count == 0 {
        return play_on(link, piece, out, 0);
    }
    let whole = filled(kept, RECORD, piece);
    if whole.count < RECORD {
        return Progress {
            state: State::Playing(link, whole),
            written: 0,
        };
    }
    let bytes = whole.bytes;
    let played = playback::play(link, &bytes[..RECORD], out);
    play_on(played.link, &piece[whole.count - count..], out, played.end)
}

// The line of a record that is cut off where the input ends, which the call reader refuses; nothing where no byte is kept.
pub(crate) fn last_line(link: Link, kept: Kept, out: &mut [u8]) -> usize
    requires { Plays kept }
    ensures { Finished (stage.playing (read_of link) (bytes_in kept)) out.old result out.new }
{
    let count = kept.count;
    if count == 0 {
        return 0;
    }
    let bytes = kept.bytes;
    let Some(_) = calls::read(&bytes[..count], 0) else {
        return calls::write_refusal(16, out, 0);
    };
    0
}
