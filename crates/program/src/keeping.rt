// Bytes that are kept until a plan or a record is whole.
ghost use Rattle.std.specs.Prelude.{◌++◌, [], ◌-◌, ◌≤◌, take};
ghost use Rattle.program.specs.State.{bytes_in, Keeps};

use crate::{Kept, LONGEST_PLAN};

pub(crate) fn none() -> Kept
    ensures { Keeps result [] }
{
    Kept {
        bytes: [0u8; LONGEST_PLAN],
        count: 0,
    }
}

// Takes bytes from the start of a piece until `to` are kept, or the piece ends.
pub(crate) fn filled(kept: Kept, to: usize, piece: &[u8]) -> Kept
    requires { Keeps kept (bytes_in kept) × (to ≤ 76) }
    ensures { Keeps result (bytes_in kept ++ take (to - kept.count) piece.now) }
{
    let start = kept.count;
    if to <= start {
        return kept;
    }
    let more = (to - start).min(piece.len());
    let mut bytes = kept.bytes;
    bytes[start..start + more].copy_from_slice(&piece[..more]);
    Kept {
        bytes,
        count: start + more,
    }
}
