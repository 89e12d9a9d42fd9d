// The state of a link but for its plan: one array of bytes in parts, one after the other. Each part has an offset, a length and a reader, in this
// crate alone: what each flow holds (flow i at position p: ROW * i + p), the owner of each position, the mask of each frame's unbooked slots (eight
// bytes, low first), the flows (four bytes each), for each flow a bound of what it holds, the current position, the mark and the turn.
#![tactic(auto)]

ghost use Rattle.std.specs.Prelude.{◌≡◌, ◌+◌, ◌*◌, ◌≤◌, ◌<◌, length};
ghost use Rattle.state.specs.Parts.{with_part};
ghost use Rattle.state.specs.State.{Whole, mask_at, with_mask, MasksNow};

// How many bytes a state has.
pub const LENGTH: usize = 4499;

pub type State = [u8; LENGTH];

// The owner of a position that nobody booked.
pub const NOBODY: u8 = 16;

// The bytes of one flow's holdings, from ROW * i on.
pub const ROW: usize = 256;

pub const OWNERS: usize = 4096;

pub const MASKS: usize = 4352;

pub const FLOWS: usize = 4416;

pub const BOUNDS: usize = 4480;

pub const CURRENT: usize = 4496;

pub const MARK: usize = 4497;

pub const TURN: usize = 4498;

// The mask of frame j.
pub fn mask_at(s: &State, j: usize) -> u64
    requires { j < 8 }
    ensures { result ≡ mask_at s.now j }
{
    let at = MASKS + 8 * j;
    u64::from_le_bytes([
        s[at],
        s[at + 1],
        s[at + 2],
        s[at + 3],
        s[at + 4],
        s[at + 5],
        s[at + 6],
        s[at + 7],
    ])
}

// Stores the mask of frame j. That it fits eight bytes follows from its type, and is stated so that callers find it.
pub fn put_mask(s: &mut State, j: usize, x: u64)
    requires { j < 8 }
    ensures is { s.new ≡ with_mask s.old j x }
    ensures fits { x < 18446744073709551616 }
{
    let at = MASKS + 8 * j;
    s[at..at + 8].copy_from_slice(&x.to_le_bytes());
}

// Stores the masks of all frames.
pub fn put_masks(s: &mut State, masks: [u64; 8])
    requires { Whole s.old × (length masks ≡ 8) }
    ensures { MasksNow s.old s.new masks }
{
    for (j, mask) in masks.iter().enumerate() {
        put_mask(s, j, *mask);
    }
}

// Stores a table of 256 bytes at a place and from it on.
pub fn put_table(s: &mut State, first: usize, table: [u8; 256])
    requires { first + 256 ≤ 4499 }
    ensures { s.new ≡ with_part s.old first 256 table }
{
    s[first..first + 256].copy_from_slice(&table);
}
