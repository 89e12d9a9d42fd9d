// Ranges: a number between two limits, the limits one by one, and test 3.
ghost use Rattle.std.specs.Prelude.{◌≡◌};
ghost use Rattle.model.specs.Refusals.{condition};
ghost use Rattle.model.specs.Plan as model;

const MOST_SLOTS: usize = 64;

const MOST_FRAMES: usize = 8;

const MOST_BUFFER: usize = 4095;

const MOST_POSITIONS: usize = 256;

const MOST_CELLS: usize = 255;

const LAST_NODE: usize = 63;

// Whether F keeps its limits.
pub fn slots_fit(slots: usize) -> bool
    ensures { result ≡ model.slots_fit slots }
{
    (1..=MOST_SLOTS).contains(&slots)
}

// Whether W keeps its limits.
pub fn frames_fit(frames: usize) -> bool
    ensures { result ≡ model.frames_fit frames }
{
    (2..=MOST_FRAMES).contains(&frames)
}

// Whether N keeps its limits.
pub fn buffer_fits(buffer: usize) -> bool
    ensures { result ≡ model.buffer_fits buffer }
{
    (1..=MOST_BUFFER).contains(&buffer)
}

// Whether T is above its limit.
pub fn many_positions(positions: usize) -> bool
    ensures { result ≡ model.many_positions positions }
{
    MOST_POSITIONS < positions
}

// Whether a share keeps its limits in frames of so many slots.
pub fn share_fits(slots: usize, share: usize) -> bool
    ensures { result ≡ model.share_fits slots share }
{
    (1..=slots).contains(&share)
}

// Whether a flow's cells keep their limits.
pub fn cells_fit(cells: usize) -> bool
    ensures { result ≡ model.cells_fit cells }
{
    (1..=MOST_CELLS).contains(&cells)
}

// Whether there is a node of this number.
pub fn node_fits(node: usize) -> bool
    ensures { result ≡ model.node_fits node }
{
    (0..=LAST_NODE).contains(&node)
}

// RULES 2.3: test 3, on F, W and N, and on T.
pub(crate) fn frames_out_of_range(slots: usize, frames: usize, buffer: usize) -> bool
    ensures { result ≡ condition (model.frame_test slots frames buffer) }
{
    !slots_fit(slots)
        || !frames_fit(frames)
        || !buffer_fits(buffer)
        || many_positions(slots * frames)
}
