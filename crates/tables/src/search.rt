// The search for a position to book.
ghost use Rattle.std.specs.Prelude.{◌≡◌};
ghost use Rattle.model.specs.Request.{can_leave, some_in_newest};
ghost use Rattle.state.specs.State.{owners_of};
ghost use Rattle.window.specs.Window.{window_of, InWindow, ranks_from, FromRank};
ghost use Rattle.tables.specs.Asked.{FlowWithin, MasksIn, FrameIn, SearchFrom};
ghost use Rattle.tables.specs.Rows.{row};
ghost use Rattle.tables.specs.Search.{found_of, late_at, valid_at, late_after, search_from, ValidSlots};

use crate::Place;
use crate::holdings::room_rank;
use state::{BOUNDS, State, mask_at};
use unbooked::bits::{clear_below, lowest};
use window::Window;
use window::positions::next;

// The rank from which on a position is late enough for a flow: it is not passed, and there is room from it on. Where the flow's bound is below
// the cells, there is room everywhere.
pub fn late_rank(s: &State, i: usize, cells: u8, w: Window) -> usize
    requires { FlowWithin w i s.now }
    ensures { FromRank w (late_at (window_of w) (row s.now i) cells) result }
{
    let after = w.current + 1 - w.head * w.slots;
    if s[BOUNDS + i] < cells {
        return after;
    }
    room_rank(s, i, cells, w).max(after)
}

// The rank from which on a tile with a departure can leave: the one after the departure's, where that is later than CP.
fn leave_rank(w: Window, departure: usize) -> usize
    requires { InWindow w departure }
    ensures { FromRank w (can_leave (window_of w) departure) result }
{
    if w.passed(departure) {
        return 0;
    }
    w.rank(departure) + 1
}

// The valid slots of a frame in one word, where the late positions are those of rank `low` or more.
fn valid_slots(s: &State, w: Window, low: usize, frame: usize) -> u64
    requires { FrameIn w frame s.now }
    ensures { ValidSlots (window_of w) (valid_at (owners_of s.now) (ranks_from w low)) frame result }
{
    clear_below(
        mask_at(s, frame),
        low.saturating_sub(w.rank(frame * w.slots)),
    )
}

// The search from a frame and a remainder up to the newest frame, for a valid position, where the late positions are those of rank
// `low` or more.
fn search(
    s: &State,
    w: Window,
    low: usize,
    share: usize,
    first: usize,
    remainder: usize,
) -> Result<Place, usize>
    requires { FrameIn w first s.now }
    ensures { found_of result ≡ search_from (window_of w) (valid_at (owners_of s.now) (ranks_from w low)) share first remainder }
{
    let mut frame = first;
    let mut left = remainder;
    let newest = w.newest();
    'search: loop {
        if 0 < left {
            let valid = valid_slots(s, w, low, frame);
            if valid != 0 {
                break 'search Ok(Place {
                    frame,
                    left: left - 1,
                    position: frame * w.slots + lowest(valid),
                });
            }
        }
        if frame == newest {
            break 'search Err(left);
        }
        frame = next(w.frames, frame);
        left = share;
    }
}

// The search from a frame and a remainder up to the newest frame for a word with a departure, where the late positions are those of rank
// `late` or more.
pub fn find(
    s: &State,
    w: Window,
    late: usize,
    departure: usize,
    share: usize,
    first: usize,
    remainder: usize,
) -> Result<Place, usize>
    requires { SearchFrom w departure first s.now }
    ensures { found_of result
        ≡ search_from (window_of w) (valid_at (owners_of s.now) (late_after (window_of w) departure (ranks_from w late))) share first remainder }
{
    let low = leave_rank(w, departure).max(late);
    search(s, w, low, share, first, remainder)
}

// Whether the newest frame has a valid slot, where the late positions are those of rank `late` or more.
pub fn valid_in_newest(s: &State, w: Window, late: usize) -> bool
    requires { MasksIn w s.now }
    ensures { result ≡ some_in_newest (window_of w) (valid_at (owners_of s.now) (ranks_from w late)) }
{
    valid_slots(s, w, late, w.newest()) != 0
}
