// A state taken up again where a link was left: the flows and what they hold are stored to an empty one, and then the rest.
ghost use Rattle.std.specs.Prelude.{◌≡◌};
ghost use Rattle.state.specs.State.{Whole};
ghost use Rattle.window.specs.Window.{Proper};
ghost use Rattle.link.specs.Resumed.{empty, OwnersMasked, Unbounded, Resumed};

use state::{BOUNDS, CURRENT, LENGTH, MARK, NOBODY, OWNERS, State, TURN, put_masks, put_table};
use tables::slot_masks::book;
use unbooked::frames::every_slot;
use window::Window;

// The empty state: nothing is held, and no flow is one of a plan.
pub fn empty() -> State
    ensures { result ≡ empty }
{
    [0u8; LENGTH]
}

// The masks of a state by its owners: all slots of the frames, less the positions that somebody booked.
fn mask_owners(s: &mut State, w: Window)
    requires { Proper w × Whole s.old }
    ensures { OwnersMasked w s.old s.new }
{
    let size = w.slots * w.frames;
    put_masks(s, every_slot(w.slots, w.frames));
    for p in 0..size {
        if s[OWNERS + p] != NOBODY {
            book(s, w, p / w.slots, p);
        }
    }
}

// Nothing is said of what a flow holds at most.
fn unbound(s: &mut State)
    ensures { Unbounded s.old s.new }
{
    s[BOUNDS..BOUNDS + 16].fill(255);
}

// The owners of a state with their masks, its current position, its mark and its turn; the flows stay, and what they hold, of which no bound is known.
pub fn resume(s: &mut State, w: Window, owner: [u8; 256], mark: u8, turn: u8)
    requires { Proper w × Whole s.old }
    ensures { Resumed w owner mark turn s.old s.new }
{
    put_table(s, OWNERS, owner);
    mask_owners(s, w);
    unbound(s);
    s[CURRENT] = w.current as u8;
    s[MARK] = mark;
    s[TURN] = turn;
}
