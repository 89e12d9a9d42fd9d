// The masks of unbooked slots: one slot booked, and a frame's slots all free again.
ghost use Rattle.window.specs.Window.{Proper};
ghost use Rattle.unbooked.specs.Words.{InFrame};
ghost use Rattle.tables.specs.Masks.{Booked, Recycled};

use state::{State, mask_at, put_mask};
use unbooked::bits::{below, without};
use window::Window;

// A position of a frame is booked.
pub fn book(s: &mut State, w: Window, frame: usize, position: usize)
    requires { InFrame w frame position }
    ensures { Booked w.slots frame position s.old s.new }
{
    put_mask(
        s,
        frame,
        without(mask_at(s, frame), position - frame * w.slots),
    );
}

// Nobody owns a slot of the head frame.
pub fn recycle_head(s: &mut State, w: Window)
    requires { Proper w }
    ensures { Recycled w.slots w.head s.old s.new }
{
    put_mask(s, w.head, below(w.slots));
}
