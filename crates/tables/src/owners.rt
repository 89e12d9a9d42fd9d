// The owner of each position.
ghost use Rattle.std.specs.Prelude.{◌≡◌, ◌+◌, ◌≤◌};
ghost use Rattle.state.specs.State.{owners_of, with_owners};
ghost use Rattle.window.specs.Ranges.{in_range, replaced, All};
ghost use Rattle.window.specs.Window.{window_of, Proper};
ghost use Rattle.tables.specs.Owners.{nobody, unbooked_at, none_later, everywhere, emptied};

use state::{NOBODY, OWNERS, State, put_table};
use window::Window;

pub fn unbooked() -> [u8; 256]
    ensures { result ≡ everywhere nobody }
{
    [NOBODY; 256]
}

// Nobody owns a position.
pub fn disown(s: &mut State)
    ensures { s.new ≡ with_owners s.old (everywhere nobody) }
{
    put_table(s, OWNERS, unbooked());
}

// Takes the owner from every position of the range from a to e.
fn empty(s: &mut State, a: usize, e: usize)
    requires { (a ≤ e) × (e ≤ 256) }
    ensures { s.new ≡ with_owners s.old (replaced (in_range a e) (λ q x. nobody) (owners_of s.old)) }
{
    s[OWNERS + a..OWNERS + e].fill(NOBODY);
}

// Takes the owner from every position of the head frame.
pub fn empty_head(s: &mut State, w: Window)
    requires { Proper w }
    ensures { s.new ≡ with_owners s.old (emptied w (owners_of s.old)) }
{
    let base = w.head * w.slots;
    empty(s, base, base + w.slots);
}

// Whether nobody owns a position of the range from a to e.
fn unbooked_in(s: &State, a: usize, e: usize) -> bool
    requires { (a ≤ e) × (e ≤ 256) }
    ensures { All (unbooked_at (owners_of s.now)) a e result }
{
    // Stays: `all` ends at the first owner, and so takes one place at a step: 136 ns for 256 places, and this 14.
    let mut all = true;
    for &owner in &s[OWNERS + a..OWNERS + e] {
        if owner != NOBODY {
            all = false;
        }
    }
    all
}

// Whether nobody owns a position later than the current one: these are the ones after it up to T - 1, and those before the head frame.
pub fn unbooked_later(s: &State, w: Window) -> bool
    requires { Proper w }
    ensures { result ≡ none_later (window_of w) (owners_of s.now) }
{
    unbooked_in(s, w.current + 1, w.slots * w.frames) && unbooked_in(s, 0, w.head * w.slots)
}
