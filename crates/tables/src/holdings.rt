// What each flow holds at each position: what flow i holds at position p stands at ROW * i + p of the state.
// From p on means at p and at every later position. With h the first position of the head frame: where h <= p, these are p to T - 1 and
// 0 to h - 1; where p < h, they are p to h - 1.
// A change from p on, and a test of what is held from p on, is one pass over all T places; at those before p it changes nothing, and the test
// uses a value that passes. A byte counts the places from the head frame's first position on, going round 256, and tells by one comparison
// which of the two a place is.
ghost use Rattle.std.specs.Prelude.{◌≡◌, cond, ◌+◌, ◌-◌, ◌*◌, ◌≤◌, ◌<◌, max, min, ltb, get_or};
ghost use Rattle.model.specs.Window as model;
ghost use Rattle.window.specs.Bytes.{wrapped};
ghost use Rattle.window.specs.Ranges.{in_range, replaced, All, LastIn};
ghost use Rattle.window.specs.Window.{window_of, size_of, base_of, Proper, InWindow, FromRank};
ghost use Rattle.state.specs.State.{with_held};
ghost use Rattle.tables.specs.Asked.{FlowAt, FlowsOf};
ghost use Rattle.tables.specs.Owners.{everywhere};
ghost use Rattle.tables.specs.Rows.{row, Sixteen, with_row, carried_rows};
ghost use Rattle.tables.specs.Padded.{on_from, pad};
ghost use Rattle.tables.specs.Holdings.{some_held, room_at, largest, most_held, shifted_row, shifted, carried, nothing_held};
ghost use Rattle.tables.specs.Bounds.{raised, lowered};

use state::{BOUNDS, ROW, State, put_table};
use window::Window;
use window::numbers::select_below;
use window::positions::before;

// Whether fewer than the cells are held at every place of the range from a to e, which has one.
fn room_in(s: &State, cells: u8, a: usize, e: usize) -> bool
    requires { (a < e) × (e ≤ 4096) }
    ensures { All (room_at s.now cells) a e result }
{
    let mut most = 0u8;
    for &held in &s[a..e] {
        most = most.max(held);
    }
    most < cells
}

// One more than the last place of a range at which no fewer than the cells are held, or the first place.
fn last_full(s: &State, cells: u8, a: usize, e: usize) -> usize
    requires { (a ≤ e) × (e ≤ 4096) }
    ensures { LastIn (room_at s.now cells) a e result }
{
    for q in (a..e).rev() {
        if cells <= s[q] {
            return q + 1;
        }
    }
    a
}

// The rank from which on flow i has room at every position.
pub(crate) fn room_rank(s: &State, i: usize, cells: u8, w: Window) -> usize
    requires { Proper w × (i < 16) }
    ensures { FromRank w (λ p. model.every_from (window_of w) p (room_at (row s.now i) cells)) result }
{
    let first = ROW * i;
    let head = first + w.head * w.slots;
    let past = first + w.slots * w.frames;
    if room_in(s, cells, first, past) {
        return 0;
    }
    let k = last_full(s, cells, first, head);
    if first < k {
        return k + past - first - head;
    }
    last_full(s, cells, head, past) - head
}

// Whether flow i has room from p on.
pub fn room_from(s: &State, i: usize, cells: u8, w: Window, p: usize) -> bool
    requires { FlowAt w i p }
    ensures { result ≡ model.every_from (window_of w) p (room_at (row s.now i) cells) }
{
    room_rank(s, i, cells, w) <= w.rank(p)
}

// The holdings of the range from a to e moved modulo 256 by `late`, but not at the places that lie on from a + `base` by less than `from`,
// going round 256.
fn shift(s: &mut State, a: usize, e: usize, base: u8, from: u8, late: u8)
    requires { (a ≤ e) × (e ≤ 4096) }
    ensures { s.new ≡ replaced (in_range a e) (λ k x. wrapped (pad base from 0 late (k - a)) x) s.old }
{
    // how far the place lies on from a + base, going round 256
    let mut x = base.wrapping_neg();
    for held in &mut s[a..e] {
        *held = held.wrapping_add(select_below(x, from, 0, late));
        x = x.wrapping_add(1);
    }
}

// How far position p lies on from the head frame's first one, going round 256 and not T: among the positions of the window the order is
// that of the ranks.
fn on_from_head(w: Window, p: usize) -> u8
    requires { InWindow w p }
    ensures { result ≡ on_from (base_of w) p }
{
    let start = w.head * w.slots;
    (p as u8).wrapping_sub(start as u8)
}

// Flow i's holdings from p on, each moved by a number modulo 256: 1 is one more, 255 one fewer.
fn shift_from(s: &mut State, by: u8, i: usize, w: Window, p: usize)
    requires { FlowAt w i p }
    ensures { s.new ≡ shifted (window_of w) by i p s.old }
{
    let first = ROW * i;
    let past = first + w.slots * w.frames;
    let base = w.head * w.slots;
    shift(s, first, past, base as u8, on_from_head(w, p), by);
}

// Whether something is held at every place of the range from a to e but those that lie on from a + `base` by less than `from`.
fn held_in(s: &State, a: usize, e: usize, base: u8, from: u8) -> bool
    requires { (a ≤ e) × (e ≤ 4096) }
    ensures { All (λ k. ltb 0 (max (get_or s.now k 0) (pad base from 255 0 (k - a)))) a e result }
{
    let mut least = 255u8;
    // how far the place lies on from a + base, going round 256
    let mut x = base.wrapping_neg();
    for &held in &s[a..e] {
        least = least.min(held.max(select_below(x, from, 255, 0)));
        x = x.wrapping_add(1);
    }
    0 < least
}

// Whether flow i holds something from p on.
fn held_from(s: &State, i: usize, w: Window, p: usize) -> bool
    requires { FlowAt w i p }
    ensures { result ≡ model.every_from (window_of w) p (some_held (row s.now i)) }
{
    let first = ROW * i;
    let past = first + w.slots * w.frames;
    let base = w.head * w.slots;
    held_in(s, first, past, base as u8, on_from_head(w, p))
}

// The holdings of the range from a to e moved as by `shift` with 255, and the largest of them then.
fn lower(s: &mut State, a: usize, e: usize, base: u8, from: u8) -> u8
    requires { (a ≤ e) × (e ≤ 4096) }
    ensures most { result ≡ largest (e - a) (λ k. wrapped (pad base from 0 255 k) (get_or s.old (a + k) 0)) }
    ensures shifts { s.new ≡ replaced (in_range a e) (λ k x. wrapped (pad base from 0 255 (k - a)) x) s.old }
{
    let mut most = 0u8;
    // how far the place lies on from a + base, going round 256
    let mut x = base.wrapping_neg();
    for held in &mut s[a..e] {
        *held = held.wrapping_add(select_below(x, from, 0, 255));
        most = most.max(*held);
        x = x.wrapping_add(1);
    }
    most
}

// Flow i's holdings from p on, each one fewer modulo 256, and the most that the flow holds then.
fn lower_all(s: &mut State, i: usize, w: Window, p: usize) -> u8
    requires { FlowAt w i p }
    ensures most { result ≡ most_held (size_of w) (shifted_row (window_of w) 255 p (row s.old i)) }
    ensures shifts { s.new ≡ shifted (window_of w) 255 i p s.old }
{
    let first = ROW * i;
    let past = first + w.slots * w.frames;
    let base = w.head * w.slots;
    lower(s, first, past, base as u8, on_from_head(w, p))
}

// One fewer from p on where flow i holds something at each of these positions, and the flow's bound is the most that it holds then; else
// nothing changes; and which of the two it is.
// One fewer than 0 is 255: where none of the flow's holdings is 255 after it, something was held at each of these positions. Where one is,
// the holdings are raised again, and tested: 255 may have been held at an earlier position.
pub fn lower_from(s: &mut State, i: usize, w: Window, p: usize) -> bool
    requires { FlowAt w i p }
    ensures was { result ≡ model.every_from (window_of w) p (some_held (row s.old i)) }
    ensures holds { s.new ≡ cond result (lowered w i p s.old) s.old }
{
    let most = lower_all(s, i, w, p);
    if most < 255 {
        s[BOUNDS + i] = most;
        return true;
    }
    shift_from(s, 1, i, w, p);
    if !held_from(s, i, w, p) {
        return false;
    }
    shift_from(s, 255, i, w, p);
    s[BOUNDS + i] = most;
    true
}

// The next byte, and 255 after 255.
fn saturating_inc(bound: u8) -> u8
    ensures { result ≡ min (bound + 1) 255 }
{
    bound.saturating_add(1)
}

// One more from a position on for flow i, whose bound goes up with it.
pub fn raise_from(s: &mut State, i: usize, w: Window, position: usize)
    requires { FlowAt w i position }
    ensures { s.new ≡ raised w i position s.old }
{
    let bound = s[BOUNDS + i];
    shift_from(s, 1, i, w, position);
    s[BOUNDS + i] = saturating_inc(bound);
}

// The table of a flow that holds nothing at any position.
// Stays: the tables of a fresh link begin as `[0u8; 256]` and, in `unbooked`, as `[16u8; 256]`; decision 18 names both.
fn unheld() -> [u8; 256]
    ensures { result ≡ everywhere 0 }
{
    [0u8; 256]
}

// Stores a flow's table as its row.
pub fn store(s: &mut State, i: usize, table: [u8; 256])
    requires { i < 16 }
    ensures { s.new ≡ with_row s.old i table }
{
    put_table(s, ROW * i, table);
}

// Nothing is held: the table of each flow, stored as that flow's row. Nothing of what was held is left.
pub fn hold_nothing(s: &mut State)
    requires { Sixteen s.old }
    ensures { s.new ≡ with_held s.old nothing_held }
{
    for i in 0..16 {
        store(s, i, unheld());
    }
}

// What each of n flows holds at the last position goes on at the positions from a to e.
fn carry(s: &mut State, count: usize, last: usize, a: usize, e: usize)
    requires { (count ≤ 16) × (last < 256) × (a ≤ e) × (e ≤ 256) }
    ensures { s.new ≡ carried_rows count last a e s.old }
{
    for i in 0..count {
        let first = ROW * i;
        let value = s[first + last];
        s[first + a..first + e].fill(value);
    }
}

// What each of n flows holds at the last position goes on in the head frame.
pub fn carry_head(s: &mut State, count: usize, w: Window)
    requires { FlowsOf w count }
    ensures { s.new ≡ carried w count s.old }
{
    let base = w.head * w.slots;
    let last = before(w.slots * w.frames, base);
    carry(s, count, last, base, base + w.slots);
}
