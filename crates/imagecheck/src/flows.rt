// The conditions on a flow.
ghost use Rattle.std.specs.Prelude.{◌≡◌, ◌+◌, ◌*◌, ◌≤◌, ◌<◌, length};
ghost use Rattle.model.specs.Tables as model;
ghost use Rattle.plan.specs.Reading.{plan_for};
ghost use Rattle.window.specs.Window.{window_of};
ghost use Rattle.imagecheck.specs.Flows.{frame_kept, grows_at, spends_well, holds_well, flow_kept};
ghost use Rattle.imagecheck.specs.Asked.{OwnersOn, FramesOn, HeldOn, PartOn, PartsOn};

use crate::bookings::{booking, bookings};
use crate::layout::Layout;
use crate::straight::{at_most, growing};
use fields::field;
use plan::Plan;
use window::Window;
use window::positions::{ahead, before};

// How many quantum numbers there are.
const NUMBERS: usize = 1024;

// Whether flow i's bookings in frame j are at most its share, and none where the frame comes after its injection frame.
fn frame_kept(
    image: &[u8],
    owners: usize,
    w: Window,
    i: usize,
    share: usize,
    frame: usize,
    j: usize,
) -> bool
    requires { OwnersOn image.now owners w i × FramesOn w frame j }
    ensures { result ≡ frame_kept image.now owners (window_of w) i share frame j }
{
    let n = bookings(image, owners + 2 * (j * w.slots), w.slots, i);
    if share < n {
        return false;
    }
    if ahead(w.frames, w.head, frame) < ahead(w.frames, w.head, j) {
        return n == 0;
    }
    true
}

// Whether flow i's bookings keep to its share in every frame, and none comes after its injection frame.
fn frames_kept(image: &[u8], owners: usize, w: Window, i: usize, share: usize, frame: usize) -> bool
    requires { OwnersOn image.now owners w i × (frame < w.frames) }
    ensures { result ≡ model.every w.frames (frame_kept image.now owners (window_of w) i share frame) }
{
    for j in 0..w.frames {
        if !frame_kept(image, owners, w, i, share, frame, j) {
            return false;
        }
    }
    true
}

// RULES 12.3: whether, where position p is later than CP, flow i holds no more there than before it, or one more if it booked p.
fn grows_at(image: &[u8], owners: usize, held: usize, w: Window, i: usize, p: usize) -> bool
    requires { HeldOn image.now owners held w i × (p < w.slots * w.frames) }
    ensures { result ≡ grows_at image.now owners held (window_of w) i p }
{
    if w.passed(p) {
        return true;
    }
    let q = before(w.slots * w.frames, p);
    let last = field(image, held + 2 * q);
    field(image, held + 2 * p) <= last + booking(image, owners + 2 * p, i)
}

// The same at every position: of those later than CP, the ones behind it up to the last, position 0, and those up to the head frame.
fn grows(image: &[u8], owners: usize, held: usize, w: Window, i: usize) -> bool
    requires { HeldOn image.now owners held w i × (2 ≤ held) }
    ensures { result ≡ model.every (w.slots * w.frames) (grows_at image.now owners held (window_of w) i) }
{
    let size = w.slots * w.frames;
    let base = w.head * w.slots;
    let next = w.current + 1;
    let flow = i as u16;
    if !growing(image, owners + 2 * next, held + 2 * next, size - next, flow) {
        return false;
    }
    if base == 0 {
        return true;
    }
    if !grows_at(image, owners, held, w, i, 0) {
        return false;
    }
    growing(image, owners + 2, held + 2, base - 1, flow)
}

// Whether the injection frame and remainder of flow i, which stand at a place, fit its bookings.
fn spends_well(image: &[u8], owners: usize, at: usize, w: Window, i: usize, share: usize) -> bool
    requires { OwnersOn image.now owners w i × (at + 4 ≤ length image.now) }
    ensures { result ≡ spends_well image.now owners at (window_of w) i share }
{
    let frame = field(image, at);
    if w.frames <= frame {
        return false;
    }
    if !frames_kept(image, owners, w, i, share, frame) {
        return false;
    }
    let spent = bookings(image, owners + 2 * (frame * w.slots), w.slots, i);
    spent + field(image, at + 2) == share
}

// Whether the holdings of flow i, from a place on, fit its cells and its bookings.
fn holds_well(image: &[u8], owners: usize, held: usize, w: Window, i: usize, cells: u16) -> bool
    requires { HeldOn image.now owners held w i × (2 ≤ held) }
    ensures { result ≡ holds_well image.now owners held (window_of w) i cells }
{
    if !at_most(image, held, w.slots * w.frames, cells) {
        return false;
    }
    grows(image, owners, held, w, i)
}

// Whether flow i of a plan meets the conditions on a flow.
fn flow_kept(image: &[u8], l: Layout, plan: Plan, w: Window, i: usize) -> bool
    requires { PartOn image.now l plan w i }
    ensures { result ≡ flow_kept image.now (plan_for plan) w.current i }
{
    let e = plan.entries[i];
    let at = l.flow(i);
    if !spends_well(image, l.positions, at, w, i, usize::from(e.share)) {
        return false;
    }
    if !holds_well(image, l.positions, at + 4, w, i, u16::from(e.cells)) {
        return false;
    }
    field(image, at + 4 + 2 * l.size) < NUMBERS
}

// Whether each flow of a plan does.
pub(crate) fn flows_kept(image: &[u8], l: Layout, plan: Plan, w: Window) -> bool
    requires { PartsOn image.now l plan w }
    ensures { result ≡ model.every plan.count (flow_kept image.now (plan_for plan) w.current) }
{
    for i in 0..plan.count {
        if !flow_kept(image, l, plan, w, i) {
            return false;
        }
    }
    true
}
