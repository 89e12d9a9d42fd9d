// Positions and frames, going round.
ghost use Rattle.std.specs.Prelude.{◌≡◌, ◌+◌, ◌-◌, ◌%◌, ◌<◌};
ghost use Rattle.model.specs.Tables as tables;
ghost use Rattle.model.specs.Window as model;
ghost use Rattle.window.specs.Window.{window_of, Measures, Proper, InWindow, Ticked};

use crate::Window;

// How far `to` lies ahead of `at`, going round m places.
pub fn ahead(m: usize, at: usize, to: usize) -> usize
    requires { (at < m) × (to < m) }
    ensures { result ≡ tables.ahead m at to }
{
    if at <= to {
        return to - at;
    }
    m - (at - to)
}

// One place on, going round m places.
pub fn next(m: usize, at: usize) -> usize
    requires { at < m }
    ensures { result ≡ (at + 1) % m }
{
    if at + 1 == m {
        return 0;
    }
    at + 1
}

// One place back, going round m places.
pub fn before(m: usize, at: usize) -> usize
    requires { at < m }
    ensures { result ≡ (at + m - 1) % m }
{
    if at == 0 {
        return m - 1;
    }
    at - 1
}

// The window of F slots to a frame, W frames and the current position CP.
pub fn window(slots: usize, frames: usize, current: usize) -> Window
    requires { Measures slots frames current }
    ensures is { window_of result ≡ record { slots = slots; frames = frames; current = current } }
    ensures proper { Proper result }
{
    Window {
        slots,
        frames,
        current,
        head: current / slots,
    }
}

impl Window {
    // How far a position lies on from the first one of the head frame.
    pub fn rank(self, p: usize) -> usize
        requires { InWindow self p }
        ensures { result ≡ model.rank (window_of self) p }
    {
        ahead(self.slots * self.frames, self.head * self.slots, p)
    }

    // Whether a position lies in the head frame and is not later than CP.
    pub fn passed(self, p: usize) -> bool
        requires { InWindow self p }
        ensures { result ≡ model.passed (window_of self) p }
    {
        self.rank(p) <= self.current - self.head * self.slots
    }

    pub fn newest(self) -> usize
        requires { Proper self }
        ensures { result ≡ model.newest (window_of self) }
    {
        before(self.frames, self.head)
    }

    // The window one position on.
    pub fn ticked(self) -> Window
        requires { Proper self }
        ensures is { Ticked self result }
    {
        let current = self.current + 1;
        if current < self.head * self.slots + self.slots {
            return Window { current, ..self };
        }
        if self.head + 1 == self.frames {
            return Window {
                current: 0,
                head: 0,
                ..self
            };
        }
        // past the last position of a frame is the first one of the next
        Window {
            current,
            head: self.head + 1,
            ..self
        }
    }
}
