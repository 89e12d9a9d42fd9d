// The window of a link.
ghost use Rattle.link.specs.Given.{StateIn};

use crate::Link;
use state::CURRENT;
use window::Window;
use window::positions::window;

impl Link {
    // The window in which a call finds the link.
    pub fn window(&self) -> Window
        ensures { StateIn self.now.plan result self.now.state }
    {
        let current = self.state[CURRENT];
        window(self.plan.slots, self.plan.frames, usize::from(current))
    }
}
