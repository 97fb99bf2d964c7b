//! What an exception drops.

use crate::fiber::{Fiber, Taken};
use crate::mark::Mark;

impl Fiber {
    ghost use Rattle.fiber_step.specs.Unwinding.{stopped, IsDropped, IsStop};

    /// Drops what an exception drops, and takes the mark at which it stops, if it stops at one.
    pub(crate) fn unwind(&mut self) -> Option<Mark>
        ensures dropped { IsDropped self.old (stopped result self.new) }
        ensures stop { IsStop result self.new }
    {
        // The label is the loop's name in its proof.
        'unwinding: loop {
            match self.take() {
                Taken::Nothing => return None,
                Taken::Restored => {}
                Taken::Mark(mark) => {
                    if mark.stops() {
                        return Some(mark);
                    }
                }
            }
        }
    }
}
