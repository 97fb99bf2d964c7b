//! A context is cancelled once.

ghost use Rattle.cancel_tree.specs.Cancelling.{CancelsOnce};

/// Once a context was cancelled, whether that took effect or not, no further cancellation of it takes effect.
pub fn cancels_once()
    ensures { CancelsOnce }
{}
