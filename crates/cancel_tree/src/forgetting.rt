//! What is forgotten of ended contexts makes no difference.

ghost use Rattle.cancel_tree.specs.Forgetting.{ForgetsNothingLive};

/// Whatever is called: as many contexts were made and the same are live as by the definitions, which forget nothing; each live
/// context is off by the same reason; the same fibers wait, and the same cancellations take effect, reach and strike the same.
pub fn forgets_nothing_live()
    ensures { ForgetsNothingLive }
{}
