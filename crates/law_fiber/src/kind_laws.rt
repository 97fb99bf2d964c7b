//! Laws of the kinds of what a fiber names.

ghost use Rattle.law_fiber.specs.Kinded.Laws.{KindsStay, KindsStayBetween};

/// What a slot of a switch or a context holds names one that is known, whenever a fiber calls: each call of sound work has the kinds that its place
/// wants, its blocks are sound for the fiber's slots and are the script's of their numbers, and so is the work behind it.
pub fn kinds_stay()
    ensures { KindsStay }
{}

/// So it stays between two calls: while more becomes known, where a fiber begins, and where one goes into the block of its call or into a handler.
pub fn kinds_stay_between()
    ensures { KindsStayBetween }
{}
