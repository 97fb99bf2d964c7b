//! Laws of a fiber's next call.

ghost use Rattle.law_fiber.specs.Calls.Laws.{NextCallSeesScope, JobsSeeCaptured, FibersStayAlike};

/// The next call of a fiber, and what it leaves behind, depend on its work and on the variables in scope there alone, numbers of raises and
/// of texts aside.
pub fn next_call_sees_scope()
    ensures { NextCallSeesScope }
{}

/// What a job is given, and so its first call, depends on the captured variables alone.
pub fn jobs_see_captured()
    ensures { JobsSeeCaptured }
{}

/// Two fibers that are alike stay so between two calls, where their calls are answered alike, so that the first law speaks of their next calls too.
pub fn fibers_stay_alike()
    ensures { FibersStayAlike }
{}
