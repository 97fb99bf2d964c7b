//! Laws of the fibers that wait so that a cancellation ends their waits.

ghost use Rattle.domain_strikes.specs.Waiting.InStep.{ContextsInStep, DomainsInStep, StrikesInStep};
ghost use Rattle.domain_strikes.specs.Waiting.Parts.{CallsInStep, FibersInStep};
ghost use Rattle.domain_strikes.specs.Waiting.Laws.{StruckByNumber, WaitingByStanding, WaitingInStep};

/// The list of the waiting fibers goes with the fibers: whoever begins to wait is put in its place, whoever is woken is taken out, and nothing else changes it.
pub fn waiting_goes_in_step()
    ensures { WaitingInStep }
{}

/// Who is in the list is seen of each fiber's standing, and who waits in a context of that too; there is room for whoever lives and doesn't wait yet.
pub fn waiting_is_by_standing()
    ensures { WaitingByStanding }
{}

/// A cancellation that takes effect strikes exactly the fibers that wait in a context which it reaches, in order of number.
pub fn struck_by_number()
    ensures { StruckByNumber }
{}

/// Contexts of which the ended ones are forgotten go in step with those of which none is: what is asked of both is answered alike, whatever was called.
pub fn contexts_go_in_step()
    ensures { ContextsInStep }
{}

/// With a domain too: what it does to its contexts and to who waits in them, calls on the kept ones do, and a cancellation strikes the same fibers.
pub fn domains_go_in_step()
    ensures { DomainsInStep }
{}

/// Strikes take their fibers out of the list, no more are owed for one cancellation than fibers live, and a context that was cancelled is cancelled again without any change.
pub fn strikes_go_in_step()
    ensures { StrikesInStep }
{}

/// Most parts of a domain's moves leave the kept contexts as they are.
pub fn fibers_go_in_step()
    ensures { FibersInStep }
{}

/// The others are one call on the kept contexts each, whose condition the domain meets.
pub fn calls_go_in_step()
    ensures { CallsInStep }
{}
