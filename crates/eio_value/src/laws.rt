//! Laws of joining, each as the contract of an empty public function.
//!
//! They are stated in specs/JoiningLaws, and what proves them stands in proofs/.
ghost use Rattle.eio_value.specs.JoiningLaws.{CombineIsHeld, CombineIsInOrder, CombineWithItself, CancelledGivesWay, CombineInAnyGrouping};

/// What two raises become together are at most eight members, each raise once.
pub fn combine_is_held()
    ensures { CombineIsHeld }
{}

/// Where nothing is cancelled the members stand in order of arrival, and it is said whether some are left out.
pub fn combine_is_in_order()
    ensures { CombineIsInOrder }
{}

/// A raise joined with itself is that raise.
pub fn combine_with_itself()
    ensures { CombineWithItself }
{}

/// What is cancelled leaves what came before it, and gives way to what comes behind it, unless both are one raise.
pub fn cancelled_gives_way()
    ensures { CancelledGivesWay }
{}

/// Three raises become the same in either grouping where neither of the first two is the cancellation of the raise
/// behind it.
pub fn combine_in_any_grouping()
    ensures { CombineInAnyGrouping }
{}
