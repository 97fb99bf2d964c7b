//! Laws of the definitions, each as the contract of an empty public function.
//!
//! A law is stated in `specs/`, and what proves it stands in the file of `proofs/` that bears its name.
#![tactic(auto)]

mod switches;

ghost use Rattle.law_parts.specs.Contexts.{CancelsBelow, OffStays, OffWalksUp, ProtectedIsShut};
ghost use Rattle.law_parts.specs.Items.{ItemsInOrder};
ghost use Rattle.law_parts.specs.Offs.{OffLeaves};
ghost use Rattle.law_parts.specs.Skips.{SkipsAlike};
ghost use Rattle.law_parts.specs.Waits.{CallsKeepCells, LateStrikesDoNothing, StrikesKeepCells};

pub use switches::{finished_is_empty, handlers_run_by_batches, handlers_run_once, next_is_told};

/// A call on a shared object that answers `Off` leaves the object as it was and wakes nobody, and its
/// context is off: so a call that is cancelled before it waits has done nothing.
pub fn off_leaves()
    ensures { OffLeaves }
{}

/// Whatever fibers call on a stream and whichever are struck: the items that it has accepted, in order,
/// are those that were taken, in order, and then those that it holds.
pub fn items_in_order()
    ensures { ItemsInOrder }
{}

/// A call answers and sends the same on an object with some waiters too many, and leaves the same object but for
/// them, as long as it neither wakes one of them nor enters one.
pub fn skips_alike()
    ensures { SkipsAlike }
{}

/// A cell that stands in an object at most once does so after each call and each strike. In an object as declared
/// no cell stands.
pub fn cells_stand_once()
    ensures calls { CallsKeepCells }
    ensures strikes { StrikesKeepCells }
{}

/// A strike on a fiber that doesn't wait leaves the object as it was.
pub fn late_strikes_do_nothing()
    ensures { LateStrikesDoNothing }
{}

/// A context is off by its own reason; else, where it isn't protected and has a parent, as its parent is.
pub fn off_walks_up()
    ensures { OffWalksUp }
{}

/// A context that is off stays off, by the same reason, after any further calls.
pub fn off_stays()
    ensures { OffStays }
{}

/// A cancellation that takes effect has those contexts off that go up to the cancelled one through contexts that aren't
/// protected, by its reason, and leaves all others as they were.
pub fn cancels_below()
    ensures { CancelsBelow }
{}

/// A protected context isn't reached from above: it goes up to itself alone, and is off only by its own reason.
pub fn protected_is_shut()
    ensures { ProtectedIsShut }
{}
