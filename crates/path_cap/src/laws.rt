//! Laws of path calls over the definitions alone, each as the contract of an empty public function.
//!
//! They are stated in specs/Laws and specs/Order, and what proves them stands in proofs/.

ghost use Rattle.path_cap.specs.Laws.{ChangesStayBelow, LeadsStayBelow, OpensBelow, RefusedChangesNothing};
ghost use Rattle.path_cap.specs.Order.{DeclaredInOrder, StayInOrder};

/// Whatever the tree, its links and the path: the directory that a path leads to, or in which what it leads to stands or might be
/// made, lies at or below the capability's directory.
pub fn leads_stay_below()
    ensures leads { LeadsStayBelow }
    ensures opens { OpensBelow }
{}

/// A call through a capability leaves each directory of the tree as it was that lies neither at nor below the capability's.
pub fn changes_stay_below()
    ensures { ChangesStayBelow }
{}

/// A call that is refused leaves the tree as it was.
pub fn refused_changes_nothing()
    ensures { RefusedChangesNothing }
{}

/// The names in each directory are distinct and stand in the order of their bytes: in the tree of a declared directory, and after each
/// call on a tree in which they do.
pub fn names_stay_in_order()
    ensures declared { DeclaredInOrder }
    ensures changed { StayInOrder }
{}
