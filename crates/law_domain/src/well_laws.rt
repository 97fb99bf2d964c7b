//! What code may go by at each move of a domain: the three invariants in one.

ghost use Rattle.law_domain.specs.Well.WellStates.{KeepsWell, MovesCallWell, MovesTellKnown, OpensWell};

/// A domain that has just started with a body of a script of the built forms is sound, its variables name what was made,
/// and its table has the texts of all that stands in it.
pub fn opening_stands_well()
    ensures { OpensWell }
{}

/// And so it stays with each move of its own that doesn't halt it.
pub fn moves_keep_well()
    ensures { KeepsWell }
{}

/// When the fiber at the head of the ready list calls, what is asked of the call is met, what it names was made, its blocks
/// are the script's, and its texts stand in the table.
pub fn moves_call_well()
    ensures { MovesCallWell }
{}

/// What the line of a move shows is known, and the table of texts stays as it is.
pub fn moves_tell_known()
    ensures { MovesTellKnown }
{}
