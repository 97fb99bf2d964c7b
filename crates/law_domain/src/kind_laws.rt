//! Laws of the kinds of what the fibers of a domain name.

ghost use Rattle.law_domain.specs.Kinded.Laws.{CallsKinded, KeepsKinded, NamedWereMade, OpensKinded};

/// In a domain that has just started the variables hold what they are to hold.
pub fn opening_is_kinded()
    ensures { OpensKinded }
{}

/// With each move of its own a sound domain keeps that: a slot of a switch or a context holds the number of one that was
/// made. So it is of the variables that handlers were registered with.
pub fn moves_keep_kinds()
    ensures { KeepsKinded }
{}

/// The next call of such a domain has the kinds that its place wants, its blocks are sound for the fiber's slots and are
/// the script's of their numbers, and so is the work behind it.
pub fn calls_are_kinded()
    ensures { CallsKinded }
{}

/// So the number of a switch or a context that is called on is below how many there are.
pub fn named_were_made()
    ensures { NamedWereMade }
{}
