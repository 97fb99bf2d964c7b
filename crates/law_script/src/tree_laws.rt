//! Laws of the notation of trees.

ghost use Rattle.law_script.specs.Trees.Readings.{CanonicalHasNoPlaces, CanonicalIsRead, ReadIsSpelled, ReadIsWithin, SpelledIsRead};

/// The tree that is read from bytes is spelled by them, with its places.
pub fn read_is_spelled()
    ensures { ReadIsSpelled }
{}

/// A tree that bytes spell is read from them. So bytes spell one tree at most, and bytes that spell none have one fault.
pub fn spelled_is_read()
    ensures { SpelledIsRead }
{}

/// A tree that is read is within the limits of words, numbers, texts and open lists.
pub fn read_is_within()
    ensures { ReadIsWithin }
{}

/// The canonical spelling of a tree within the limits is read as that tree, places aside. So a tree that was read
/// once is read again from its canonical spelling.
pub fn canonical_is_read()
    ensures { CanonicalIsRead }
{}

/// Trees that are the same but for their places have one canonical spelling. So what is read from a canonical spelling
/// is spelled by the same bytes again.
pub fn canonical_has_no_places()
    ensures { CanonicalHasNoPlaces }
{}
