//! Laws of the texts that a domain holds.

ghost use Rattle.law_domain.specs.Texts.DomainLaws.{KeepsTexted, KnownHaveTexts, OpeningsAreTexted, PreparesKeepTexted};

/// The table with which a script starts has the texts of all that is known, and those that a line writes to the trace.
pub fn known_have_texts()
    ensures { KnownHaveTexts }
{}

/// What stands in a domain that opens with a body of the script, as each of its domains does, is known.
pub fn openings_are_texted()
    ensures { OpeningsAreTexted }
{}

/// What a domain does next leaves the table as it is, and all that stands in the domain and in its call is known again.
pub fn prepares_keep_texted()
    ensures { PreparesKeepTexted }
{}

/// So does each move for which nothing comes from outside, and what its line shows is known: no `try` of exceptions, cancellation, switches and groups makes
/// a text.
pub fn keeps_texted()
    ensures { KeepsTexted }
{}
