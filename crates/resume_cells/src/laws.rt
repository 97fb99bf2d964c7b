//! Laws of histories, each as the contract of an empty public function. They are stated in specs/Laws; what proves them
//! stands in proofs/Winners, proofs/Seen and proofs/Agreeing.

ghost use Rattle.resume_cells.specs.Laws.{CellsLieTogether, DecidedOnce, FoundIsDecided, FoundStays, OneWinner, RulesAgree};

/// In a history each wait has at most one decision.
pub fn waits_are_decided_once()
    ensures { DecidedOnce }
{}

/// A wait that a word tells decided was decided before the step that found the word, and is never decided again.
pub fn found_decided_stays()
    ensures { FoundStays }
{}

/// Once the cells are closed: any two decisions of one wait, by whichever seats, are one.
pub fn one_winner()
    ensures { OneWinner }
{}

/// Once the cells are closed: where a seat found a word that tells a wait decided, and the wait ever began, a seat decided it, with a stamp that isn't
/// above the word's.
pub fn found_is_decided()
    ensures { FoundIsDecided }
{}

/// The rule over threads, with the newest mark first, and the definition of histories, with the oldest first, agree: on which marks
/// of a cell are legal, and on its word.
pub fn rules_agree()
    ensures { RulesAgree }
{}

/// The cells of a seat lie side by side, as many as each seat owns.
pub fn own_cells_lie_together()
    ensures { CellsLieTogether }
{}
