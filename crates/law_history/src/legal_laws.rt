//! Laws of legal runs and their histories.

ghost use Rattle.law_history.specs.Legal.LegalRuns.{PartsMakeALegalRun};
ghost use Rattle.law_history.specs.Legal.LongerParts.{PartsExtend};

/// The parts of a run are one log a domain, one history an object, the marks of each cell and the messages left in each post.
/// Where they fit together, and each domain's log leads it on its own from one state to another, the lines of all logs, in order
/// of stamp and domain, are a legal run of all domains over what they share. It ends where each domain is where its log led it,
/// each object is the end of its history less the waiters that were cancelled, each wait is decided as its cell's marks say, and
/// each post holds the messages left.
pub fn parts_make_a_legal_run()
    ensures { PartsMakeALegalRun }
{}

/// Parts that fit together do so with one line more, at the end of its domain's log: where the line, with the entries and marks
/// that it brings, goes on from where the log, the object's history and the cell have come to, and what was left and what it sends
/// is what it takes and what is left then.
pub fn parts_extend()
    ensures { PartsExtend }
{}
