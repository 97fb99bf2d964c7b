//! Laws of what a reader gives, each as the contract of an empty public function. They speak of the definitions that the
//! clauses of [`crate::BufRead`] cite, and are stated in `specs/`; what proves them stands in the files of `proofs/`.
ghost use Rattle.buf_flow.specs.Cuts.{CutsAlike, DecidedStays, EndDecides, GivenAsAtOnce, UndecidedLeaves};
ghost use Rattle.buf_flow.specs.Histories.{HistoriesAlike, HistoriesAsAtOnce};
ghost use Rattle.buf_flow.specs.Moves.{CallsEndByBytesToCome};

/// What decides a call decides it the same with more bytes behind. Behind the end every call is decided. A call that isn't
/// takes nothing.
pub fn decided_stays()
    ensures more { DecidedStays }
    ensures end { EndDecides }
    ensures undecided { UndecidedLeaves }
{}

/// Calls that are made until they are decided give the same of any two cuts of the same bytes, and what they give of all
/// bytes at once.
pub fn cuts_alike()
    ensures at_once { GivenAsAtOnce }
    ensures alike { CutsAlike }
{}

/// Whenever pieces come and calls are made: those that are decided give what they give of all bytes at once.
pub fn histories_alike()
    ensures at_once { HistoriesAsAtOnce }
    ensures alike { HistoriesAlike }
{}

/// The moves of a call over a flow end as the bytes to come say, however the flow is cut into steps and wherever it pauses.
pub fn calls_end_by_bytes_to_come()
    ensures { CallsEndByBytesToCome }
{}
