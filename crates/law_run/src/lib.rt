//! Laws of runs on one mocked domain, each as the contract of an empty public function.
//!
//! A law is stated in `specs/`, and what proves it stands in the file of `proofs/` that its answer names.
#![tactic(auto)]

ghost use Rattle.law_run.specs.Beginnings.{MovesBeginAlike, StatesBeginAlike, TracesBeginAlike};
ghost use Rattle.law_script.specs.Scripts.Meanings.{PlacesDontCount};
ghost use Rattle.law_run.specs.Meanings.{RunsGoByMeaning};
ghost use Rattle.law_run.specs.Moves.{MovesWhereSomethingIsLeft, ShortRunsAreOver};
ghost use Rattle.law_run.specs.Serials.{LinesTellNumbered, NumbersAreNotReused, RaisesAreApart, RaisesAreCounted, RaisesAreNumbered, SerialsRise, SerialsRiseByRaises};

/// The moves of a run of at most n + k moves begin with those of the run of at most n moves; so do its states, and so
/// does its trace.
pub fn runs_begin_alike()
    ensures moves { MovesBeginAlike }
    ensures states { StatesBeginAlike }
    ensures traces { TracesBeginAlike }
{}

/// A move exists exactly where no limit was met and there is an obligation, a fiber in the ready list, or a timer
/// that stands. So a run that made fewer moves than it may has come to a state where nothing is left.
pub fn moves_where_something_is_left()
    ensures exactly { MovesWhereSomethingIsLeft }
    ensures stops { ShortRunsAreOver }
{}

/// Two scripts with the same names, declarations, bodies, texts and texts of failures have the same moves, states,
/// trace and answer: a run depends on no place of a form. Trees that are the same but for their places stand for two such
/// scripts, or are both refused for the same reason.
pub fn runs_go_by_meaning()
    ensures meaning { RunsGoByMeaning }
    ensures places { PlacesDontCount }
{}

/// The raises that a move makes, those that are caught in it too, have the numbers from the old counter of raises up to the
/// new one, each the next, in the order in which they are made; so the counter rises by how many they are, and never
/// falls. In a run each exception that stands in a state, or that the line of the move tells, stood in the state before,
/// or is one of the raises of that move. In each state of a run all exceptions have numbers below the counter, and two
/// with one number are the same; so are two of different states.
pub fn serials_rise()
    ensures counted { RaisesAreCounted }
    ensures exactly { SerialsRiseByRaises }
    ensures rise { SerialsRise }
    ensures numbered { RaisesAreNumbered }
    ensures told { LinesTellNumbered }
    ensures apart { RaisesAreApart }
    ensures once { NumbersAreNotReused }
{}
