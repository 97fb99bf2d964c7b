//! Laws of the definitions, as the contracts of empty public functions.
ghost use Rattle.fiber_step.specs.Going.{MarksAgree};
ghost use Rattle.fiber_step.specs.Scoping.{EndsStop, BlocksKeepVariables};

/// A statement and the marks behind it say the same, whether a call comes in between or none.
pub fn marks_agree()
    ensures { MarksAgree }
{}

/// An exception never passes the end of a block that makes a call with it.
pub fn ends_stop()
    ensures { EndsStop }
{}

/// Behind a block the variables are those before it.
pub fn blocks_keep_variables()
    ensures { BlocksKeepVariables }
{}
