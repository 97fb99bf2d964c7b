//! How a run ended, and the exit status that says so.
ghost use Rattle.std.specs.Prelude.{◌≡◌};
ghost use Rattle.trace_lines.specs.Exits.{exit_code};

/// How a run ended.
#[derive(Clone, Copy, Debug, PartialEq, Eq)]
pub enum Status {
    /// The main fiber returned.
    Ok,
    /// The main fiber raised.
    Raised,
    /// The input is no script that can be run.
    Refused,
    /// The main fiber waits, and nothing is left that could wake it.
    Deadlock,
    /// The budget of steps was used up.
    OutOfSteps,
    /// The source failed.
    ReadFault,
    /// The sink failed.
    WriteFault,
    /// Memory was refused.
    NoMemory,
    /// The words of the command line ask for nothing that is known.
    Usage,
    /// The run came to a limit of the program.
    Limit,
    /// The history that was checked is none of its script.
    NotLegal,
}

impl Status {
    /// The exit status of the program, 0 to 10.
    pub fn code(self) -> u8
        ensures { result ≡ exit_code self }
    {
        self as u8
    }
}
