//! Where a run writes its trace to.
ghost use Rattle.std.specs.Prelude.{ℕ, ◌<◌, ◌≤◌, List, length, IfOk, OnErr};
ghost use Rattle.std.specs.declared.option.Option.{Option};
ghost use Rattle.std.specs.Io.KnownBytes.{WriteAppends, Keeps};
ghost use Rattle.trace_out.specs.Causes.{HasCause};

use crate::Failed;

/// Where bytes go.
pub trait Sink {
    /// The bytes that the sink holds, where they are told.
    ghost held: { Self → Option (List ℕ) };

    /// How many faults the sink has had. It never falls.
    ghost faults: { Self → ℕ };

    /// Takes a front of `piece`, at least one byte, and returns how many.
    ///
    /// `Failed` comes only where the count of faults rose, and nothing is appended then. A sink that can
    /// take nothing answers it.
    fn write(&mut self, piece: &[u8]) -> Result<usize, Failed>
        requires { 0 < length piece.now }
        ensures some { IfOk result (λ n. 0 < n) }
        ensures within { IfOk result (λ n. n ≤ length piece.now) }
        ensures bytes { WriteAppends (held self.old) (held self.new) result piece.now }
        ensures kept { OnErr result (Keeps (held self.old) (held self.new)) }
        ensures cause { HasCause (faults self.old) (faults self.new) result };
}
