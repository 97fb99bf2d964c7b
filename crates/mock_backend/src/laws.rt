//! A law of turns over the objects of a mocked domain, as the contract of an empty public function. It is stated in specs/Turning;
//! what proves it stands in proofs/TurnsMove.

ghost use Rattle.mock_backend.specs.Turning.{TurnsAreMoves};

/// Over [`Local`](crate::Local), a turn of a domain that makes a line is the next move of the machine, whatever machine the domain stands for;
/// where it makes none, the machine has no move either, or the domain has made as many lines as it may.
pub fn turns_are_moves()
    ensures { TurnsAreMoves }
{}
