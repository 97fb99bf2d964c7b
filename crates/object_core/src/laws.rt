//! A law of any call on an object, as the contract of an empty public function. It is stated in specs/Dead, and proved in proofs/Without.

ghost use Rattle.object_core.specs.Dead.{DeadStepAlike};

/// What a call gives in code on a row with dead waiters is what the definitions' step gives on the row without them: the same answer, the same
/// message, and the same row without them.
pub fn dead_step_alike()
    ensures { DeadStepAlike }
{}
