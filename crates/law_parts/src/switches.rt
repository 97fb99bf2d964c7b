//! Laws of one switch under any list of calls, each as the contract of an empty public function. They are stated in
//! specs/SwitchLaws, over the lists of calls of specs/Calls; what proves them stands in proofs/SwitchLaws.

ghost use Rattle.law_parts.specs.SwitchLaws.{FinishedIsEmpty, HandlersRunByBatches, HandlersRunOnce, NextIsTold};

/// Of a finished switch nothing is attached.
pub fn finished_is_empty()
    ensures { FinishedIsEmpty }
{}

/// At any time: handlers run batch by batch, in order of registering, and within each batch the last one first.
pub fn handlers_run_by_batches()
    ensures { HandlersRunByBatches }
{}

/// Once a switch is finished, each registered handler was handed out once, in that order.
pub fn handlers_run_once()
    ensures { HandlersRunOnce }
{}

/// A handler is next exactly where `close_step` would hand one out.
pub fn next_is_told()
    ensures { NextIsTold }
{}
