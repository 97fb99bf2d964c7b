//! Laws of executors as they are defined, under any calls of fibers and any strikes, each as the contract of an empty public function. They
//! are stated in specs/Working, and what proves them stands in proofs/Working.

ghost use Rattle.executor_pool.specs.Working.{StartInOrder, WeightsAreBounded};

/// The jobs that run on one worker weigh at most 100 together.
pub fn weights_are_bounded()
    ensures { WeightsAreBounded }
{}

/// Jobs start in order of their numbers: those that started, and behind them those that are queued, are all that were submitted, in order.
pub fn start_in_order()
    ensures { StartInOrder }
{}
