//! A law of the timers under any list of calls, as the contract of an empty public function. It is stated in specs/Laws; what
//! proves it stands in proofs/GoingOff.

ghost use Rattle.run_queue.specs.Laws.{TimersGoOffInOrder};

/// After any calls each standing timer is due before those behind it, or at the same time and was made before; and each has a
/// number below that of the next one.
pub fn timers_go_off_in_order()
    ensures { TimersGoOffInOrder }
{}
