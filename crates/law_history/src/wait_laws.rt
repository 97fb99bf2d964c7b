//! Laws of waits in runs.

ghost use Rattle.law_history.specs.Waits.Items.{CallsArePlayed, ItemsInOrderInRuns, ObjectsArePlayed};
ghost use Rattle.law_history.specs.Waits.Mocked.{MockMovesAreMoves, MockRunsAreLegal};
ghost use Rattle.law_history.specs.Waits.Offs.{OffLeavesAll};
ghost use Rattle.law_history.specs.Waits.Strikes.{LostStrikesTakeNone, StrikesTakeOne};

/// After a strike that won, each shared object is the one before less the waiter that was struck; stamps and posts are as
/// before, and nothing was sent. After one that was lost, all that is shared is as before.
pub fn strikes_take_one()
    ensures won { StrikesTakeOne }
    ensures lost { LostStrikesTakeNone }
{}

/// A call that answers `Off` has done nothing: each shared object is as before, nothing was sent to any domain, no wait
/// was decided, and the caller's context is off.
pub fn off_leaves_all()
    ensures { OffLeavesAll }
{}

/// In a legal run of several domains each shared object is what its declaration comes to by the calls and won strikes of
/// the lines, in their order, and each call has answered and sent what came of it there. So of each declared stream:
/// the items that were accepted, in order, are those that were taken, in order, and then those that it holds at the end.
pub fn items_in_order_in_runs()
    ensures objects { ObjectsArePlayed }
    ensures calls { CallsArePlayed }
    ensures items { ItemsInOrderInRuns }
{}

/// Where a mocked domain asks nothing of the mocked outside, and calls only objects that are declared and whose last line
/// isn't later than its own last one, its move is a move of one of several domains: it makes the same line, and what comes
/// to it is what the shared part gives.
pub fn mock_moves_are_moves()
    ensures { MockMovesAreMoves }
{}

/// A run on one mocked domain that asks nothing of the mocked outside, and calls only declared objects, is a legal history
/// of its script with that one body: the lines are those of the moves, and the domain and all that is shared end as they do
/// in the run. Where no timer stands at the end, both have the same ending.
pub fn mock_runs_are_legal()
    ensures { MockRunsAreLegal }
{}
