//! Laws of finished scopes in runs.

ghost use Rattle.law_domain.specs.Scopes.Finished.{LeavesNothing, LeavesNothingInHistories, LeavesNothingInRuns};
ghost use Rattle.law_domain.specs.Scopes.Handling.{HandlersEnd, HandlersEndInHistories, HandlersEndInRuns};
ghost use Rattle.law_domain.specs.Scopes.Joined.{GroupsLeaveNothing, GroupsLeaveNothingInHistories, GroupsLeaveNothingInRuns};
ghost use Rattle.law_domain.specs.Scopes.Released.{ReleasesOnce, ReleasesOnceInHistories, ReleasesOnceInRuns};

/// Once `close` of a switch has answered a value or an exception, each fiber and each daemon that was forked onto it has
/// ended, in that state and in every later one.
pub fn leaves_nothing()
    ensures in_domains { LeavesNothing }
    ensures in_runs { LeavesNothingInRuns }
    ensures in_histories { LeavesNothingInHistories }
{}

/// When `close` of a switch answers a value or an exception, each release handler that the switch has accepted with `()`
/// has run once, batch by batch, and within each batch the last one first.
pub fn releases_once()
    ensures in_domains { ReleasesOnce }
    ensures in_runs { ReleasesOnceInRuns }
    ensures in_histories { ReleasesOnceInHistories }
{}

/// Once `join` of a group has answered a value or an exception, each fiber that was made for a branch of the group has
/// ended, in that state and in every later one.
pub fn groups_leave_nothing()
    ensures in_domains { GroupsLeaveNothing }
    ensures in_runs { GroupsLeaveNothingInRuns }
    ensures in_histories { GroupsLeaveNothingInHistories }
{}

/// Between a `close` of a switch that goes into a release handler and the next `close` of the switch by the same fiber,
/// that fiber leaves the context in which the handler runs: the handler's block has come to its end.
pub fn handlers_end()
    ensures in_domains { HandlersEnd }
    ensures in_runs { HandlersEndInRuns }
    ensures in_histories { HandlersEndInHistories }
{}
