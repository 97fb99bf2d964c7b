//! Laws of semaphores, mutexes and pools as they are defined, under any calls of fibers and any strikes, each as the contract of an empty
//! public function. They are stated in specs/, and what proves them stands in the files of proofs/ that bear their names.

ghost use Rattle.resource_pool.specs.Counting.{CountsWhatIsLeft};
ghost use Rattle.resource_pool.specs.Locking.{LockedInTurn};
ghost use Rattle.resource_pool.specs.Using.{UsedInTurn, IdleStandOnce};

/// The count of a semaphore and all acquires that were granted are together the declared count and all releases that answered `()`.
pub fn counts_what_is_left()
    ensures { CountsWhatIsLeft }
{}

/// A mutex is locked only where it is free and unlocked only where it is held, so at most one fiber has it; once it is poisoned
/// nobody gets it.
pub fn locked_in_turn()
    ensures { LockedInTurn }
{}

/// A resource of a pool is granted only while nobody has it, and put back only while somebody has: between two grants of it stands a `put`
/// of it that answered `()`. Idle resources are distinct, and below the number that were made.
pub fn used_in_turn()
    ensures turns { UsedInTurn }
    ensures idle { IdleStandOnce }
{}
