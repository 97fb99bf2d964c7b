//! Semaphores, mutexes and pools.

ghost use Rattle.std.specs.Prelude.{◌≡◌};

use crate::waits::{DEAD, all_alive, name_of, number_in, waiter, waking, woken_in};
use eio_value::NoMemory;
use resource_pool::{Lock, Pool, Sem};
use std::alloc::Global;
use std::test::Fail;

/// Two fibers wait; the first has entered twice.
fn wait_for_one(sem: &mut Sem)
    requires { sem.old.cells ≡ 4 }
    ensures { sem.new.cells ≡ 4 }
{
    sem.acquire(waiter(2, 10), false);
    sem.acquire(waiter(1, 11), false);
    sem.acquire(waiter(2, 12), false);
}

/// The wait that a release wakes where these are dead, and what one more acquire answers.
fn released(alloc: Global, dead: [(u32, u64); 2]) -> Result<(Option<u64>, &'static str), NoMemory> {
    let mut sem = Sem::new(alloc, 0, 4)?;
    let mut wake = waking(alloc, dead)?;
    wait_for_one(&mut sem);
    sem.release(&mut wake);
    let acquired = sem.acquire(waiter(3, 13), true);
    Ok((wake.woken(), name_of(&acquired)))
}

/// Two fibers wait for a mutex that a third one has; the first has entered twice.
fn wait_for_it(lock: &mut Lock)
    requires { lock.old.cells ≡ 4 }
    ensures { lock.new.cells ≡ 4 }
{
    lock.lock(waiter(0, 9), false, 1);
    lock.lock(waiter(2, 10), false, 2);
    lock.lock(waiter(1, 11), false, 3);
    lock.lock(waiter(2, 12), false, 4);
}

/// The wait that an unlock wakes where these are dead, and what one more call of `lock` answers.
fn unlocked(alloc: Global, dead: [(u32, u64); 2]) -> Result<(Option<u64>, &'static str), NoMemory> {
    let mut lock = Lock::new(alloc, 4)?;
    let mut wake = waking(alloc, dead)?;
    wait_for_it(&mut lock);
    lock.unlock(&mut wake, 5);
    let locked = lock.lock(waiter(3, 13), true, 6);
    Ok((wake.woken(), name_of(&locked)))
}

/// Two fibers wait for a resource that a third one has; the first has entered twice.
fn wait_for_a_resource(pool: &mut Pool)
    requires { pool.old.cells ≡ 4 }
    ensures { pool.new.cells ≡ 4 }
{
    pool.use_(waiter(0, 9), false);
    pool.use_(waiter(2, 10), false);
    pool.use_(waiter(1, 11), false);
    pool.use_(waiter(2, 12), false);
}

/// The wait that gets the resource that is put back where these are dead, and what one more `use_` answers.
fn put_back(alloc: Global, dead: [(u32, u64); 2]) -> Result<(Option<u64>, &'static str), NoMemory> {
    let mut pool = Pool::new(alloc, 1, 4)?;
    let mut wake = waking(alloc, dead)?;
    wait_for_a_resource(&mut pool);
    pool.put(&mut wake, 0);
    let used = pool.use_(waiter(3, 13), true);
    Ok((wake.woken(), name_of(&used)))
}

/// The wait that is woken with `Poisoned` where these are dead: as it is told, and as it is answered.
fn poisoned(alloc: Global, dead: [(u32, u64); 2]) -> Result<[Option<u64>; 2], NoMemory> {
    let mut lock = Lock::new(alloc, 4)?;
    let mut wake = waking(alloc, dead)?;
    wait_for_it(&mut lock);
    lock.poison();
    let answer = lock.next_wake(&mut wake, 5);
    Ok([wake.woken(), woken_in(&answer)])
}

/// What calls on a semaphore answer of which one is left.
fn of_one(sem: &mut Sem) -> [&'static str; 3]
    requires { sem.old.cells ≡ 4 }
{
    let done = sem.acquire(waiter(1, 10), false);
    let off = sem.acquire(waiter(1, 11), true);
    let waits = sem.acquire(waiter(1, 12), false);
    [name_of(&done), name_of(&off), name_of(&waits)]
}

/// What calls on a mutex answer that is held, which is poisoned before the last two.
fn of_a_mutex(alloc: Global, lock: &mut Lock) -> [&'static str; 4]
    requires { lock.old.cells ≡ 4 }
{
    let done = lock.unlock(&mut all_alive(alloc), 1);
    lock.try_lock(2);
    let waits = lock.lock(waiter(1, 11), false, 2);
    lock.poison();
    let raised = lock.lock(waiter(1, 12), true, 3);
    let kept = lock.unlock(&mut all_alive(alloc), 4);
    [
        name_of(&done),
        name_of(&waits),
        name_of(&raised),
        name_of(&kept),
    ]
}

/// What two calls of `try_lock` give.
fn tried(lock: &mut Lock) -> [Option<i64>; 2]
    ensures { lock.new.cells ≡ lock.old.cells }
{
    let first = lock.try_lock(1);
    let second = lock.try_lock(2);
    [number_in(&first), number_in(&second)]
}

/// What two uses of a pool give, and what is answered where a resource is put back that isn't out.
fn used(alloc: Global, pool: &mut Pool) -> ([Option<i64>; 2], &'static str)
    requires { pool.old.cells ≡ 4 }
{
    let first = pool.use_(waiter(1, 10), false);
    let second = pool.use_(waiter(2, 11), false);
    let nothing = pool.put(&mut all_alive(alloc), 7);
    ([number_in(&first), number_in(&second)], name_of(&nothing))
}

/// The first row that isn't met.
fn wrong_row(alloc: Global) -> Result<Option<usize>, NoMemory> {
    for row in 0..DEAD.len() {
        let (dead, woken) = DEAD[row];
        let wanted = (woken, if woken.is_some() { "off" } else { "done" });
        if released(alloc, dead)? != wanted
            || unlocked(alloc, dead)? != wanted
            || put_back(alloc, dead)? != wanted
            || poisoned(alloc, dead)? != [woken, woken]
        {
            return Ok(Some(row));
        }
    }
    Ok(None)
}

#[test]
fn the_first_that_is_alive_goes_on(rt: HostRuntime) -> Result<(), Fail> {
    assert_eq!(rt; wrong_row(rt.alloc())?, None);
    Ok(())
}

/// Whether calls on a semaphore answer.
fn semaphore_answers(alloc: Global) -> Result<bool, NoMemory> {
    let mut sem = Sem::new(alloc, 1, 4)?;
    Ok(of_one(&mut sem) == ["done", "off", "waits"])
}

/// Whether calls on a mutex answer.
fn mutex_answers(alloc: Global) -> Result<bool, NoMemory> {
    let mut lock = Lock::new(alloc, 4)?;
    let is_tried = tried(&mut lock) == [Some(1), Some(0)];
    Ok(is_tried && of_a_mutex(alloc, &mut lock) == ["done", "waits", "raised", "raised"])
}

/// Whether calls on a pool answer.
fn pool_answers(alloc: Global) -> Result<bool, NoMemory> {
    let mut pool = Pool::new(alloc, 2, 4)?;
    Ok(used(alloc, &mut pool) == ([Some(0), Some(1)], "nothing"))
}

#[test]
fn each_is_taken_where_it_is_free(rt: HostRuntime) -> Result<(), Fail> {
    assert!(rt; semaphore_answers(rt.alloc())?);
    assert!(rt; mutex_answers(rt.alloc())?);
    assert!(rt; pool_answers(rt.alloc())?);
    Ok(())
}
