//! A call on each of the cores. One that isn't of the core's kind does nothing, `Nothing`, as the definitions have it.

ghost use Rattle.std.specs.Prelude.{◌≡◌, ◌<◌, ◌≤◌, ◌+◌, ◌-◌, ◌^◌, ℕ, None};
ghost use Rattle.eio_value.specs.Waits.{Streams, Promises, Semaphores, Mutexes, Pools, Executors};
ghost use Rattle.executor_pool.specs.Working.{submitted};
ghost use Rattle.object_core.specs.Calling.{IsWeighty, IsCountable, MeetsCall};
ghost use Rattle.object_core.specs.Kinds.{kind_of};
ghost use Rattle.promise_cell.specs.Outcomes.{resolve_answer, try_answer};

use eio_value::{Answer, Call, Member, Misuse, Outcome, Plain, Raised, Value, Waiter, Wake};
use executor_pool::Exec;
use promise_cell::Promise;
use resource_pool::{Lock, Pool, Sem};
use stream_core::Stream;

/// What `resolve` answers that has set the outcome, or hasn't.
fn resolved(has_set: bool, serial: u64) -> Answer
    ensures { result ≡ resolve_answer has_set serial }
{
    if has_set {
        return Answer::Done(Value::Unit);
    }
    let what = Plain::Invalid(Misuse::Resolved);
    Answer::Raised(Raised::One(Member { serial, what }))
}

/// What `try_resolve` answers that has set the outcome, or hasn't.
fn tried(has_set: bool) -> Answer
    ensures { result ≡ try_answer has_set }
{
    Answer::Done(Value::Int(i64::from(has_set)))
}

/// A call on a stream.
pub(crate) fn call_stream<W: Wake>(
    stream: &mut Stream,
    wake: &mut W,
    who: Waiter,
    off: bool,
    call: Call,
) -> Answer
    requires kind { kind_of stream.old.row.values ≡ Streams }
    requires cell { who.cell < stream.old.cells }
    requires quiet { W.sent wake.old ≡ None }
    ensures meets { (serial : ℕ) → MeetsCall (W.knows wake.old) (W.knows wake.new) (W.tells wake.old) stream.old.row who off serial call (record { row = stream.new.row; answer = result; sent = W.sent wake.new }) }
    ensures cells { stream.new.cells ≡ stream.old.cells }
    ensures same { W.tells wake.new ≡ W.tells wake.old }
    ensures goes { W.goes_on wake.old wake.new }
{
    match call {
        Call::Add(_, item) => stream.add(wake, who, off, item),
        Call::Take(_) => stream.take(wake, who, off),
        Call::TakeNonblocking(_) => stream.take_nonblocking(wake),
        Call::Length(_) => Answer::Done(Value::Int(i64::from(stream.len()))),
        _ => Answer::Nothing,
    }
}

/// A call on a promise.
pub(crate) fn call_promise<W: Wake>(
    promise: &mut Promise,
    wake: &mut W,
    who: Waiter,
    off: bool,
    serial: u64,
    call: Call,
) -> Answer
    requires kind { kind_of promise.old.row.values ≡ Promises }
    requires cell { who.cell < promise.old.cells }
    requires quiet { W.sent wake.old ≡ None }
    ensures meets { MeetsCall (W.knows wake.old) (W.knows wake.new) (W.tells wake.old) promise.old.row who off serial call (record { row = promise.new.row; answer = result; sent = W.sent wake.new }) }
    ensures cells { promise.new.cells ≡ promise.old.cells }
    ensures same { W.tells wake.new ≡ W.tells wake.old }
    ensures goes { W.goes_on wake.old wake.new }
{
    match call {
        Call::Resolve(_, outcome) => resolved(promise.resolve(outcome), serial),
        Call::TryResolve(_, value) => tried(promise.resolve(Outcome::Ok(value))),
        Call::Await(_) => promise.await_(who, off),
        Call::NextWake(_) => promise.next_wake(wake),
        _ => Answer::Nothing,
    }
}

/// A call on a semaphore.
pub(crate) fn call_sem<W: Wake>(
    sem: &mut Sem,
    wake: &mut W,
    who: Waiter,
    off: bool,
    call: Call,
) -> Answer
    requires kind { kind_of sem.old.row.values ≡ Semaphores }
    requires cell { who.cell < sem.old.cells }
    requires quiet { W.sent wake.old ≡ None }
    ensures meets { (serial : ℕ) → MeetsCall (W.knows wake.old) (W.knows wake.new) (W.tells wake.old) sem.old.row who off serial call (record { row = sem.new.row; answer = result; sent = W.sent wake.new }) }
    ensures cells { sem.new.cells ≡ sem.old.cells }
    ensures same { W.tells wake.new ≡ W.tells wake.old }
    ensures goes { W.goes_on wake.old wake.new }
{
    match call {
        Call::Acquire(_) => sem.acquire(who, off),
        Call::Release(_) => sem.release(wake),
        _ => Answer::Nothing,
    }
}

/// A call on a mutex.
pub(crate) fn call_lock<W: Wake>(
    lock: &mut Lock,
    wake: &mut W,
    who: Waiter,
    off: bool,
    serial: u64,
    call: Call,
) -> Answer
    requires kind { kind_of lock.old.row.values ≡ Mutexes }
    requires cell { who.cell < lock.old.cells }
    requires quiet { W.sent wake.old ≡ None }
    ensures meets { MeetsCall (W.knows wake.old) (W.knows wake.new) (W.tells wake.old) lock.old.row who off serial call (record { row = lock.new.row; answer = result; sent = W.sent wake.new }) }
    ensures cells { lock.new.cells ≡ lock.old.cells }
    ensures same { W.tells wake.new ≡ W.tells wake.old }
    ensures goes { W.goes_on wake.old wake.new }
{
    match call {
        Call::Lock(_) => lock.lock(who, off, serial),
        Call::TryLock(_) => lock.try_lock(serial),
        Call::Unlock(_) => lock.unlock(wake, serial),
        Call::Poison(_) => {
            lock.poison();
            Answer::Done(Value::Unit)
        }
        Call::NextWake(_) => lock.next_wake(wake, serial),
        _ => Answer::Nothing,
    }
}

/// A call on a pool.
pub(crate) fn call_pool<W: Wake>(
    pool: &mut Pool,
    wake: &mut W,
    who: Waiter,
    off: bool,
    call: Call,
) -> Answer
    requires kind { kind_of pool.old.row.values ≡ Pools }
    requires cell { who.cell < pool.old.cells }
    requires quiet { W.sent wake.old ≡ None }
    ensures meets { (serial : ℕ) → MeetsCall (W.knows wake.old) (W.knows wake.new) (W.tells wake.old) pool.old.row who off serial call (record { row = pool.new.row; answer = result; sent = W.sent wake.new }) }
    ensures cells { pool.new.cells ≡ pool.old.cells }
    ensures same { W.tells wake.new ≡ W.tells wake.old }
    ensures goes { W.goes_on wake.old wake.new }
{
    match call {
        Call::Use(_) => pool.use_(who, off),
        Call::Put(_, resource) => pool.put(wake, resource),
        _ => Answer::Nothing,
    }
}

/// A call on an executor.
pub(crate) fn call_exec<W: Wake>(
    exec: &mut Exec,
    wake: &mut W,
    who: Waiter,
    off: bool,
    call: Call,
) -> Answer
    requires kind { kind_of exec.old.row.values ≡ Executors }
    requires cell { who.cell < exec.old.cells }
    requires quiet { W.sent wake.old ≡ None }
    requires weighty { IsWeighty call }
    requires countable { IsCountable call exec.old.row.values }
    ensures meets { (serial : ℕ) → MeetsCall (W.knows wake.old) (W.knows wake.new) (W.tells wake.old) exec.old.row who off serial call (record { row = exec.new.row; answer = result; sent = W.sent wake.new }) }
    ensures counts { submitted exec.new.row.values ≤ submitted exec.old.row.values + 1 }
    ensures cells { exec.new.cells ≡ exec.old.cells }
    ensures same { W.tells wake.new ≡ W.tells wake.old }
    ensures goes { W.goes_on wake.old wake.new }
{
    match call {
        Call::Submit(job) => exec.submit(who, off, job),
        Call::NextStart(_) => exec.next_start(wake),
        Call::Done(_, number, outcome) => exec.done(wake, number, outcome),
        _ => Answer::Nothing,
    }
}
