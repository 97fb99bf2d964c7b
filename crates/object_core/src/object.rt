//! An object of any kind.
//!
//! The row has the kind of the core that holds it (`IsHeld`). The theorem is the clause `meets` of [`ObjectCore::call`].

ghost use Rattle.std.specs.Prelude.{◌≡◌, ◌<◌, ◌≤◌, ◌+◌, None, IfOk};
ghost use Rattle.executor_pool.specs.Working.{submitted};
ghost use Rattle.law_parts.specs.Waits.{HasEachCellOnce};
ghost use Rattle.object_core.specs.Calling.{IsWeighty, IsCountable, MeetsCall};
ghost use Rattle.object_core.specs.Holding.{core_in, IsHeld};
ghost use Rattle.object_core.specs.Kinds.{kind_of};
ghost use Rattle.object_core.specs.Opening.{opened};

use crate::calls::{call_exec, call_lock, call_pool, call_promise, call_sem, call_stream};
use crate::declared::Declared;
use crate::held::Held;
use eio_value::{Answer, Call, NoMemory, Waiter, Wake};
use executor_pool::Exec;
use promise_cell::Promise;
use resource_pool::{Lock, Pool, Sem};
use std::alloc::Global;
use std::marker::Model;
use stream_core::Stream;

/// A shared object, with the fibers that wait for it.
#[derive(Drop)]
pub struct ObjectCore {
    held: Held,
}

impl Model for ObjectCore {
    ghost use Rattle.wait_list.specs.Lists.{Core};
    ghost use Rattle.object_core.specs.Holding.{core_in, IsHeld};

    ghost Value = { Core };

    ghost view = { λ object. core_in object.held };

    ghost invariant = { λ object. IsHeld object.held };
}

/// The core of a declaration.
fn made(alloc: Global, declared: Declared, cells: u32) -> Result<Held, NoMemory>
    ensures { IfOk result (λ held. (core_in held ≡ record { row = opened cells declared.entry; cells = cells }) × IsHeld held) }
{
    match declared {
        Declared::Stream(capacity) => Ok(Held::Stream(Stream::new(alloc, capacity, cells)?)),
        Declared::Promise => Ok(Held::Promise(Promise::new(alloc, cells)?)),
        Declared::Semaphore(count) => Ok(Held::Semaphore(Sem::new(alloc, count, cells)?)),
        Declared::Mutex => Ok(Held::Mutex(Lock::new(alloc, cells)?)),
        Declared::Pool(size) => Ok(Held::Pool(Pool::new(alloc, size, cells)?)),
        Declared::Executor(workers) => Ok(Held::Executor(Exec::new(alloc, workers, cells)?)),
    }
}

impl ObjectCore {
    /// An object as it is declared, for fibers with cells below `cells`. No other call takes memory.
    ///
    /// # Errors
    /// [`NoMemory`].
    pub fn new(alloc: Global, declared: Declared, cells: u32) -> Result<ObjectCore, NoMemory>
        ensures { IfOk result (λ object. object ≡ record { row = opened cells declared.entry; cells = cells }) }
    {
        let held = made(alloc, declared, cells)?;
        Ok(ObjectCore { held })
    }

    /// A call of this waiter, whose context is off or isn't; `serial` is that of the exception that the call may raise. One that isn't of the
    /// object's kind does nothing: `Nothing`.
    ///
    /// # Cancellation
    /// A fiber that is cancelled while it waits has lost its place alone, or, where it waits for the end of a job, goes without its outcome.
    pub fn call<W: Wake>(
        &mut self,
        wake: &mut W,
        who: Waiter,
        off: bool,
        serial: u64,
        call: Call,
    ) -> Answer
        requires cell { who.cell < self.old.cells }
        requires quiet { W.sent wake.old ≡ None }
        requires weighty { IsWeighty call }
        requires countable { IsCountable call self.old.row.values }
        ensures meets { MeetsCall (W.knows wake.old) (W.knows wake.new) (W.tells wake.old) self.old.row who off serial call (record { row = self.new.row; answer = result; sent = W.sent wake.new }) }
        ensures kind { kind_of self.new.row.values ≡ kind_of self.old.row.values }
        ensures counts { submitted self.new.row.values ≤ submitted self.old.row.values + 1 }
        ensures cells { self.new.cells ≡ self.old.cells }
        ensures same { W.tells wake.new ≡ W.tells wake.old }
        ensures goes { W.goes_on wake.old wake.new }
    {
        match &mut self.held {
            Held::Stream(stream) => call_stream(stream, wake, who, off, call),
            Held::Promise(promise) => call_promise(promise, wake, who, off, serial, call),
            Held::Semaphore(sem) => call_sem(sem, wake, who, off, call),
            Held::Mutex(lock) => call_lock(lock, wake, who, off, serial, call),
            Held::Pool(pool) => call_pool(pool, wake, who, off, call),
            Held::Executor(exec) => call_exec(exec, wake, who, off, call),
        }
    }

    /// No cell waits twice.
    pub fn each_cell_once(&self)
        ensures once { HasEachCellOnce self.now.row }
    {
        match &self.held {
            Held::Stream(stream) => stream.each_cell_once(),
            Held::Promise(promise) => promise.each_cell_once(),
            Held::Semaphore(sem) => sem.each_cell_once(),
            Held::Mutex(lock) => lock.each_cell_once(),
            Held::Pool(pool) => pool.each_cell_once(),
            Held::Executor(exec) => exec.each_cell_once(),
        }
    }
}
