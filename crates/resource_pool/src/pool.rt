//! A pool of resources: those that nobody uses, and the fibers that wait for one.
//!
//! Resources are numbers from 0. One is made only where none is idle and fewer than the pool's size were made. Idle resources are distinct and below the
//! number that were made (`AreIdle`), so they never need more room than the pool's size. The theorems are the clauses of the methods of [`Pool`], by
//! `spec_parts`'s `Pools`; that nobody gets a resource that somebody has, whatever is called, is the law [`used_in_turn`](crate::used_in_turn).

ghost use Rattle.std.specs.Prelude.{◌≡◌, ◌↔◌, ◌<◌, ◌≤◌, ℕ, Bool, false, true, length, None, IfOk};
ghost use Rattle.eio_value.specs.declared.call.Answer.TheVariants as answer;
ghost use Rattle.eio_value.specs.declared.call.Call.TheVariants as call;
ghost use Rattle.eio_value.specs.declared.message.Waiter.{Waiter as Wait};
ghost use Rattle.law_parts.specs.Waits.{HasEachCellOnce};
ghost use Rattle.spec_parts.specs.Objects.{called};
ghost use Rattle.spec_parts.specs.Pools.{pool};
ghost use Rattle.resource_pool.specs.Using.{is_out_of};
ghost use Rattle.wait_list.specs.Meeting.{Meets};

use crate::waiting::wait;
use eio_value::{Answer, NoMemory, Outcome, Value, Waiter, Wake};
use std::alloc::Global;
use std::marker::Model;
use wait_list::WaitList;

/// A pool of resources.
#[derive(Drop)]
pub struct Pool {
    /// How many resources can be made.
    size: u32,
    /// How many were made: the numbers below this one.
    made: u32,
    /// Those that nobody uses, the one that was put back last at the end.
    idle: Vec<u32>,
    /// Who waits for one, the oldest first.
    waiters: WaitList,
}

impl Model for Pool {
    ghost use Rattle.std.specs.Prelude.{◌≤◌};
    ghost use Rattle.std.specs.Vec.{vec_capacity};
    ghost use Rattle.spec_parts.specs.Data as rows;
    ghost use Rattle.wait_list.specs.Lists.{Core, core_of};
    ghost use Rattle.resource_pool.specs.Using.{AreIdle};

    ghost Value = { Core };

    ghost view = { λ pool. core_of (rows.Pool pool.size pool.made pool.idle.items) pool.waiters };

    ghost invariant = { λ pool. AreIdle pool.made pool.idle.items × (pool.made ≤ pool.size) × (pool.size ≤ vec_capacity pool.idle) };
}

impl Pool {
    /// A pool in which so many resources can be made, for fibers with cells below `cells`. No other call takes memory.
    ///
    /// # Errors
    /// [`NoMemory`].
    pub fn new(alloc: Global, size: u32, cells: u32) -> Result<Pool, NoMemory>
        ensures { IfOk result (λ made. made ≡ record { row = pool size; cells = cells }) }
    {
        let idle = Vec::with_capacity(alloc, size as usize)?;
        let waiters = WaitList::new(alloc, cells)?;
        Ok(Pool {
            size,
            made: 0,
            idle,
            waiters,
        })
    }

    /// Takes the idle resource that was put back last, or a new one: `Done(Int(resource))`. Where all are made and none is idle the fiber waits for
    /// one, `Waits`; or, where its context is cancelled, `Off` is answered and the pool is as it was.
    ///
    /// # Cancellation
    /// A fiber that is cancelled while it waits has got no resource, and has lost its place: a `put` that comes to it hands its resource to the next one
    /// (clause `puts` of [`put`](Pool::put)). One that a `put` has woken before has the resource, and has to put it back.
    pub fn use_(&mut self, who: Waiter, off: bool) -> Answer
        requires cell { who.cell < self.old.cells }
        ensures uses { (object serial : ℕ) → called self.old.row who off serial (call.Use object) ≡ record { row = self.new.row; answer = result; sent = None } }
        ensures off { result ≡ answer.Off → (off ≡ true) × (self.new ≡ self.old) }
        ensures cells { self.new.cells ≡ self.old.cells }
    {
        if let Some(resource) = self.idle.pop() {
            return Answer::Done(Value::Int(i64::from(resource)));
        }
        if self.made < self.size {
            let resource = self.made;
            self.made += 1;
            return Answer::Done(Value::Int(i64::from(resource)));
        }
        wait(&mut self.waiters, who, off)
    }

    /// Puts a resource back, `Done(())`: the first waiter that is alive gets it and is woken, or it is the last among the idle. `Nothing` where the
    /// resource isn't out, and only there; then nothing has changed. It is out where it was made and isn't idle.
    pub fn put<W: Wake>(&mut self, wake: &mut W, resource: u32) -> Answer
        requires quiet { W.sent wake.old ≡ None }
        ensures puts { (who : Wait) (off : Bool) (object serial : ℕ) → Meets (W.knows wake.old) (W.knows wake.new) (W.tells wake.old) self.old.row who off serial (call.Put object resource) (record { row = self.new.row; answer = result; sent = W.sent wake.new }) }
        ensures nothing { (result ≡ answer.Nothing) ↔ (is_out_of self.old.row.values resource ≡ false) }
        ensures unchanged { result ≡ answer.Nothing → (self.new ≡ self.old) × (wake.new ≡ wake.old) }
        ensures cells { self.new.cells ≡ self.old.cells }
        ensures same { W.tells wake.new ≡ W.tells wake.old }
        ensures goes { W.goes_on wake.old wake.new }
    {
        if !self.is_out(resource) {
            return Answer::Nothing;
        }
        let given = Outcome::Ok(Value::Int(i64::from(resource)));
        match self.waiters.wake_first(wake, &given) {
            Some(_) => {}
            None => self.idle.push_reserved(resource),
        }
        Answer::Done(Value::Unit)
    }

    /// No cell waits twice, and no more fibers than there are cells.
    pub fn each_cell_once(&self)
        ensures once { HasEachCellOnce self.now.row }
        ensures few { length self.now.row.takers ≤ self.now.cells }
    {
        self.waiters.each_cell_once()
    }

    /// Whether somebody has this resource.
    fn is_out(&self, resource: u32) -> bool
        ensures { result ≡ is_out_of self.now.row.values resource }
    {
        resource < self.made && !self.idle.contains(&resource)
    }
}
