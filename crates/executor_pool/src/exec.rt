//! An executor: the jobs that were submitted and haven't started, its workers with the jobs that run, and the fibers that wait for a job.
//!
//! Jobs are numbered from 0 and start in order of their numbers. The job at the head goes to the first worker that it fits, which then stands last;
//! where it fits none, no job behind it starts. A submitter waits with the number of its job, and no two with one number (`IsSubmitting`), so the end
//! of a job asks one fiber at most. The theorems are the clauses of the methods of [`Exec`], by `spec_parts`'s `Executors`; what holds under any calls
//! are the laws of src/laws.rt.

ghost use Rattle.std.specs.Prelude.{◌≡◌, ◌↔◌, ◌<◌, ◌≤◌, ◌+◌, ◌-◌, ◌^◌, ℕ, Bool, true, find, length, map, slice_get, None, IfOk};
ghost use Rattle.eio_value.specs.declared.call.Answer.TheVariants as answer;
ghost use Rattle.eio_value.specs.declared.call.Call.TheVariants as call;
ghost use Rattle.eio_value.specs.declared.message.Waiter.{Waiter as Wait};
ghost use Rattle.law_parts.specs.Waits.{HasEachCellOnce};
ghost use Rattle.spec_parts.specs.Executors.{executor, has_number};
ghost use Rattle.spec_parts.specs.Objects.{called};
ghost use Rattle.wait_list.specs.Meeting.{Meets};
ghost use Rattle.executor_pool.specs.Finishing.{MeetsOne};
ghost use Rattle.executor_pool.specs.Submitting.{StartsNone};
ghost use Rattle.executor_pool.specs.Working as working;

use crate::crew::Crew;
use eio_value::{Answer, Job, NoMemory, Outcome, Value, Waiter, Wake};
use std::alloc::Global;
use std::collections::VecDeque;
use std::marker::Model;
use wait_list::{Queued, WaitList};

/// A job that was submitted, with its number among all jobs of the executor.
#[derive(Clone, Copy)]
struct Submitted {
    job: Job,
    number: u64,
}

/// An executor.
#[derive(Drop)]
pub struct Exec {
    /// The most jobs that can be queued: as many as there are cells.
    most: usize,
    /// The jobs that haven't started, in order of their numbers, with room for the most.
    queued: VecDeque<Submitted>,
    /// How many jobs were submitted, which is the number of the next one.
    submitted: u64,
    crew: Crew,
    /// Who waits for a job, each with its number, the oldest first.
    submitters: WaitList,
}

impl Model for Exec {
    ghost use Rattle.std.specs.Prelude.{map};
    ghost use Rattle.std.specs.VecDeque.{deque_capacity};
    ghost use Rattle.spec_parts.specs.Data.{Executor};
    ghost use Rattle.wait_list.specs.Lists.{Core, core_of};
    ghost use Rattle.executor_pool.specs.Kept.{submitted_of};
    ghost use Rattle.executor_pool.specs.Submitting.{IsSubmitting};

    ghost Value = { Core };

    ghost view = { λ exec. core_of (Executor (record {
      most = exec.most;
      queued = map submitted_of exec.queued.items;
      submitted = exec.submitted;
      workers = exec.crew.workers;
      running = exec.crew.running;
    })) exec.submitters };

    ghost invariant = { λ exec. IsSubmitting exec.most (map submitted_of exec.queued.items) (deque_capacity exec.queued) exec.submitted exec.submitters };
}

impl Exec {
    /// An executor with a worker in each of these domains, for fibers with cells below `cells`. Room is taken for as many queued jobs as there are
    /// cells, and for 100 running ones a worker; no other call takes memory.
    ///
    /// # Errors
    /// [`NoMemory`].
    pub fn new(alloc: Global, workers: &[u8], cells: u32) -> Result<Exec, NoMemory>
        ensures { IfOk result (λ exec. exec ≡ record { row = executor cells workers.now; cells = cells }) }
    {
        let queued = VecDeque::with_capacity(alloc, cells as usize)?;
        let crew = Crew::new(alloc, workers)?;
        let submitters = WaitList::new(alloc, cells)?;
        Ok(Exec {
            most: cells as usize,
            queued,
            submitted: 0,
            crew,
            submitters,
        })
    }

    /// Queues the job, and the fiber waits for its end: `Waits`. `Nothing` where as many jobs are queued as there are cells, and only there, whether
    /// the fiber's context is cancelled or not; else `Off` where it is. After both nothing has changed. A job of more than 100 hundredths fits no
    /// worker.
    ///
    /// # Cancellation
    /// A fiber that is cancelled while it waits goes without the outcome, and its job stays: it starts in its turn, and when it ends the fiber isn't
    /// woken (clauses `submits`, and `ends` of [`done`](Exec::done)).
    pub fn submit(&mut self, who: Waiter, off: bool, job: Job) -> Answer
        requires cell { who.cell < self.old.cells }
        requires weighty { 0 < job.weight }
        requires countable { working.submitted self.old.row.values < 2 ^ 64 - 1 }
        ensures submits { (serial : ℕ) → called self.old.row who off serial (call.Submit job) ≡ record { row = self.new.row; answer = result; sent = None } }
        ensures full { (result ≡ answer.Nothing) ↔ (length (working.queued self.old.row.values) ≡ self.old.cells) }
        ensures unchanged { result ≡ answer.Nothing → self.new ≡ self.old }
        ensures off { result ≡ answer.Off → (off ≡ true) × (self.new ≡ self.old) }
        ensures counts { working.submitted self.new.row.values ≤ working.submitted self.old.row.values + 1 }
        ensures cells { self.new.cells ≡ self.old.cells }
    {
        if self.queued.len() >= self.most {
            return Answer::Nothing;
        }
        if off {
            return Answer::Off;
        }
        let number = self.submitted;
        self.submitters.enter(Queued {
            who,
            item: Value::Unit,
            number,
        });
        self.queued.push_back_reserved(Submitted { job, number });
        self.submitted = number + 1;
        Answer::Waits
    }

    /// Starts the job at the head on the first worker that it fits: `Started`, with that worker's domain and the job's number. `Nothing` where no job
    /// is queued or the head fits no worker, and only there; then nothing has changed.
    pub fn next_start<W: Wake>(&mut self, wake: &mut W) -> Answer
        requires quiet { W.sent wake.old ≡ None }
        ensures starts { (who : Wait) (off : Bool) (object serial : ℕ) → Meets (W.knows wake.old) (W.knows wake.new) (W.tells wake.old) self.old.row who off serial (call.NextStart object) (record { row = self.new.row; answer = result; sent = W.sent wake.new }) }
        ensures nothing { (result ≡ answer.Nothing) ↔ StartsNone self.old.row.values }
        ensures counts { working.submitted self.new.row.values ≡ working.submitted self.old.row.values }
        ensures unchanged { result ≡ answer.Nothing → (self.new ≡ self.old) × (wake.new ≡ wake.old) }
        ensures cells { self.new.cells ≡ self.old.cells }
        ensures same { W.tells wake.new ≡ W.tells wake.old }
        ensures goes { W.goes_on wake.old wake.new }
    {
        let Some(head) = self.queued.front() else {
            return Answer::Nothing;
        };
        let head = *head;
        let Some(domain) = self.crew.start(head.number, head.job.weight) else {
            return Answer::Nothing;
        };
        self.queued.pop_front();
        wake.start(domain, head.job, head.number);
        Answer::Started {
            domain,
            number: head.number,
        }
    }

    /// The job with this number has ended, with this outcome: `Done(())`. Its weight is taken off its worker, and its submitter goes on with the
    /// outcome, if it still waits. `Nothing` where that job doesn't run, and only there; then nothing has changed.
    pub fn done<W: Wake>(&mut self, wake: &mut W, number: u64, outcome: Outcome) -> Answer
        requires quiet { W.sent wake.old ≡ None }
        ensures ends { (who : Wait) (off : Bool) (object serial : ℕ) → MeetsOne (W.knows wake.old) (W.knows wake.new) (W.tells wake.old) self.old.row who off serial (call.Done object number outcome) (record { row = self.new.row; answer = result; sent = W.sent wake.new }) }
        ensures nothing { (result ≡ answer.Nothing) ↔ (find (has_number number) (working.running self.old.row.values) ≡ None) }
        ensures counts { working.submitted self.new.row.values ≡ working.submitted self.old.row.values }
        ensures unchanged { result ≡ answer.Nothing → (self.new ≡ self.old) × (wake.new ≡ wake.old) }
        ensures cells { self.new.cells ≡ self.old.cells }
        ensures same { W.tells wake.new ≡ W.tells wake.old }
        ensures goes { W.goes_on wake.old wake.new }
    {
        if !self.crew.end(number) {
            return Answer::Nothing;
        }
        let Some(submitter) = self.submitters.take_numbered(number) else {
            return Answer::Done(Value::Unit);
        };
        // A submitter that was cancelled goes without it.
        wake.wake(submitter.who, outcome);
        Answer::Done(Value::Unit)
    }

    /// No cell waits twice, and no more fibers than there are cells.
    pub fn each_cell_once(&self)
        ensures once { HasEachCellOnce self.now.row }
        ensures few { length self.now.row.takers ≤ self.now.cells }
    {
        self.submitters.each_cell_once();
    }
}
