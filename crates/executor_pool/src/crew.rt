//! The workers of an executor, and the jobs that run on them.
//!
//! A job goes to the first worker that it fits, which then stands last. A worker's load is the weight of the jobs that run on it, and at most 100
//! (`AreWorking`). As each job weighs something, at most 100 jobs run on a worker, for which the constructor takes the room. The theorems are the
//! clauses of the methods, by `spec_parts`'s `Executors`.

ghost use Rattle.std.specs.Prelude.{◌≡◌, ◌↔◌, ◌==◌, ◌<◌, ◌≤◌, [], find, map, nat_le, ◌+◌, true, false, Some, None, IfOk};
ghost use Rattle.std.specs.List.{position};
ghost use Rattle.spec_parts.specs.Data.{Worker as OfWorkers, Running as OfJobs};
ghost use Rattle.spec_parts.specs.Executors.{fits, has_number, relieved, workers_from};
ghost use Rattle.executor_pool.specs.Crews.{crew_with, crew_without};
ghost use Rattle.executor_pool.specs.Kept.{running_of, worker_of};
ghost use Rattle.executor_pool.specs.Loads.{AreApart};

use eio_value::NoMemory;
use std::alloc::Global;
use std::marker::Model;

/// A worker: its place in the declaration, its domain, and the weight of the jobs that run on it.
#[derive(Clone, Copy)]
struct Worker {
    place: usize,
    domain: u8,
    load: u8,
}

/// A job that runs, by its number, with its weight and the place of its worker.
#[derive(Clone, Copy)]
struct Running {
    number: u64,
    weight: u8,
    worker: usize,
}

/// The workers in order of choice, and the jobs that run, the oldest first.
#[derive(Drop)]
pub(crate) struct Crew {
    workers: Vec<Worker>,
    /// With room for 100 jobs a worker.
    running: Vec<Running>,
}

impl Model for Crew {
    ghost use Rattle.std.specs.Prelude.{map};
    ghost use Rattle.std.specs.Vec.{vec_capacity};
    ghost use Rattle.executor_pool.specs.Crews as crews;
    ghost use Rattle.executor_pool.specs.Kept.{running_of, worker_of};

    ghost Value = { crews.Crew };

    ghost view = { λ crew. record { workers = map worker_of crew.workers.items; running = map running_of crew.running.items } };

    ghost invariant = { λ crew. crews.AreManned (map worker_of crew.workers.items) (map running_of crew.running.items) (vec_capacity crew.running) };
}

/// A worker for each of these domains, in order.
fn declared(alloc: Global, domains: &[u8]) -> Result<Vec<Worker>, NoMemory>
    ensures { IfOk result (λ workers. map worker_of workers.items ≡ workers_from 0 domains.now) }
{
    let mut workers = Vec::with_capacity(alloc, domains.len())?;
    for (place, &domain) in domains.iter().enumerate() {
        workers.push(Worker {
            place,
            domain,
            load: 0,
        })?;
    }
    Ok(workers)
}

/// Where the first worker stands that a job of this weight fits.
fn fitting(workers: &[Worker], weight: u8) -> Option<usize>
    ensures { result ≡ position (λ worker. nat_le (worker.load + weight) 100) workers.now }
{
    workers
        .iter()
        .position(|worker| u32::from(worker.load) + u32::from(weight) <= 100)
}

/// Where the worker stands that has this place in the declaration.
fn standing(workers: &[Worker], place: usize) -> Option<usize>
    ensures { result ≡ position (λ worker. worker.place == place) workers.now }
{
    workers.iter().position(|worker| worker.place == place)
}

/// Where the first job stands that has this number.
fn numbered(jobs: &[Running], number: u64) -> Option<usize>
    ensures { result ≡ position (λ job. job.number == number) jobs.now }
{
    jobs.iter().position(|job| job.number == number)
}

/// The worker of this job has its weight no longer.
fn relieve(workers: &mut Vec<Worker>, job: Running)
    requires apart { AreApart (map worker_of workers.old.items) }
    requires bears { (worker : OfWorkers) → find (λ other. other.place == job.worker) (map worker_of workers.old.items) ≡ Some worker → job.weight ≤ worker.load }
    ensures { map worker_of workers.new.items ≡ map (relieved (running_of job)) (map worker_of workers.old.items) }
{
    if let Some(at) = standing(workers, job.worker) {
        workers[at].load -= job.weight;
    }
}

impl Crew {
    /// A worker for each of these domains, none of which does anything. No other call takes memory.
    pub(crate) fn new(alloc: Global, domains: &[u8]) -> Result<Crew, NoMemory>
        ensures { IfOk result (λ crew. crew ≡ record { workers = workers_from 0 domains.now; running = [] }) }
    {
        let Some(room) = domains.len().checked_mul(100) else {
            return Err(NoMemory);
        };
        let running = Vec::with_capacity(alloc, room)?;
        let workers = declared(alloc, domains)?;
        Ok(Crew { workers, running })
    }

    /// The job starts on the first worker that it fits, whose domain is answered; `None` where it fits none.
    pub(crate) fn start(&mut self, number: u64, weight: u8) -> Option<u8>
        requires weighty { 0 < weight }
        ensures none { (result ≡ None) ↔ (find (fits weight) self.old.workers ≡ None) }
        ensures unfit { result ≡ None → self.new ≡ self.old }
        ensures starts { (worker : OfWorkers) → find (fits weight) self.old.workers ≡ Some worker → (result ≡ Some worker.domain) × (self.new ≡ crew_with number weight worker self.old) }
    {
        let at = fitting(&self.workers, weight)?;
        let worker = self.workers.remove(at);
        self.workers.push_reserved(Worker {
            place: worker.place,
            domain: worker.domain,
            load: worker.load + weight,
        });
        self.running.push_reserved(Running {
            number,
            weight,
            worker: worker.place,
        });
        Some(worker.domain)
    }

    /// The job with this number ends; false where it doesn't run.
    pub(crate) fn end(&mut self, number: u64) -> bool
        ensures none { (result ≡ false) ↔ (find (has_number number) self.old.running ≡ None) }
        ensures stranger { result ≡ false → self.new ≡ self.old }
        ensures ends { (job : OfJobs) → find (has_number number) self.old.running ≡ Some job → (result ≡ true) × (self.new ≡ crew_without job self.old) }
    {
        let Some(at) = numbered(&self.running, number) else {
            return false;
        };
        let job = self.running.remove(at);
        relieve(&mut self.workers, job);
        true
    }
}
