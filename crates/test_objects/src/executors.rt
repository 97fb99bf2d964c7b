//! Executors.

ghost use Rattle.std.specs.Prelude.{◌≡◌, ◌<◌, ◌≤◌};
ghost use Rattle.executor_pool.specs.Working as working;

use crate::waits::{all_alive, name_of, waiter, waking};
use eio_value::{Answer, Job, NoMemory, Outcome, Value};
use executor_pool::Exec;
use std::alloc::Global;
use std::test::Fail;

/// A job of this weight.
fn job(weight: u8) -> Job
    ensures { result.weight ≡ weight }
{
    Job {
        executor: 0,
        node: 0,
        given: [Value::Unit; 8],
        count: 0,
        weight,
    }
}

/// The domain and the number with which a job was started.
fn started(answer: &Answer) -> Option<(u8, u64)> {
    match answer {
        Answer::Started { domain, number } => Some((*domain, *number)),
        _ => None,
    }
}

/// Three fibers submit a job each, of this weight.
fn submit(exec: &mut Exec, weight: u8)
    requires cells { exec.old.cells ≡ 4 }
    requires weighty { 0 < weight }
    requires new { working.submitted exec.old.row.values ≡ 0 }
    ensures cells { exec.new.cells ≡ 4 }
{
    exec.submit(waiter(2, 10), false, job(weight));
    exec.submit(waiter(1, 11), false, job(weight));
    exec.submit(waiter(2, 12), false, job(weight));
}

/// How three jobs start, one after another.
fn start(alloc: Global, exec: &mut Exec) -> [Option<(u8, u64)>; 3] {
    let first = exec.next_start(&mut all_alive(alloc));
    let second = exec.next_start(&mut all_alive(alloc));
    let third = exec.next_start(&mut all_alive(alloc));
    [started(&first), started(&second), started(&third)]
}

/// Which job ends, which wait is dead, and the stamp of the wait that is woken then. The submitter of the first job has submitted
/// the third one since, so it waits for the first no longer.
const ENDS: [(u64, (u32, u64), Option<u64>); 4] = [
    (0, (1, 11), None),
    (1, (1, 10), Some(11)),
    (1, (1, 11), None),
    (2, (2, 10), Some(12)),
];

/// What the end of a job answers, and which wait it wakes, where this one is dead.
fn ended(
    alloc: Global,
    number: u64,
    dead: (u32, u64),
) -> Result<(&'static str, Option<u64>), NoMemory> {
    let mut exec = Exec::new(alloc, &[4], 4)?;
    let mut wake = waking(alloc, [dead, dead])?;
    submit(&mut exec, 30);
    start(alloc, &mut exec);
    let answer = exec.done(&mut wake, number, Outcome::Ok(Value::Int(7)));
    Ok((name_of(&answer), wake.woken()))
}

/// What calls answer where one job can be queued.
fn with_one(alloc: Global, exec: &mut Exec) -> [&'static str; 4]
    requires cells { exec.old.cells ≡ 1 }
    requires new { working.submitted exec.old.row.values ≡ 0 }
{
    let off = exec.submit(waiter(0, 10), true, job(1));
    let waits = exec.submit(waiter(0, 11), false, job(1));
    let full = exec.submit(waiter(0, 12), true, job(1));
    let done = exec.done(&mut all_alive(alloc), 0, Outcome::Ok(Value::Unit));
    [
        name_of(&off),
        name_of(&waits),
        name_of(&full),
        name_of(&done),
    ]
}

/// The first end that isn't met.
fn wrong_row(alloc: Global) -> Result<Option<usize>, NoMemory> {
    for row in 0..ENDS.len() {
        let (number, dead, woken) = ENDS[row];
        if ended(alloc, number, dead)? != ("done", woken) {
            return Ok(Some(row));
        }
    }
    Ok(None)
}

#[test]
fn the_end_of_a_job_wakes_its_submitter(rt: HostRuntime) -> Result<(), Fail> {
    assert_eq!(rt; wrong_row(rt.alloc())?, None);
    Ok(())
}

/// Whether calls answer where one job can be queued.
fn small_one_answers(alloc: Global) -> Result<bool, NoMemory> {
    let mut exec = Exec::new(alloc, &[4], 1)?;
    Ok(with_one(alloc, &mut exec) == ["off", "waits", "nothing", "nothing"])
}

/// Whether jobs start where they fit, in order.
fn jobs_start(alloc: Global) -> Result<bool, NoMemory> {
    let mut exec = Exec::new(alloc, &[4, 5], 4)?;
    submit(&mut exec, 60);
    Ok(start(alloc, &mut exec) == [Some((4, 0)), Some((5, 1)), None])
}

#[test]
fn jobs_are_queued_and_start_where_they_fit(rt: HostRuntime) -> Result<(), Fail> {
    assert!(rt; small_one_answers(rt.alloc())?);
    assert!(rt; jobs_start(rt.alloc())?);
    Ok(())
}
