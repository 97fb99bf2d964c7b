//! Turns: calls in several threads end, and memory is there for them.

ghost use Rattle.std.specs.Prelude.{◌≡◌, ◌<◌, false, All, IfOk, vec_len};

use eio_value::NoMemory;
use std::alloc::Global;
use std::sync::Wait;
use std::test::Fail;
use std::thread;
use std::thread::Threads;
use turn_lock::numbers::{Numbers, push};
use turn_lock::{Pass, Turn};

/// How many numbers each thread pushes.
const EACH: u64 = 1_000;

/// What one thread pushes: `EACH` numbers, from `first` on.
#[derive(Drop)]
struct Worker {
    pass: Pass<Numbers>,
    first: u64,
}

/// Pushes the worker's numbers, and gives its pass back. A number that memory is refused for is left out.
fn work<R: Wait>(rt: &R, alloc: Global, turn: &Turn<Numbers>, worker: Worker) -> Pass<Numbers>
    requires { (worker.pass.turn ≡ turn.now.id) × (worker.pass.holds ≡ false) }
    ensures { (result.turn ≡ turn.now.id) × (result.holds ≡ false) }
{
    let mut pass = worker.pass;
    for number in 0..EACH {
        let _ = push(
            rt,
            alloc,
            turn,
            &mut pass,
            worker.first.wrapping_add(number),
        );
    }
    pass
}

/// The workers of these passes.
fn hire(
    alloc: Global,
    turn: &Turn<Numbers>,
    mut passes: Vec<Pass<Numbers>>,
) -> Result<Vec<Worker>, NoMemory>
    requires turn { All (λ p. p.turn ≡ turn.now.id) passes.items }
    requires free { All (λ p. p.holds ≡ false) passes.items }
    ensures all { IfOk result (λ workers. vec_len workers ≡ vec_len passes) }
    ensures ready { IfOk result (λ workers. All (λ w. (w.pass.turn ≡ turn.now.id) × (w.pass.holds ≡ false)) workers.items) }
{
    let mut workers = Vec::with_capacity(alloc, passes.len())?;
    while let Some(pass) = passes.pop() {
        let first = (passes.len() as u64).wrapping_mul(EACH);
        workers.push(Worker { pass, first })?;
    }
    Ok(workers)
}

/// What so many threads pushed, in the order in which the turns fell.
fn pushed_by<R: Threads + Wait + Sync>(
    rt: &R,
    alloc: Global,
    threads: u8,
) -> Result<Numbers, NoMemory>
    requires { 0 < threads }
{
    let (turn, passes) = Turn::make(alloc, Numbers::new(alloc), threads)?;
    let workers = hire(alloc, &turn, passes)?;
    let passes = thread::map_vec(
        rt,
        workers,
        &|worker: Worker| -> Pass<Numbers>
            requires { (worker.pass.turn ≡ turn.id) × (worker.pass.holds ≡ false) }
            ensures { (result.turn ≡ turn.id) × (result.holds ≡ false) }
        { work(rt, alloc, &turn, worker) },
    )?;
    Ok(turn.close(passes))
}

/// How many numbers there are, where those of each thread stand in its order and no others are there.
fn count(numbers: &mut Numbers, threads: u8) -> Option<u64> {
    // The number that each thread pushes next.
    let mut next: [u64; 4] = [0, 1_000, 2_000, 3_000];
    for found in 0..5_000 {
        let Some(number) = numbers.pop() else {
            return Some(found);
        };
        let thread = number / EACH;
        if thread >= 4 || thread >= u64::from(threads) || number != next[thread as usize] {
            return None;
        }
        next[thread as usize] = number.wrapping_add(1);
    }
    None
}

#[test]
fn numbers_of_each_thread_stand_in_order(rt: HostRuntime) -> Result<(), Fail> {
    for (threads, wanted) in [(1, 1_000), (2, 2_000), (4, 4_000)] {
        let mut numbers = pushed_by(&rt, rt.alloc(), threads)?;
        assert_eq!(rt; count(&mut numbers, threads), Some(wanted));
    }
    Ok(())
}
