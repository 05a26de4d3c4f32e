//! A round, and the tasks of one worker.

ghost use Rattle.std.specs.Prelude.{◌≡◌, ℕ, ◌*◌, ◌^◌, ◌<◌, ◌≤◌, ◌+◌, IfOk, vec_len};
ghost use Rattle.std.specs.Fn.{FnReturns};
ghost use Rattle.std.specs.Fork.{GivesEach};
ghost use Rattle.mt_round.specs.Turns.{HoldsStride};

use crate::gathering::gathered;
use mt_shelf::Gate;
use mt_types::NoMemory;
use mt_workers::Workers;
use std::alloc::Global;
use std::collections::VecDeque;
use std::thread;
use std::thread::Threads;

/// What `work` gives for each task, from 0 to `tasks - 1`, in the order of the tasks: what one worker alone
/// would give, for any number of workers and any gate.
///
/// Of W workers the i-th does the tasks i, i + W, i + 2 W and so on, and no more start than there are tasks.
/// Where no thread can be made the caller's does its tasks. A task's own error stands in its place;
/// `NoMemory` is that there is no room for the results.
pub fn round<R: Threads + Sync, G: Gate + Sync, X: Send + Drop, F: Fn(usize) -> X + Sync>(
    rt: &R,
    alloc: Global,
    workers: Workers,
    tasks: usize,
    gate: &G,
    work: &F,
) -> Result<Vec<X>, NoMemory>
    requires room { tasks < 2 ^ 32 }
    requires accepts { (i : ℕ) → i < tasks → F.pre work.now i }
    ensures len { IfOk result (λ done. vec_len done ≡ tasks) }
    ensures each { IfOk result (λ done. GivesEach F.Fn work.now tasks done.items) }
{
    let busy = (workers.count as usize).min(tasks);
    let shares = thread::map_indices(
        rt,
        alloc,
        busy,
        &|first: usize| -> Result<VecDeque<X>, NoMemory>
            requires { (first < busy) × (busy ≤ 64) × (busy ≤ tasks) × (tasks < 2 ^ 32) × ((i : ℕ) → i < tasks → F.pre work.now i) }
            ensures { IfOk result (λ done. HoldsStride (λ i x. FnReturns F.Fn work.entry.now (i, tt) x) first busy tasks done.items) }
        { share(alloc, first, busy, tasks, gate, work) },
    )?;
    gathered(alloc, busy, tasks, VecDeque::from(shares), work)
}

/// What one worker's tasks give: `first`, `first + step`, and so on.
fn share<G: Gate, X: Drop, F: Fn(usize) -> X>(
    alloc: Global,
    first: usize,
    step: usize,
    tasks: usize,
    gate: &G,
    work: &F,
) -> Result<VecDeque<X>, NoMemory>
    requires step { (0 < step) × (step ≤ 64) }
    requires room { (first < tasks) × (tasks < 2 ^ 32) }
    requires accepts { (i : ℕ) → i < tasks → F.pre work.now i }
    ensures { IfOk result (λ done. HoldsStride (λ i x. FnReturns F.Fn work.now (i, tt) x) first step tasks done.items) }
{
    let mut done = VecDeque::new(alloc);
    let mut task = first;
    while task < tasks {
        gate.enter(task as u64);
        done.push_back(work(task))?;
        task += step;
    }
    Ok(done)
}
