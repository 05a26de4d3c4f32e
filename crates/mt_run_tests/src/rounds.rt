//! Rounds: their results, and that two workers are at work at one time, and one never beside itself.

ghost use Rattle.std.specs.Prelude.{◌≡◌, ◌<◌, ◌≤◌};

use crate::pair_gate::PairGate;
use mt_round::{first_failed, round};
use mt_workers::Workers;
use std::alloc::Global;
use std::test::Fail;
use std::thread::Threads;

/// How many workers, and how many of two tasks then meet.
const MEETINGS: &[(u64, u64)] = &[(1, 1), (2, 2), (3, 2), (64, 2)];

/// What each task of a round gives: its number, or from the third on an error.
const TASKS: usize = 6;

/// Whether so many workers give all results in order, and so many of two tasks meet.
fn all_meet<R: Threads + Sync>(
    rt: &R,
    alloc: Global,
    workers: Workers,
    met: u64,
) -> Result<bool, Fail> {
    let gate = PairGate::new();
    let done = round(
        rt,
        alloc,
        workers,
        TASKS,
        &gate,
        &|task: usize| -> usize { task },
    )?;
    Ok(done.as_slice() == [0, 1, 2, 3, 4, 5].as_slice() && gate.met() == met && gate.calls() == 6)
}

/// Whether so many workers name the first error of several.
fn names_first<R: Threads + Sync>(rt: &R, alloc: Global, workers: Workers) -> Result<bool, Fail> {
    let gate = PairGate::new();
    let done = round(
        rt,
        alloc,
        workers,
        TASKS,
        &gate,
        &|task: usize| -> Result<usize, usize> { if task < 3 { Ok(task) } else { Err(task) } },
    )?;
    match first_failed(alloc, done)? {
        Ok(_) => Ok(false),
        Err(error) => Ok(error == 3),
    }
}

#[test]
fn tasks_of_several_workers_meet(rt: HostRuntime) -> Result<(), Fail> {
    let alloc = rt.alloc();
    for (count, met) in MEETINGS {
        let Some(workers) = Workers::new(*count) else {
            continue;
        };
        assert!(rt; all_meet(&rt, alloc, workers, *met)?);
        assert!(rt; names_first(&rt, alloc, workers)?);
    }
    Ok(())
}
