//! The results of all workers, in the order of the tasks.

ghost use Rattle.std.specs.Prelude.{◌≡◌, ℕ, ◌<◌, IfOk, vec_len};
ghost use Rattle.std.specs.Fn.{FnReturns};
ghost use Rattle.std.specs.Fork.{GivesEach};
ghost use Rattle.std.specs.VecDeque.{deque_len, deque_items};
ghost use Rattle.mt_round.specs.Turns.{HoldsTurns};

use mt_types::NoMemory;
use std::alloc::Global;
use std::collections::VecDeque;

/// The results in the order of the tasks. The queue turns: its first share is that of the next task's worker.
pub(crate) fn gathered<X: Drop, F: Fn(usize) -> X>(
    alloc: Global,
    step: usize,
    tasks: usize,
    mut shares: VecDeque<Result<VecDeque<X>, NoMemory>>,
    _work: &F,
) -> Result<Vec<X>, NoMemory>
    requires workers { (deque_len shares ≡ step) × (0 < tasks → 0 < step) }
    requires turns { HoldsTurns deque_items (λ i x. FnReturns F.Fn _work.now (i, tt) x) 0 step tasks shares.items }
    ensures len { IfOk result (λ done. vec_len done ≡ tasks) }
    ensures each { IfOk result (λ done. GivesEach F.Fn _work.now tasks done.items) }
{
    let mut all = Vec::with_capacity(alloc, tasks)?;
    for _ in 0..tasks {
        let mut share = shares.pop_front().unwrap()?;
        let done = share.pop_front().unwrap();
        all.push(done)?;
        shares.push_back(Ok(share))?;
    }
    Ok(all)
}
