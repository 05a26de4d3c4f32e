//! What a task passes as it begins, so that a test can see who works beside whom.

/// What every task passes as it begins. Threads share it.
pub trait Gate {
    /// Called at the start of each task, with its number in its round, from 0.
    fn enter(&self, task: u64);
}

/// A gate that lets each task pass.
#[derive(Clone, Copy)]
pub struct NoGate;

impl Gate for NoGate {
    fn enter(&self, _task: u64) {}
}
