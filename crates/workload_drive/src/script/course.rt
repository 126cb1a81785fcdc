//! What the workers of a script come to.

use super::threads::WorkFault;
use std::sync::atomic::{AtomicBool, AtomicUsize, Ordering};

/// What the workers have come to together.
#[derive(Drop)]
pub(super) struct Course {
    /// How many lines were made.
    calls: AtomicUsize,
    /// Whether the gate let a line not begin.
    is_shut: AtomicBool,
    /// Whether a thread could not be started.
    is_short: AtomicBool,
}

impl Course {
    pub(super) fn new() -> Course {
        Course {
            calls: AtomicUsize::new(0),
            is_shut: AtomicBool::new(false),
            is_short: AtomicBool::new(false),
        }
    }

    /// A line was made.
    pub(super) fn count(&self) {
        self.calls.fetch_add(1, Ordering::SeqCst);
    }

    /// The gate let a line not begin.
    pub(super) fn shut(&self) {
        self.is_shut.store(true, Ordering::SeqCst);
    }

    /// A thread could not be started.
    pub(super) fn lack(&self) {
        self.is_short.store(true, Ordering::SeqCst);
    }

    /// How many lines were made, if nothing stopped a worker.
    pub(super) fn calls(&self) -> Result<usize, WorkFault> {
        if self.is_short.load(Ordering::SeqCst) {
            return Err(WorkFault::Spawn);
        }
        if self.is_shut.load(Ordering::SeqCst) {
            return Err(WorkFault::Gate);
        }
        Ok(self.calls.load(Ordering::SeqCst))
    }
}
