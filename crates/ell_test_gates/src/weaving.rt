//! A gate that puts the operations of one worker between the steps of another.
use crate::meeting::is_reached_in_time;
use ell_tree::{Kind, StepGate};
use std::sync::atomic::{AtomicBool, AtomicU64, Ordering};

// More than any count of steps.
const ALL: u64 = u64::MAX;

/// Has worker 0 make so many operations while worker 1 is held before steps of its own: the first operation before a step of this number,
/// counted from 1 on, and each further one so many steps after the one before it, or at once. What is left when worker 1 tells its end is made
/// then. No hold lasts longer than 4,000,000,000 turns of a loop.
#[derive(Drop)]
pub struct Weaving {
    first: u64,
    distance: u64,
    operations: u64,
    // How many steps worker 1 has come to, or all, and how many operations of worker 0 have ended, and had when worker 1 told its end.
    come: AtomicU64,
    ended: AtomicU64,
    woven: AtomicU64,
    // A hold came to its end by its number of turns.
    overdue: AtomicBool,
}

impl Weaving {
    /// From this step on, so many steps apart.
    pub fn new(first: u64, distance: u64, operations: u64) -> Weaving {
        Weaving {
            first,
            distance,
            operations,
            come: AtomicU64::new(0),
            ended: AtomicU64::new(0),
            woven: AtomicU64::new(0),
            overdue: AtomicBool::new(false),
        }
    }

    /// How many operations ended before worker 1 did, if no hold ended by its number of turns.
    pub fn woven(&self) -> Option<u64> {
        let woven = self.woven.load(Ordering::SeqCst);
        (!self.overdue.load(Ordering::SeqCst)).then_some(woven)
    }

    // The step before which an operation is made, which so many come before.
    fn step_of(&self, operation: u64) -> u64 {
        self.distance
            .saturating_mul(operation)
            .saturating_add(self.first)
    }

    // How many operations are to have ended before a step.
    fn due(&self, step: u64) -> u64 {
        let operations = 0..self.operations;
        operations
            .filter(|operation| self.step_of(*operation) <= step)
            .count() as u64
    }

    // Holds a worker until a count has come so far.
    fn hold_until(&self, count: &AtomicU64, want: u64) {
        if !is_reached_in_time(count, want) {
            self.overdue.store(true, Ordering::SeqCst);
        }
    }
}

impl StepGate for Weaving {
    fn before(&self, worker: u32, kind: Kind) {
        if worker == 0 && kind == Kind::Begin {
            let step = self.step_of(self.ended.load(Ordering::SeqCst));
            self.hold_until(&self.come, step);
        }
        if worker == 1 {
            let step = self.come.fetch_add(1, Ordering::SeqCst).saturating_add(1);
            self.hold_until(&self.ended, self.due(step));
        }
    }

    fn after(&self, worker: u32, _answered: bool) {
        if worker == 0 {
            self.ended.fetch_add(1, Ordering::SeqCst);
        } else {
            self.woven
                .store(self.ended.load(Ordering::SeqCst), Ordering::SeqCst);
            self.come.store(ALL, Ordering::SeqCst);
        }
    }
}
