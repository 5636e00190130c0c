//! A gate at which all workers meet, each in the middle of an operation of its own.
use crate::meeting::is_reached_in_time;
use ell_tree::{Kind, StepGate};
use std::alloc::{AllocError, Global};
use std::sync::atomic::{AtomicBool, AtomicU64, Ordering};

/// Holds each worker at its first step of a kind until every other one has come to its own, or has ended an operation without an
/// answer. No hold lasts longer than 4,000,000,000 turns of a loop, and once one has lasted so long, nobody is held any more.
#[derive(Drop)]
pub struct Gathering {
    at: Kind,
    // Whether each worker has come, 0 or 1, and how many have.
    here: Vec<AtomicU64>,
    come: AtomicU64,
    // A hold came to its end by its number of turns.
    overdue: AtomicBool,
}

impl Gathering {
    /// Holds so many workers. Others are not held.
    pub fn at(alloc: Global, kind: Kind, workers: u32) -> Result<Gathering, AllocError> {
        let mut here = Vec::new(alloc);
        for _ in 0..workers {
            here.push(AtomicU64::new(0))?;
        }
        Ok(Gathering {
            at: kind,
            here,
            come: AtomicU64::new(0),
            overdue: AtomicBool::new(false),
        })
    }

    /// Whether all workers came in time, and so each was held until all were there.
    pub fn has_gathered(&self) -> bool {
        self.come.load(Ordering::SeqCst) == self.here.len() as u64 && !self.is_overdue()
    }

    fn is_overdue(&self) -> bool {
        self.overdue.load(Ordering::SeqCst)
    }

    // Counts a worker that comes for the first time: whether it does.
    fn comes(&self, worker: u32) -> bool {
        let here = self.here.get(worker as usize);
        let comes = here.is_some_and(|here| here.fetch_max(1, Ordering::SeqCst) == 0);
        if comes {
            self.come.fetch_add(1, Ordering::SeqCst);
        }
        comes
    }
}

impl StepGate for Gathering {
    fn before(&self, worker: u32, kind: Kind) {
        if kind != self.at || !self.comes(worker) || self.is_overdue() {
            return;
        }
        if !is_reached_in_time(&self.come, self.here.len() as u64) {
            self.overdue.store(true, Ordering::SeqCst);
        }
    }

    fn after(&self, worker: u32, answered: bool) {
        if !answered {
            self.comes(worker);
        }
    }
}
