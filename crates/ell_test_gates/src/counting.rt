//! A gate that counts what it is told.
use crate::kinds::{LAST, number_of};
use ell_tree::{Kind, StepGate};
use std::alloc::{AllocError, Global};
use std::sync::atomic::{AtomicU64, Ordering};

/// What a gate was told of a worker.
#[derive(Clone, Copy, PartialEq, Eq, Default)]
pub struct Tally {
    /// How many operations it began.
    pub begun: u64,
    /// How many atomic steps it came to, of whatever kind.
    pub steps: u64,
    /// How many of these steps it had come to when its last operation ended.
    pub ended_behind: u64,
    /// How many of its operations ended with an answer, and without one.
    pub answered: u64,
    pub not_done: u64,
}

// Counts what is told of one worker: how often of each kind, in the order of the kinds, behind how many steps its last operation
// ended, and how operations ended.
#[derive(Drop)]
struct Counts {
    kinds: Vec<AtomicU64>,
    ended_behind: AtomicU64,
    answered: AtomicU64,
    not_done: AtomicU64,
}

/// Counts what it is told of each worker, and tells another gate.
#[derive(Drop)]
pub struct Counting<G: StepGate + Drop> {
    behind: G,
    workers: Vec<Counts>,
}

impl<G: StepGate + Drop> Counting<G> {
    /// Counts for so many workers. What is told of others is not counted.
    pub fn new(alloc: Global, workers: u32, behind: G) -> Result<Counting<G>, AllocError> {
        let mut counts = Vec::new(alloc);
        for _ in 0..workers {
            counts.push(none_told(alloc)?)?;
        }
        Ok(Counting {
            behind,
            workers: counts,
        })
    }

    /// The other gate.
    pub fn behind(&self) -> &G {
        &self.behind
    }

    /// How often a worker came to a kind of step.
    pub fn count(&self, worker: u32, kind: Kind) -> u64 {
        self.counts(worker).map_or(0, |counts| counts.of(kind))
    }

    /// What was told of a worker.
    pub fn tally(&self, worker: u32) -> Tally {
        self.counts(worker).map_or(Tally::default(), Counts::tally)
    }

    fn counts(&self, worker: u32) -> Option<&Counts> {
        self.workers.get(worker as usize)
    }
}

impl<G: StepGate + Drop> StepGate for Counting<G> {
    fn before(&self, worker: u32, kind: Kind) {
        if let Some(counts) = self.counts(worker) {
            counts.add(kind);
        }
        self.behind.before(worker, kind);
    }

    fn after(&self, worker: u32, answered: bool) {
        if let Some(counts) = self.counts(worker) {
            counts.end(answered);
        }
        self.behind.after(worker, answered);
    }
}

impl Counts {
    fn add(&self, kind: Kind) {
        if let Some(count) = self.kinds.get(number_of(kind) as usize) {
            one_more(count);
        }
    }

    fn end(&self, answered: bool) {
        self.ended_behind.store(self.steps(), Ordering::SeqCst);
        one_more(if answered {
            &self.answered
        } else {
            &self.not_done
        });
    }

    fn of(&self, kind: Kind) -> u64 {
        self.kinds.get(number_of(kind) as usize).map_or(0, read)
    }

    // How many steps were told, beside the begins of operations.
    fn steps(&self) -> u64 {
        let all = self.kinds.iter().map(read).fold(0, u64::wrapping_add);
        all.wrapping_sub(self.of(Kind::Begin))
    }

    fn tally(&self) -> Tally {
        Tally {
            begun: self.of(Kind::Begin),
            steps: self.steps(),
            ended_behind: read(&self.ended_behind),
            answered: read(&self.answered),
            not_done: read(&self.not_done),
        }
    }
}

// Nothing told yet, of all kinds.
fn none_told(alloc: Global) -> Result<Counts, AllocError> {
    let mut kinds = Vec::new(alloc);
    for _ in 0..=number_of(LAST) {
        kinds.push(AtomicU64::new(0))?;
    }
    Ok(Counts {
        kinds,
        ended_behind: AtomicU64::new(0),
        answered: AtomicU64::new(0),
        not_done: AtomicU64::new(0),
    })
}

fn read(count: &AtomicU64) -> u64 {
    count.load(Ordering::SeqCst)
}

fn one_more(count: &AtomicU64) {
    count.fetch_add(1, Ordering::SeqCst);
}
