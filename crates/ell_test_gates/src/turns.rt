//! A gate that lets one worker go on at a time.
use crate::meeting::is_reached_in_time;
use ell_tree::{Kind, StepGate};
use std::sync::atomic::{AtomicBool, AtomicU64, Ordering};

/// How far a worker goes in its turn: until it has come to its next steps of a kind, to so many of them, before the last of which it
/// stops; or until an operation of it has ended.
#[derive(Clone, Copy)]
pub enum Until {
    Comes(Kind, u64),
    Ends,
}

/// A turn of a worker.
pub type WorkerTurn = (u32, Until);

/// Lets workers go on in turns, each of which begins with the first one or behind the one before it. A worker without a further turn
/// waits until all are over. No wait lasts longer than 4,000,000,000 turns of a loop, and once one has lasted so long, nobody
/// waits any more.
#[derive(Drop)]
pub struct Turns<'a> {
    turns: &'a [WorkerTurn],
    // How many turns are over, and how many steps of its kind the one that goes on has come to.
    over: AtomicU64,
    come: AtomicU64,
    // A wait came to its end by its number of turns of a loop.
    overdue: AtomicBool,
}

impl<'a> Turns<'a> {
    pub fn new(turns: &'a [WorkerTurn]) -> Turns<'a> {
        Turns {
            turns,
            over: AtomicU64::new(0),
            come: AtomicU64::new(0),
            overdue: AtomicBool::new(false),
        }
    }

    /// Whether all turns are over, and each worker waited in time.
    pub fn are_over(&self) -> bool {
        self.count_over() == self.turns.len() as u64 && !self.is_overdue()
    }

    fn is_overdue(&self) -> bool {
        self.overdue.load(Ordering::SeqCst)
    }

    fn count_over(&self) -> u64 {
        self.over.load(Ordering::SeqCst)
    }

    // Waits until it is a worker's turn, or all are over.
    fn wait(&self, worker: u32) {
        let over = self.count_over();
        let places = 0..self.turns.len() as u64;
        let mine = places
            .zip(self.turns)
            .find(|(place, turn)| over <= *place && turn.0 == worker);
        let want = mine.map_or(self.turns.len() as u64, |(place, _)| place);
        if !self.is_overdue() && !is_reached_in_time(&self.over, want) {
            self.overdue.store(true, Ordering::SeqCst);
        }
    }

    // The turn that goes on, if it is a worker's.
    fn turn_of(&self, worker: u32) -> Option<Until> {
        let turn = self.turns.get(self.count_over() as usize)?;
        (turn.0 == worker).then_some(turn.1)
    }

    fn end_turn(&self) {
        self.come.store(0, Ordering::SeqCst);
        self.over.fetch_add(1, Ordering::SeqCst);
    }

    // Whether a turn is over once its worker has come to a step.
    fn is_over_at(&self, until: Until, kind: Kind) -> bool {
        match until {
            Until::Comes(at, times) if at == kind => {
                times <= self.come.fetch_add(1, Ordering::SeqCst).wrapping_add(1)
            }
            _ => false,
        }
    }
}

impl StepGate for Turns<'_> {
    fn before(&self, worker: u32, kind: Kind) {
        self.wait(worker);
        if self
            .turn_of(worker)
            .is_some_and(|until| self.is_over_at(until, kind))
        {
            self.end_turn();
            self.wait(worker);
        }
    }

    fn after(&self, worker: u32, _answered: bool) {
        if let Some(Until::Ends) = self.turn_of(worker) {
            self.end_turn();
        }
    }
}
