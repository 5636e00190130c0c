//! What workers do at once on one tree, one at a time, in turns, and how often each then comes to each kind of exchange.
ghost use Rattle.std.specs.Prelude.{◌<◌};
ghost use Rattle.std.specs.List.Sorted.{IsStrictlyIncreasing};
ghost use Rattle.std.specs.Map.{keys_of};

use super::running::run_from;
use ell_ops::Op;
use ell_parts::Parts;
use ell_test_gates::Until::Comes;
use ell_test_gates::{Counting, Turns, Until, WorkerTurn};
use ell_tree::Exchange::{
    self, Backtrack, Claim, DChild, DFlag, DUnflag, IChild, IFlag, IUnflag, Mark,
};
use ell_tree::Kind;
use std::process::Abort;
use std::thread::Threads;

// How many workers there may be.
const WORKERS: u32 = 5;

const EXCHANGES: [Exchange; 9] = [
    Claim, IFlag, IChild, IUnflag, DFlag, Mark, DChild, DUnflag, Backtrack,
];

/// How often a worker comes to each kind of exchange: the claim of a card; the flag, the child and the unflag of an insert; the
/// flag, the mark, the child and the unflag of a delete; and the flag of a delete that is taken back.
pub type Made = [u64; 9];

/// An insert and a delete, each in a try that nothing hinders, or whose later steps another one has made already.
pub const INSERT: Made = [1, 1, 1, 1, 0, 0, 0, 0, 0];

pub const DELETE: Made = [1, 0, 0, 0, 1, 1, 1, 1, 0];

/// Tries that lost the claim, the flag or the mark. A delete that lost its mark takes its flag back.
pub const LOST_CLAIM: Made = [1, 0, 0, 0, 0, 0, 0, 0, 0];

pub const LOST_INSERT: Made = [1, 1, 0, 0, 0, 0, 0, 0, 0];

pub const LOST_DELETE: Made = [1, 0, 0, 0, 1, 0, 0, 0, 0];

pub const LOST_MARK: Made = [1, 0, 0, 0, 1, 1, 0, 0, 1];

/// Steps for another worker: of an insert from its child on; of a delete from its mark on, or from its child on, or of one that lost
/// its mark.
pub const HELP_INSERT: Made = [0, 0, 1, 1, 0, 0, 0, 0, 0];

pub const HELP_DELETE: Made = [0, 0, 0, 0, 0, 1, 1, 1, 0];

pub const HELP_MARKED: Made = [0, 0, 0, 0, 0, 0, 1, 1, 0];

pub const HELP_UNMARKED: Made = [0, 0, 0, 0, 0, 1, 0, 0, 1];

/// Turns of workers that end when they have come to an exchange.
pub const AT_CLAIM: Until = Comes(Kind::Exchange(Claim), 1);

pub const AT_IFLAG: Until = Comes(Kind::Exchange(IFlag), 1);

pub const AT_ICHILD: Until = Comes(Kind::Exchange(IChild), 1);

pub const AT_IUNFLAG: Until = Comes(Kind::Exchange(IUnflag), 1);

pub const AT_DFLAG: Until = Comes(Kind::Exchange(DFlag), 1);

pub const AT_MARK: Until = Comes(Kind::Exchange(Mark), 1);

pub const AT_DCHILD: Until = Comes(Kind::Exchange(DChild), 1);

pub const AT_DUNFLAG: Until = Comes(Kind::Exchange(DUnflag), 1);

pub const AT_BACKTRACK: Until = Comes(Kind::Exchange(Backtrack), 1);

/// Operations of workers, each of which does those that it owns, in turns.
#[derive(Clone, Copy)]
pub struct Scene<'a> {
    pub ops: &'a [Op],
    pub owners: &'a [u32],
    pub turns: &'a [WorkerTurn],
    pub cards: u64,
    pub tries: u32,
    /// How many operations are done after the workers have ended.
    pub late: usize,
    /// What workers come to, by their numbers.
    pub made: &'a [(u32, &'a [Made])],
}

/// Plays scenes, each over these start keys, in which each worker is to come to what it says.
pub fn play_all<R: Threads + Abort + AllocGlobal + Sync>(
    rt: &R,
    start: &[(u64, u64)],
    scenes: &[Scene],
)
    requires { IsStrictlyIncreasing (keys_of start.now) }
{
    for (row, scene) in scenes.iter().enumerate() {
        play_scene(rt, start, *scene, row);
    }
}

fn play_scene<R: Threads + Abort + AllocGlobal + Sync>(
    rt: &R,
    start: &[(u64, u64)],
    scene: Scene,
    row: usize,
)
    requires { IsStrictlyIncreasing (keys_of start.now) }
{
    let turns = Turns::new(scene.turns);
    let gate = Counting::new(rt.alloc(), WORKERS, turns).expect(rt, "memory");
    let parts = Parts::by_owner(rt.alloc(), scene.ops, scene.owners, WORKERS).expect(rt, "parts");
    let limits = (scene.cards, scene.tries);
    let outcome = run_from(rt, start, scene.ops, &parts, limits, &gate);
    assert!(rt;
        gate.behind().are_over() && outcome.late == scene.late,
        "row {row}"
    );
    for (worker, made) in scene.made {
        assert!(rt;
            has_made(&gate, *worker, made),
            "worker {worker} of row {row}"
        );
    }
}

// Whether a worker came to the sum of these.
fn has_made(gate: &Counting<Turns>, worker: u32, made: &[Made]) -> bool {
    for at in 0..9 {
        if gate.count(worker, Kind::Exchange(EXCHANGES[at])) != sum_at(made, at) {
            return false;
        }
    }
    true
}

// The sum of the counts of one kind of exchange.
fn sum_at(made: &[Made], at: usize) -> u64
    requires { at < 9 }
{
    let mut sum: u64 = 0;
    for one in made {
        sum = sum.wrapping_add(one[at]);
    }
    sum
}
