//! A board of scores, each written by one thread and read by all.
//!
//! Each of three threads owns a player, and adds up the points of that player alone; a fourth owns none. All four look
//! at the scores of all players again and again. No thread waits for another, and a score that has been seen never
//! falls.
#![tactic(auto)]

ghost use Rattle.std.specs.Prelude.{◌≡◌, IfOk, None, false};
ghost use Rattle.ell_tree.specs.Ledgers.{IsIdle, IsIdlePassOf, Owns};

use anyhow::{Result, bail, ensure};
use ell_tree::{NoGate, Pass, Tree};
use std::alloc::Global;
use std::thread::{Threads, join};

const PLAYERS: [u64; 3] = [1, 2, 3];

// Each has a score from the beginning.
const START: [(u64, u64); 3] = [(1, 0), (2, 0), (3, 0)];

// The points that were made, each with its player, in order.
const POINTS: [(u64, u64); 12] = [
    (3, 2),
    (1, 5),
    (2, 1),
    (3, 3),
    (2, 10),
    (2, 2),
    (1, 4),
    (3, 6),
    (1, 1),
    (2, 10),
    (3, 1),
    (1, 7),
];

const CARDS: u64 = 10_000;

// How often a change is tried before it is `Busy`.
const TRIES: u32 = 1_000;

// What a thread has seen: the last score of each player, and how many scores were less than the one before.
#[derive(Clone, Copy)]
struct Seen {
    scores: [u64; 3],
    falls: u64,
}

impl Seen {
    fn note(&mut self, place: usize, score: u64) {
        if let Some(last) = self.scores.get_mut(place) {
            if score < *last {
                self.falls = self.falls.saturating_add(1);
            }
            *last = score;
        }
    }
}

// Adds points to the score of a player of the pass, in one atomic step: a look finds the old score or the new one.
fn add(board: &Tree<Global>, pass: Pass<Global>, player: u64, points: u64) -> Result<Pass<Global>>
    requires own { pass.table ≡ board.now.id }
    requires idle { IsIdle pass }
    requires owned { Owns pass player }
    ensures { IfOk result (λ pass. IsIdlePassOf board.now pass) }
{
    let mut pass = pass;
    let score = board.find(&mut pass, player, &NoGate).unwrap_or(0);
    let Some(sum) = score.checked_add(points) else {
        bail!("player {player} has too many points");
    };
    board.put(&mut pass, player, sum, TRIES, &NoGate)?;
    Ok(pass)
}

// Looks at the scores of all players, whichever pass owns them.
fn look_at_all(board: &Tree<Global>, pass: Pass<Global>, seen: &mut Seen) -> Pass<Global>
    requires own { pass.table ≡ board.now.id }
    requires idle { IsIdle pass }
    ensures { IsIdlePassOf board.now result }
{
    let mut pass = pass;
    for (place, player) in PLAYERS.iter().enumerate() {
        if let Some(score) = board.look(&mut pass, *player, &NoGate) {
            seen.note(place, score);
        }
    }
    pass
}

// One thread: adds up the points of the players that its pass owns, and looks at all scores. Returns how many of them
// it saw fall.
fn play(board: &Tree<Global>, pass: Pass<Global>) -> Result<(Pass<Global>, u64)>
    requires own { pass.table ≡ board.now.id }
    requires idle { IsIdle pass }
    ensures { IfOk result (λ done. IsIdlePassOf board.now done.0) }
{
    let mut pass = pass;
    let mut seen = Seen {
        scores: [0; 3],
        falls: 0,
    };
    for (player, points) in POINTS {
        if pass.owns(player) {
            pass = add(board, pass, player, points)?;
        }
        pass = look_at_all(board, pass, &mut seen);
    }
    Ok((pass, seen.falls))
}

// Two threads, each with a pass of its own. Returns the pass that both leave, and how many scores they saw fall.
fn play_by_two<R: Threads>(
    rt: &R,
    board: &Tree<Global>,
    passes: (Pass<Global>, Pass<Global>),
) -> Result<(Pass<Global>, u64)>
    requires left { IsIdlePassOf board.now passes.0 }
    requires right { IsIdlePassOf board.now passes.1 }
    ensures { IfOk result (λ done. IsIdlePassOf board.now done.0) }
{
    let (left, right) = passes;
    let (left, right) = join(rt, move || play(board, left), move || play(board, right));
    both(board, left?, right?)
}

// What two threads leave, combined.
fn both(
    board: &Tree<Global>,
    left: (Pass<Global>, u64),
    right: (Pass<Global>, u64),
) -> Result<(Pass<Global>, u64)>
    requires left { IsIdlePassOf board.now left.0 }
    requires right { IsIdlePassOf board.now right.0 }
    ensures { IfOk result (λ done. IsIdlePassOf board.now done.0) }
{
    let falls = left.1.saturating_add(right.1);
    let Ok(pass) = board.join(left.0, right.0) else {
        bail!("no memory to join two passes");
    };
    Ok((pass, falls))
}

// Ends the board, given a pass that should own all its players. Returns the scores.
fn close(board: Tree<Global>, pass: Pass<Global>, players: &[u64]) -> Result<Vec<(u64, u64)>>
    requires own { pass.table ≡ board.id }
    requires idle { IsIdle pass }
    requires players { board.plan.keys ≡ players.now }
    requires unshared { board.plan.shared ≡ false }
    requires plain { board.plan.slots ≡ None }
{
    let owns_all = players.iter().all(|player| pass.owns(*player));
    ensure!(owns_all, "a player has no owner");
    let Ok(last) = board.close(pass) else {
        bail!("no memory for the last scores");
    };
    Ok(last)
}

fn main(rt: HostRuntime) -> Result<()> {
    let (board, pass) = Tree::reserve_from(rt.alloc(), &START, &PLAYERS, CARDS)?;
    // A pass without players may look at all of them.
    let Ok((reader, pass)) = board.split(pass, &[]) else {
        bail!("no memory to part a pass");
    };
    let Ok((one, pass)) = board.split(pass, &[1]) else {
        bail!("no memory to part a pass");
    };
    let Ok((two, three)) = board.split(pass, &[2]) else {
        bail!("no memory to part a pass");
    };
    let (host, shared) = (&rt, &board);
    let (left, right) = join(
        host,
        move || play_by_two(host, shared, (reader, one)),
        move || play_by_two(host, shared, (two, three)),
    );
    let (all, falls) = both(&board, left?, right?)?;
    let last = close(board, all, &PLAYERS)?;
    println!(rt; "scores: {last:?}")?;
    println!(rt; "scores that fell: {falls}")?;
    Ok(())
}
