//! Four threads share one map from the players of a game to their scores, and add up the points that were made.
//!
//! Each thread owns a quarter of the players, and reads and writes only their scores. No thread waits for another: if a
//! neighbor has stalled halfway through a change, a thread finishes that change and goes on.
#![tactic(auto)]

ghost use Rattle.std.specs.Prelude.{◌≡◌, IfOk, None, false};
ghost use Rattle.ell_tree.specs.Ledgers.{IsIdle, IsIdlePassOf};

use anyhow::{Result, bail, ensure};
use ell_tree::{NoGate, Pass, Tree};
use std::alloc::Global;
use std::thread::{Threads, join};

const PLAYERS: [u64; 8] = [1, 2, 3, 4, 5, 6, 7, 8];

// The points that were made, each with its player, in order.
const POINTS: [(u64, u64); 12] = [
    (3, 2),
    (1, 5),
    (4, 1),
    (3, 3),
    (8, 10),
    (2, 2),
    (1, 4),
    (7, 6),
    (4, 1),
    (8, 10),
    (3, 1),
    (2, 7),
];

// An insert that adds its key takes a card, and so does a delete that takes one away; a try that meets a neighbor may
// cost one.
const CARDS: u64 = 10_000;

// How often a change is tried before it is `Busy`.
const TRIES: u32 = 1_000;

// One thread: adds up the points of the players that its pass owns.
fn add_up(scores: &Tree<Global>, pass: Pass<Global>) -> Result<Pass<Global>>
    requires own { pass.table ≡ scores.now.id }
    requires idle { IsIdle pass }
    ensures { IfOk result (λ pass. IsIdlePassOf scores.now pass) }
{
    let mut pass = pass;
    for (player, points) in POINTS {
        if !pass.owns(player) {
            continue;
        }
        // No other thread changes the score of a player of this pass.
        let score = scores.find(&mut pass, player, &NoGate).unwrap_or(0);
        let Some(sum) = score.checked_add(points) else {
            bail!("player {player} has too many points");
        };
        scores.put(&mut pass, player, sum, TRIES, &NoGate)?;
    }
    Ok(pass)
}

// Two threads, each with a part of a pass. Returns the pass that both leave.
fn add_up_by_two<R: Threads>(
    rt: &R,
    scores: &Tree<Global>,
    parts: (Pass<Global>, Pass<Global>),
) -> Result<Pass<Global>>
    requires left { IsIdlePassOf scores.now parts.0 }
    requires right { IsIdlePassOf scores.now parts.1 }
    ensures { IfOk result (λ pass. IsIdlePassOf scores.now pass) }
{
    let (left, right) = parts;
    let (left, right) = join(
        rt,
        move || add_up(scores, left),
        move || add_up(scores, right),
    );
    let Ok(both) = scores.join(left?, right?) else {
        bail!("no memory to join two passes");
    };
    Ok(both)
}

// Ends the map, given a pass that should own all its players. Returns the players who have a score, each with that
// score.
fn close(scores: Tree<Global>, pass: Pass<Global>, players: &[u64]) -> Result<Vec<(u64, u64)>>
    requires own { pass.table ≡ scores.id }
    requires idle { IsIdle pass }
    requires players { scores.plan.keys ≡ players.now }
    requires unshared { scores.plan.shared ≡ false }
    requires plain { scores.plan.slots ≡ None }
{
    let owns_all = players.iter().all(|player| pass.owns(*player));
    ensure!(owns_all, "a player has no owner");
    let Ok(last) = scores.close(pass) else {
        bail!("no memory for the last scores");
    };
    Ok(last)
}

fn main(rt: HostRuntime) -> Result<()> {
    let (scores, pass) = Tree::reserve(rt.alloc(), &PLAYERS, CARDS)?;
    // One pass owns all players, and its parts a quarter each.
    let Ok((even, odd)) = scores.split(pass, &[2, 4, 6, 8]) else {
        bail!("no memory to part a pass");
    };
    let Ok(even) = scores.split(even, &[4, 8]) else {
        bail!("no memory to part a pass");
    };
    let Ok(odd) = scores.split(odd, &[3, 7]) else {
        bail!("no memory to part a pass");
    };
    let (host, shared) = (&rt, &scores);
    let (even, odd) = join(
        host,
        move || add_up_by_two(host, shared, even),
        move || add_up_by_two(host, shared, odd),
    );
    let Ok(all) = scores.join(even?, odd?) else {
        bail!("no memory to join two passes");
    };
    let last = close(scores, all, &PLAYERS)?;
    println!(rt; "scores: {last:?}")?;
    Ok(())
}
