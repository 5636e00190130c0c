//! A run: a list of operations, divided among workers.
ghost use Rattle.std.specs.Prelude.{◌≡◌, ◌≤◌, All, IfOk, length};
ghost use Rattle.std.specs.List.{flat_map};
ghost use Rattle.std.specs.List.Sorted.{IsStrictlyIncreasing};
ghost use Rattle.std.specs.Map.{keys_of as keys_in};
ghost use Rattle.ell_ops.specs.Contents.{Contents, contents_of};
ghost use Rattle.ell_ops.specs.KeySet.{Lists, set_of, union};
ghost use Rattle.ell_ops.specs.Meaning.{Fits, greatest_key};
ghost use Rattle.ell_tree.specs.Ledgers.{Owns};
ghost use Rattle.ell_tree.specs.PassParts.{IsFirst};
ghost use Rattle.ell_word.specs.Node.{most_cards};
ghost use Rattle.ell_run.specs.Late.{AreLeft, IsOutcome, late_ops};
ghost use Rattle.ell_run.specs.Limits.{AreLimits, IsRunnable, IsStart};
ghost use Rattle.ell_run.specs.Pieces.{lists_of};
ghost use Rattle.ell_run.specs.Settings.{IsAllowed};
ghost use Rattle.ell_run.specs.Work.{IsUnsharedFrom};

use crate::faults::{WorkFault, only_memory};
use crate::late::{do_late, late_ops};
use crate::pieces::Piece;
use crate::reservation::cards_to_reserve;
use crate::workers::{busy_workers, keys_for, work_apart};
use ell_ops::{NoMemory, Op, Reply, united_keys};
use ell_parts::{GatherFault, Parts, gather};
use ell_tree::{CardFault, Pass, StepGate, Tree};
use std::alloc::{Allocator, Global};
use std::thread::Threads;

/// How much a run may use.
#[derive(Clone, Copy, Debug, PartialEq, Eq)]
pub struct Limits {
    /// The cards that the tree has to give out, 1 to `CARDS_MAX`. Start keys take none of them. No more of them are
    /// reserved than the operations can take.
    pub cards: u64,
    /// The tries that an insert or a delete has, 1 to `TRIES_MAX`.
    pub tries: u32,
}

/// The outcome of a run.
#[derive(Debug, Drop)]
pub struct Outcome<A: Allocator = Global> {
    /// The reply of each operation, in the order of the list.
    pub replies: Vec<Reply, A>,
    /// The keys of the map at the end, ascending, with their values.
    pub pairs: Vec<(u64, u64), A>,
    /// How many operations were done after the workers had ended.
    pub late: usize,
}

/// Runs a list of operations from the map of `start`: each worker of the parting works its own part off on one tree
/// that all share, in a thread of its own if one can be made, and what they leave is done by one thread after they have
/// ended. Replies and final keys with their values are those of one thread over the whole list. The gate sees each call
/// of the tree, under the number of its worker. Conditions: the keys of `start` are strictly ascending and at most
/// `KEY_MAX`, and there are at most `START_MAX` of them.
pub fn run<R: Threads + Sync, A: Allocator + Copy + Send + Sync, G: StepGate + Sync>(
    rt: &R,
    alloc: A,
    start: &[(u64, u64)],
    ops: &[Op],
    parts: &Parts<'_, A>,
    limits: Limits,
    gate: &G,
) -> Result<Outcome<A>, NoMemory>
    requires runnable { IsRunnable start.now ops.now parts.now limits }
    // Replies and pairs are those of one thread that applies the list to the start pairs. `late` is how many operations
    // no piece answers, for some pieces that the workers of the parting could have left; a piece ends only before an
    // operation that would change the map, or a swap that would find its first value.
    ensures { IfOk result (IsOutcome (contents_of start.now) ops.now parts.now) }
{
    let (pieces, pairs) = run_workers(rt, alloc, start, ops, parts, limits, gate)?;
    finish(alloc, ops, parts, pieces, pairs)
}

// Has the workers do their parts on one tree, which begins with the map of `start`, and ends the tree.
fn run_workers<R: Threads + Sync, A: Allocator + Copy + Send + Sync, G: StepGate + Sync>(
    rt: &R,
    alloc: A,
    start: &[(u64, u64)],
    ops: &[Op],
    parts: &Parts<'_, A>,
    limits: Limits,
    gate: &G,
) -> Result<(Vec<Piece<A>, A>, Vec<(u64, u64), A>), NoMemory>
    requires start { IsStart start.now }
    requires fits { All Fits parts.now.ops }
    requires limits { AreLimits limits }
    ensures { IfOk result (λ left. AreLeft (contents_of start.now) parts.now (lists_of left.0.items) left.1.items) }
{
    let workers = busy_workers(alloc, parts)?;
    let used = keys_for(alloc, parts, &workers)?;
    let cards = cards_to_reserve(ops, workers.len(), limits);
    let (tree, pass) = reserve(alloc, start, &used, cards)?;
    let worked = work_apart(rt, alloc, &tree, pass, &used, parts, limits.tries, gate);
    let (pass, pieces) = match worked {
        Ok(done) => done,
        Err(fault) => return Err(only_memory(fault, WorkFault::NoMemory)),
    };
    match tree.close(pass) {
        Ok(pairs) => Ok((pieces, pairs)),
        Err(_) => Err(NoMemory),
    }
}

// A tree that begins with the map of `start`, and a pass with its keys and these used ones.
fn reserve<A: Allocator + Copy>(
    alloc: A,
    start: &[(u64, u64)],
    used: &[u64],
    cards: u64,
) -> Result<(Tree<A>, Pass<A>), NoMemory>
    requires start { IsStart start.now }
    requires used_ascending { IsStrictlyIncreasing used.now }
    requires used_real { All (λ key. key ≤ greatest_key) used.now }
    requires cards { IsAllowed most_cards cards }
    ensures tree { IfOk result (λ made. IsUnsharedFrom start.now made.0) }
    ensures pass { IfOk result (λ made. IsFirst made.0 made.1) }
    ensures owned { IfOk result (λ made. All (λ key. Owns made.1 key) used.now) }
{
    let keys = all_keys(alloc, start, used)?;
    match Tree::reserve_from(alloc, start, &keys, cards) {
        Ok(made) => Ok(made),
        Err(fault) => Err(only_memory(fault, CardFault::NoMemory)),
    }
}

// The keys of the map of `start` and these used ones, ascending.
fn all_keys<A: Allocator + Copy>(
    alloc: A,
    start: &[(u64, u64)],
    used: &[u64],
) -> Result<Vec<u64, A>, NoMemory>
    requires ascending { IsStrictlyIncreasing (keys_in start.now) }
    requires used_ascending { IsStrictlyIncreasing used.now }
    ensures { IfOk result (λ keys. Lists (union (set_of (keys_in start.now)) (set_of used.now)) keys.items) }
{
    if start.is_empty() {
        return Ok(Vec::from_slice(alloc, used)?);
    }
    let there = start_keys(alloc, start)?;
    Ok(united_keys(alloc, &there, used)?)
}

// The keys of pairs, in their order.
fn start_keys<A: Allocator + Copy>(alloc: A, start: &[(u64, u64)]) -> Result<Vec<u64, A>, NoMemory>
    ensures { IfOk result (λ keys. keys.items ≡ keys_in start.now) }
{
    Ok(start.iter().map(|pair| pair.0).collect(alloc)?)
}

// Does what the workers left, and gathers all replies.
fn finish<A: Allocator + Copy>(
    alloc: A,
    ops: &[Op],
    parts: &Parts<'_, A>,
    mut pieces: Vec<Piece<A>, A>,
    pairs: Vec<(u64, u64), A>,
) -> Result<Outcome<A>, NoMemory>
    requires parted { parts.now.ops ≡ ops.now }
    requires left { (start : Contents) × AreLeft start parts.now (lists_of pieces.items) pairs.items }
    // Replies and pairs are those of one thread from any map from which the workers left what they did.
    ensures outcome { (start : Contents) → AreLeft start parts.now (lists_of pieces.items) pairs.items →
        IfOk result (IsOutcome start ops.now parts.now) }
    // `late` is how many operations the workers' pieces do not answer.
    ensures count { IfOk result (λ outcome.
        outcome.late ≡ length (late_ops parts.now.ops (flat_map (λ piece. piece.items) pieces.items))) }
{
    let late = late_ops(alloc, ops, parts, &pieces)?;
    let (piece, pairs) = do_late(alloc, pairs, &late)?;
    pieces.push(piece)?;
    let replies = match gather(alloc, parts.len(), &pieces) {
        Ok(replies) => replies,
        Err(fault) => return Err(only_memory(fault, GatherFault::NoMemory)),
    };
    Ok(Outcome {
        replies,
        pairs,
        late: late.len(),
    })
}
