//! Workers that share one tree: each does its part with a pass of its own, in a thread of its own if one can be made.
ghost use Rattle.std.specs.Prelude.{◌≡◌, ◌<◌, ◌≤◌, ◌++◌, ℕ, List, All, IfErr, IfOk, length};
ghost use denote.Param.Send.{Frees, IsSend, IsSync};
ghost use Rattle.ell_ops.specs.KeySet.{Lists};
ghost use Rattle.ell_ops.specs.Meaning.{key_of};
ghost use Rattle.ell_parts.specs.PartedOps.{IsLawful, PartedOps, keys_of_ops};
ghost use Rattle.ell_tree.specs.Ledgers.{IsIdlePassOf, Owns, PassModel};
ghost use Rattle.ell_runs.specs.Plans.{TablePlan};
ghost use Rattle.ell_run.specs.Pieces.{busy, lists_of};
ghost use Rattle.ell_run.specs.WorkFault.{StopsWork};
ghost use Rattle.ell_run.specs.Work.{AllHaveWorked, AreHalves, AreReady, HaveWorked, IsWorkedWithin, keys_for, label_after};

use crate::faults::WorkFault;
use crate::pieces::{Piece, with_empty_pieces, work_off};
use ell_ops::{NoMemory, Op, united_keys};
use ell_parts::Parts;
use ell_tree::{Pass, StepGate, Tree};
use std::alloc::Allocator;
use std::thread::{Threads, join};

/// Has each worker work its part off with a pass of the tree, in a thread of its own if one can be made. A worker
/// leaves the rest of its part from the first operation on that is not done: something was in its way at each of its
/// tries, or all cards are given out. Returns the pass, with all its keys, and a piece for each worker, in their order:
/// its replies, with their positions. The pass then has the number of the first worker with operations as its label, or
/// its own label if there is none. After a fault the pass is gone; `TooManyPasses` is returned only for a tree that
/// shares keys, or whose cards lie in slots. However many tries there are, and however the workers' steps fall, a
/// worker with n operations makes at most `n * (7 * depth + 28) + 2 * cards * (7 * depth + 27)` steps, `cards` and
/// `depth` as for `Tree`, where each card has words of its own; the pass that comes back has counted no more than the
/// worker with the most operations may, and two for each busy worker other than the first. All workers together make at
/// most the sum of what each may, and two for each busy worker other than the first: its split and its join (`total`).
pub fn work<R: Threads + Sync, A: Allocator + Copy + Send + Sync, G: StepGate + Sync>(
    rt: &R,
    alloc: A,
    tree: &Tree<A>,
    pass: Pass<A>,
    parts: &Parts<'_, A>,
    tries: u32,
    gate: &G,
) -> Result<(Pass<A>, Vec<Piece<A>, A>), WorkFault>
    requires idle { IsIdlePassOf tree.now pass }
    requires owned { All (λ op. Owns pass (key_of op)) parts.now.ops }
    requires tries { 1 ≤ tries }
    // The pass that comes back has the same tree and keys, is idle, and has the map after a prefix of each worker's
    // part, to which the worker's piece has the replies. The next operation of each part was not done. In a row they
    // make at most the steps of the longest part, and two for each other busy worker; in all at most the sum of all
    // parts', and again two for each other busy worker.
    ensures worked { IfOk result (AllHaveWorked tree.now tries 0 parts.now pass) }
    // The label is the number of the first worker that has something to do, or as it was if none has.
    ensures label { IfOk result (λ done. done.0.label ≡ label_after pass (busy parts.now)) }
    // `TooManyPasses` is returned only if the tree shares keys, or its cards lie in slots.
    ensures why { IfErr result (StopsWork tree.now.plan pass) }
{
    let workers = busy_workers(alloc, parts)?;
    let (pass, pieces) = do_workers(rt, alloc, tree, pass, parts, &workers, tries, gate)?;
    Ok((pass, with_empty_pieces(alloc, parts, pieces)?))
}

// The same with a pass that may have other keys besides those of the operations, which are `keys`: the others stay in a
// pass that no worker uses, at the cost of one more split and join.
pub(crate) fn work_apart<R: Threads + Sync, A: Allocator + Copy + Send + Sync, G: StepGate + Sync>(
    rt: &R,
    alloc: A,
    tree: &Tree<A>,
    pass: Pass<A>,
    keys: &[u64],
    parts: &Parts<'_, A>,
    tries: u32,
    gate: &G,
) -> Result<(Pass<A>, Vec<Piece<A>, A>), WorkFault>
    requires idle { IsIdlePassOf tree.now pass }
    requires lawful { IsLawful parts.now }
    requires keys { Lists (keys_of_ops parts.now.ops) keys.now }
    requires owned { All (λ key. Owns pass key) keys.now }
    requires tries { 1 ≤ tries }
    // The pass and the pieces are as after `work`; each bound of steps is two more.
    ensures worked { IfOk result (AllHaveWorked tree.now tries 2 parts.now pass) }
    // `TooManyPasses` is returned only if the tree shares keys, or its cards lie in slots.
    ensures why { IfErr result (StopsWork tree.now.plan pass) }
{
    if pass.keys().len() == keys.len() {
        return work(rt, alloc, tree, pass, parts, tries, gate);
    }
    let (ours, others) = match tree.split(pass, keys) {
        Ok(parted) => parted,
        Err((_, fault)) => return Err(WorkFault::from(fault)),
    };
    let (ours, pieces) = work(rt, alloc, tree, ours, parts, tries, gate)?;
    match tree.join(ours, others) {
        Ok(pass) => Ok((pass, pieces)),
        Err(_) => Err(WorkFault::NoMemory),
    }
}

// The workers whose parts are not empty, ascending.
pub(crate) fn busy_workers<A: Allocator + Copy>(
    alloc: A,
    parts: &Parts<'_, A>,
) -> Result<Vec<u32, A>, NoMemory>
    ensures lawful { IsLawful parts.now }
    ensures busy { IfOk result (λ workers. workers.items ≡ busy parts.now) }
{
    let mut workers = Vec::new(alloc);
    for worker in 0..parts.workers() {
        if !parts.part(worker).is_empty() {
            workers.push(worker)?;
        }
    }
    Ok(workers)
}

// Has these workers do their parts: halves of them in two threads, each with a half of the pass, down to one worker per
// thread.
#[cycle(halves)]
fn do_workers<R: Threads + Sync, A: Allocator + Copy + Send + Sync, G: StepGate + Sync>(
    rt: &R,
    alloc: A,
    tree: &Tree<A>,
    pass: Pass<A>,
    parts: &Parts<'_, A>,
    workers: &[u32],
    tries: u32,
    gate: &G,
) -> Result<(Pass<A>, Vec<Piece<A>, A>), WorkFault>
    requires ready { AreReady tree.now parts.now workers.now pass }
    requires tries { 1 ≤ tries }
    ensures worked { IfOk result (HaveWorked tree.now tries parts.now workers.now pass) }
    ensures why { IfErr result (StopsWork tree.now.plan pass) }
{
    if workers.len() < 2 {
        return Ok(do_one(alloc, tree, pass, parts, workers, tries, gate)?);
    }
    let (low, high) = workers.split_at(workers.len() / 2);
    let (left, right) = halves(alloc, tree, pass, parts, low)?;
    let front = move || -> Result<(Pass<A>, Vec<Piece<A>, A>), WorkFault>
        requires { IsSync R.row × IsSync G.row × IsSend A.row × IsSync A.row × Frees A.Allocator A.dealloc_token
            × AreReady tree.now parts.now low.now left × (1 ≤ tries) }
        ensures worked { IfOk result (HaveWorked tree.entry.now tries parts.entry.now low.entry.now left) }
        ensures why { IfErr result (StopsWork tree.entry.now.plan left) }
    { do_workers(rt, alloc, tree, left, parts, low, tries, gate) };
    let back = move || -> Result<(Pass<A>, Vec<Piece<A>, A>), WorkFault>
        requires { IsSync R.row × IsSync G.row × IsSend A.row × IsSync A.row × Frees A.Allocator A.dealloc_token
            × AreReady tree.now parts.now high.now right × (1 ≤ tries) }
        ensures worked { IfOk result (HaveWorked tree.entry.now tries parts.entry.now high.entry.now right) }
        ensures why { IfErr result (StopsWork tree.entry.now.plan right) }
    { do_workers(rt, alloc, tree, right, parts, high, tries, gate) };
    let (first, second) = join(rt, front, back);
    Ok(both(tree, first?, second?)?)
}

// Has one worker do its part, if there is one, in this thread.
fn do_one<A: Allocator + Copy, G: StepGate>(
    alloc: A,
    tree: &Tree<A>,
    mut pass: Pass<A>,
    parts: &Parts<'_, A>,
    workers: &[u32],
    tries: u32,
    gate: &G,
) -> Result<(Pass<A>, Vec<Piece<A>, A>), NoMemory>
    requires one { length workers.now ≤ 1 }
    requires ready { AreReady tree.now parts.now workers.now pass }
    requires tries { 1 ≤ tries }
    ensures { IfOk result (HaveWorked tree.now tries parts.now workers.now pass) }
{
    let mut pieces = Vec::new(alloc);
    let [worker] = workers else {
        return Ok((pass, pieces));
    };
    pass.relabel(*worker);
    let piece = work_off(alloc, tree, &mut pass, parts.part(*worker), tries, gate)?;
    pieces.push(piece)?;
    Ok((pass, pieces))
}

// Splits a pass between two rows of workers: the left part gets the keys of the first row, `low`, and the right part
// the rest.
fn halves<A: Allocator + Copy>(
    alloc: A,
    tree: &Tree<A>,
    pass: Pass<A>,
    parts: &Parts<'_, A>,
    low: &[u32],
) -> Result<(Pass<A>, Pass<A>), WorkFault>
    requires { (high : List ℕ) × AreReady tree.now parts.now (low.now ++ high) pass }
    ensures halves { IfOk result (λ parted. AreHalves parts.now low.now pass parted.0 parted.1) }
    ensures left { IfOk result (λ parted. AreReady tree.now parts.now low.now parted.0) }
    ensures right { (high : List ℕ) → AreReady tree.now parts.now (low.now ++ high) pass →
        IfOk result (λ parted. AreReady tree.now parts.now high parted.1) }
    ensures why { IfErr result (StopsWork tree.now.plan pass) }
{
    let keys = keys_for(alloc, parts, low)?;
    match tree.split(pass, &keys) {
        Ok(parted) => Ok(parted),
        Err((_, fault)) => Err(WorkFault::from(fault)),
    }
}

// The keys of the parts of workers, ascending.
pub(crate) fn keys_for<A: Allocator + Copy>(
    alloc: A,
    parts: &Parts<'_, A>,
    workers: &[u32],
) -> Result<Vec<u64, A>, NoMemory>
    requires { All (λ worker. worker < parts.now.workers) workers.now }
    ensures { IfOk result (λ keys. Lists (keys_for parts.now workers.now) keys.items) }
{
    match workers {
        [] => Ok(Vec::new(alloc)),
        [worker] => Ok(Vec::from_slice(alloc, parts.keys(*worker))?),
        _ => {
            let (low, high) = workers.split_at(workers.len() / 2);
            let left = keys_for(alloc, parts, low)?;
            let right = keys_for(alloc, parts, high)?;
            Ok(united_keys(alloc, &left, &right)?)
        }
    }
}

// Joins the two passes that have come back from two rows of workers into one, and returns it with the pieces of both
// rows.
fn both<A: Allocator + Copy>(
    tree: &Tree<A>,
    first: (Pass<A>, Vec<Piece<A>, A>),
    second: (Pass<A>, Vec<Piece<A>, A>),
) -> Result<(Pass<A>, Vec<Piece<A>, A>), NoMemory>
    requires left { IsIdlePassOf tree.now first.0 }
    requires right { IsIdlePassOf tree.now second.0 }
    ensures { (plan : TablePlan) (tries : ℕ) (parting : PartedOps) (low high : List ℕ) (pass left right : PassModel) →
        0 < length low → 0 < length high →
        AreReady tree.now parting (low ++ high) pass → AreHalves parting low pass left right →
        IsWorkedWithin plan tries parting low left first.0 (lists_of first.1.items) →
        IsWorkedWithin plan tries parting high right second.0 (lists_of second.1.items) →
        IfOk result (λ done. IsWorkedWithin plan tries parting (low ++ high) pass done.0 (lists_of done.1.items)) }
{
    let (left, mut pieces) = first;
    let (right, mut behind) = second;
    pieces.append(&mut behind)?;
    match tree.join(left, right) {
        Ok(pass) => Ok((pass, pieces)),
        Err(_) => Err(NoMemory),
    }
}
