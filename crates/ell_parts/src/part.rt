//! The part of one worker.
ghost use Rattle.std.specs.Prelude.{◌≡◌, ◌<◌, List, IfOk, Ok, length, map};
ghost use denote.Param.Send.{Frees, IsSend, IsSync};
ghost use Rattle.ell_ops.specs.declared.op.Op.{Op};
ghost use Rattle.ell_order.specs.Orders.{is_reordered};
ghost use Rattle.ell_parts.specs.Made.{AreParts, IsPartOf, positions_in};
ghost use Rattle.ell_parts.specs.PartedOps.{IsWorkerCount, dealt};

use ell_ops::{NoMemory, Op};
use ell_order::{Part, in_rounds, in_turn, is_reordered};
use std::alloc::Allocator;
use std::thread::{Threads, map_indices};

// The fewest operations of a long list, whose parts take longer to make than threads take to begin.
const LONG: usize = 16_384;

// The part of each worker, in the order in which it is run. Those of a long list are each made by a thread of its own, if
// one can be created.
pub(crate) fn parts_to_run<R: Threads + Sync, A: Allocator + Copy + Send + Sync>(
    rt: &R,
    alloc: A,
    ops: &[Op],
    owners: &[u32],
    workers: u32,
) -> Result<Vec<Part<A>, A>, NoMemory>
    requires count { IsWorkerCount workers }
    requires each { length owners.now ≡ length ops.now }
    ensures { IfOk result (λ parts. AreParts (is_reordered ops.now) ops.now owners.now workers parts.items) }
{
    let rounds = is_reordered(ops);
    if ops.len() < LONG {
        return parts_in_turn(alloc, ops, owners, workers, rounds);
    }
    parts_in_threads(rt, alloc, ops, owners, workers, rounds)
}

// The part of each worker: in rounds, or else in the order of the list.
pub(crate) fn parts_in_turn<A: Allocator + Copy>(
    alloc: A,
    ops: &[Op],
    owners: &[u32],
    workers: u32,
    rounds: bool,
) -> Result<Vec<Part<A>, A>, NoMemory>
    requires { length owners.now ≡ length ops.now }
    ensures { IfOk result (λ parts. AreParts rounds ops.now owners.now workers parts.items) }
{
    let mut parts = Vec::with_capacity(alloc, workers as usize)?;
    for worker in 0..workers {
        parts.push(part_of(alloc, ops, owners, worker, rounds)?)?;
    }
    Ok(parts)
}

// The same, each part made by a thread of its own, if one can be created.
fn parts_in_threads<R: Threads + Sync, A: Allocator + Copy + Send + Sync>(
    rt: &R,
    alloc: A,
    ops: &[Op],
    owners: &[u32],
    workers: u32,
    rounds: bool,
) -> Result<Vec<Part<A>, A>, NoMemory>
    requires count { IsWorkerCount workers }
    requires each { length owners.now ≡ length ops.now }
    ensures { IfOk result (λ parts. AreParts rounds ops.now owners.now workers parts.items) }
{
    let make = |worker: usize| -> Result<Part<A>, NoMemory>
        requires { (worker < 64) × (length owners.now ≡ length ops.now) }
        ensures { IfOk result (IsPartOf rounds ops.entry.now owners.entry.now worker) }
    { part_of(alloc, ops, owners, worker as u32, rounds) };
    let made = map_indices(rt, alloc, workers as usize, &make)?;
    all_made(alloc, made)
}

// Parts that were made, unless one was not.
fn all_made<A: Allocator + Copy>(
    alloc: A,
    made: Vec<Result<Part<A>, NoMemory>, A>,
) -> Result<Vec<Part<A>, A>, NoMemory>
    ensures { IfOk result (λ parts. map Ok parts.items ≡ made.items) }
{
    let mut parts = Vec::with_capacity(alloc, made.len())?;
    for part in made {
        parts.push(part?)?;
    }
    Ok(parts)
}

// The part of a worker of a list: in rounds, or else in the order of the list.
pub(crate) fn part_of<A: Allocator + Copy>(
    alloc: A,
    ops: &[Op],
    owners: &[u32],
    worker: u32,
    rounds: bool,
) -> Result<Part<A>, NoMemory>
    requires { length owners.now ≡ length ops.now }
    ensures { IfOk result (IsPartOf rounds ops.now owners.now worker) }
{
    let positions = positions_of(alloc, owners, worker)?;
    if rounds {
        in_rounds(alloc, ops, &positions)
    } else {
        in_turn(alloc, ops, &positions)
    }
}

// The positions of a worker's operations, ascending.
fn positions_of<A: Allocator>(
    alloc: A,
    owners: &[u32],
    worker: u32,
) -> Result<Vec<usize, A>, NoMemory>
    ensures { (ops : List Op) → length owners.now ≡ length ops →
        IfOk result (λ positions. positions.items ≡ positions_in (dealt ops owners.now worker)) }
{
    let mut positions = Vec::with_capacity(alloc, count_of(owners, worker))?;
    for (at, owner) in owners.iter().enumerate() {
        if *owner == worker {
            positions.push(at)?;
        }
    }
    Ok(positions)
}

// How many operations a worker has.
fn count_of(owners: &[u32], worker: u32) -> usize {
    owners.iter().filter(|owner| **owner == worker).count()
}
