//! The worker of each position of a list.
ghost use Rattle.std.specs.Prelude.{◌≡◌, ◌<◌, ◌↔◌, ◌%◌, IsTrue, length, vec_len, IfOk, IfErr, OnOk};
ghost use Rattle.std.specs.Int.{div_ceil};
ghost use Rattle.ell_ops.specs.KeySet.{Lists};
ghost use Rattle.ell_ops.specs.Meaning.{most_workers};
ghost use Rattle.ell_parts.specs.PartedOps.{IsWorkerCount, keys_of_ops, striped, ranged};
ghost use Rattle.ell_parts.specs.Ranges.{AreStarts};
ghost use Rattle.ell_parts.specs.Faults.{AreTogether, IsSplit};

use crate::fault::PartFault;
use ell_ops::{Op, WORKERS_MAX};
use std::alloc::{AllocError, Allocator};
use std::collections::BTreeMap;

// Returns `true` if there may be this many workers.
pub(crate) fn is_worker_count(workers: u32) -> bool
    ensures { IsTrue result ↔ IsWorkerCount workers }
{
    1 <= workers && workers <= WORKERS_MAX
}

// Checks that each key has one owner at all its positions. If not, the fault is the first split.
pub(crate) fn keep_together<A: Allocator + Copy>(
    alloc: A,
    ops: &[Op],
    owners: &[u32],
) -> Result<(), PartFault>
    requires { length owners.now ≡ length ops.now }
    ensures ok { OnOk result (AreTogether ops.now owners.now (length ops.now)) }
    ensures err { IfErr result (IsSplit ops.now owners.now) }
{
    let mut firsts = BTreeMap::new(alloc);
    for (second, op) in ops.iter().enumerate() {
        let first = *firsts.entry(op.key())?.or_insert(second);
        if owners[first] != owners[second] {
            return Err(PartFault::KeySplit { first, second });
        }
    }
    Ok(())
}

// The owners in stripes: a key goes to the worker whose number is its remainder by their number.
pub(crate) fn striped_owners<A: Allocator>(
    alloc: A,
    ops: &[Op],
    workers: u32,
) -> Result<Vec<u32, A>, AllocError>
    requires { IsWorkerCount workers }
    ensures { IfOk result (λ owners. owners.items ≡ striped ops.now workers) }
{
    let count = u64::from(workers);
    ops.iter()
        .map(|op| stripe_of(op.key(), count) as u32)
        .collect(alloc)
}

// The remainder of a key by a number of workers: if that is a power of two, the low bits, which take no division.
fn stripe_of(key: u64, count: u64) -> u64
    requires { 0 < count }
    ensures { result ≡ key % count }
{
    if count == 1 << count.ilog2() {
        key & (count - 1)
    } else {
        key % count
    }
}

// The owners in ranges, where `keys` are the distinct keys.
pub(crate) fn ranged_owners<A: Allocator + Copy>(
    alloc: A,
    ops: &[Op],
    keys: &[u64],
    workers: u32,
) -> Result<Vec<u32, A>, AllocError>
    requires count { IsWorkerCount workers }
    requires keys { Lists (keys_of_ops ops.now) keys.now }
    ensures { IfOk result (λ owners. owners.items ≡ ranged keys.now ops.now workers) }
{
    let starts = range_starts(alloc, keys, workers)?;
    let mut owners = Vec::with_capacity(alloc, ops.len())?;
    for op in ops {
        let key = op.key();
        let owner = starts.partition_point(|start| *start <= key);
        owners.push(owner as u32)?;
    }
    Ok(owners)
}

// The first keys of the workers' ranges, but for the first worker's.
fn range_starts<A: Allocator>(
    alloc: A,
    keys: &[u64],
    workers: u32,
) -> Result<Vec<u64, A>, AllocError>
    requires { IsWorkerCount workers }
    ensures starts { IfOk result (λ starts. AreStarts keys.now (div_ceil (length keys.now) workers) starts.items) }
    ensures few { IfOk result (λ starts. vec_len starts < most_workers) }
{
    let share = keys.len().div_ceil(workers as usize);
    let mut starts = Vec::new(alloc);
    for worker in 1..workers as usize {
        let start = worker * share;
        if start >= keys.len() {
            break;
        }
        starts.push(keys[start])?;
    }
    Ok(starts)
}
