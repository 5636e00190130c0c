//! A list of operations, parted among workers.
ghost use Rattle.std.specs.Prelude.{◌≡◌, ◌<◌, ◌↔◌, length, IfOk, IfErr, IsTrue};
ghost use Rattle.ell_ops.specs.KeySet.{Lists};
ghost use Rattle.ell_order.specs.Orders.{keys_of_part};
ghost use Rattle.ell_parts.specs.PartedOps.{IsLawful, IsPartedBy, IsPartedToRun, IsRanged, part, parted, striped};
ghost use Rattle.ell_parts.specs.Faults.{IsFault, IsRefusedByCount};

use crate::fault::PartFault;
use crate::keys::keys_of_list;
use crate::owners::{is_worker_count, keep_together, ranged_owners, striped_owners};
use crate::part::{parts_in_turn, parts_to_run};
use ell_ops::{NoMemory, Op};
use ell_order::Part;
use std::alloc::Allocator;
use std::marker::Model;
use std::thread::Threads;

/// A list of operations, which is borrowed, and the worker of each position: equal keys have one worker. Each worker's
/// operations stand together, with their positions in the list, each key's in the order of the list, and so do its
/// keys.
#[derive(Drop)]
pub struct Parts<'a, A: Allocator> {
    ops: &'a [Op],
    owners: Vec<u32, A>,
    parts: Vec<Part<A>, A>,
}

impl<'a, A: Allocator> Model for Parts<'a, A> {
    ghost use Rattle.std.specs.Prelude.{All};
    ghost use Rattle.ell_parts.specs.PartedOps.{PartedOps, IsLawful, made};
    ghost use Rattle.ell_order.specs.Orders.{HasItsKeys};
    ghost use Rattle.ell_parts.specs.Made.{items_of};

    ghost Value = { PartedOps };

    ghost view = { λ p. made p.ops.now p.owners.items (items_of p.parts.items) };

    ghost invariant = { λ p. IsLawful (made p.ops.now p.owners.items (items_of p.parts.items)) × All HasItsKeys p.parts.items };
}

impl<A: Allocator> Parts<'_, A> {
    /// Returns the number of workers.
    pub fn workers(&self) -> u32
        // Returns the number of workers, 1 to 64. Each position has one of them, and each key is with one.
        ensures value { result ≡ self.now.workers }
        ensures lawful { IsLawful self.now }
    {
        self.parts.len() as u32
    }

    /// Returns the number of operations.
    pub fn len(&self) -> usize
        // Returns the number of operations. Each has one of the workers, and each key is with one.
        ensures value { result ≡ length self.now.ops }
        ensures lawful { IsLawful self.now }
    {
        self.ops.len()
    }

    /// Returns `true` if there are no operations.
    pub fn is_empty(&self) -> bool
        // Returns `true` exactly if there are no operations.
        ensures { IsTrue result ↔ (length self.now.ops ≡ 0) }
    {
        self.len() == 0
    }

    /// Returns the operations of a worker, with their positions in the list, each key's in the order of the list.
    pub fn part(&self, worker: u32) -> &[(usize, Op)]
        requires { worker < self.now.workers }
        // Returns the worker's operations with their positions, each key's in the order of the list.
        ensures { result.now ≡ part self.now worker }
    {
        &self.parts[worker as usize].items
    }

    /// Returns the keys of a worker's operations, strictly ascending.
    pub fn keys(&self, worker: u32) -> &[u64]
        requires { worker < self.now.workers }
        // Returns the keys of the worker's part, each once, strictly ascending.
        ensures { Lists (keys_of_part (part self.now worker)) result.now }
    {
        &self.parts[worker as usize].keys
    }
}

impl<'a, A: Allocator + Copy> Parts<'a, A> {
    /// Gives each position the worker that `owners` has there. The fault is the first of [`PartFault`] that applies.
    pub fn by_owner(
        alloc: A,
        ops: &'a [Op],
        owners: &[u32],
        workers: u32,
    ) -> Result<Parts<'a, A>, PartFault>
        // Each position has the worker that was given for it, and each key is with one worker.
        ensures ok { IfOk result (IsPartedBy ops.now owners.now workers) }
        // A fault is the first one: of the number of workers, of the number of owners, of an owner that is not a
        // worker, or of a key with two workers.
        ensures fault { IfErr result (IsFault ops.now owners.now workers) }
    {
        if !is_worker_count(workers) {
            return Err(PartFault::BadWorkers);
        }
        if owners.len() != ops.len() {
            return Err(PartFault::OwnerCount);
        }
        if let Some(at) = owners.iter().position(|owner| *owner >= workers) {
            return Err(PartFault::StrangerOwner { at });
        }
        keep_together(alloc, ops, owners)?;
        let owners = Vec::from_slice(alloc, owners)?;
        Ok(Parts::of(alloc, ops, owners, workers)?)
    }

    /// Gives each key to the worker whose number is the key's remainder by the number of workers. The faults are
    /// `BadWorkers` and `NoMemory`.
    pub fn striped(alloc: A, ops: &'a [Op], workers: u32) -> Result<Parts<'a, A>, PartFault>
        // Each operation has the worker whose number is the remainder of its key by the number of workers.
        ensures ok { IfOk result (IsPartedBy ops.now (striped ops.now workers) workers) }
        // `BadWorkers` is returned exactly if the number of workers is not 1 to 64; the only other fault is `NoMemory`.
        ensures refused { IsRefusedByCount workers result }
    {
        if !is_worker_count(workers) {
            return Err(PartFault::BadWorkers);
        }
        let owners = striped_owners(alloc, ops, workers)?;
        Ok(Parts::of(alloc, ops, owners, workers)?)
    }

    /// Gives the workers the distinct keys in ascending order, each the next run of them: of `n` keys a run has
    /// `n / workers`, rounded up, so the last runs may be short or empty. The faults are `BadWorkers` and `NoMemory`.
    pub fn ranged(alloc: A, ops: &'a [Op], workers: u32) -> Result<Parts<'a, A>, PartFault>
        // Each position has one of the workers, and each key is with one.
        ensures ok { IfOk result (λ parts. IsPartedBy ops.now parts.owners workers parts) }
        // Of the distinct keys in ascending order, each worker has the next ones: their number divided by the number of
        // workers, rounded up.
        ensures ranged { IfOk result IsRanged }
        // `BadWorkers` is returned exactly if the number of workers is not 1 to 64; the only other fault is `NoMemory`.
        ensures refused { IsRefusedByCount workers result }
    {
        if !is_worker_count(workers) {
            return Err(PartFault::BadWorkers);
        }
        let keys = keys_of_list(alloc, ops)?;
        let owners = ranged_owners(alloc, ops, &keys, workers)?;
        Ok(Parts::of(alloc, ops, owners, workers)?)
    }

    // The parting of a list by owners that are lawful: each part in the order of the list.
    fn of(
        alloc: A,
        ops: &'a [Op],
        owners: Vec<u32, A>,
        workers: u32,
    ) -> Result<Parts<'a, A>, NoMemory>
        requires { IsLawful (parted ops.now owners.items workers) }
        ensures { IfOk result (λ parts. parts ≡ parted ops.now owners.items workers) }
    {
        let parts = parts_in_turn(alloc, ops, &owners, workers, false)?;
        Ok(Parts { ops, owners, parts })
    }
}

impl<'a, A: Allocator + Copy + Send + Sync> Parts<'a, A> {
    /// The same as [`Parts::striped`], but each part is in the order in which it is run: in rounds, if the list is
    /// reordered (`ell_order`). The parts of a long list are each made by a thread of its own, if one can be created.
    pub fn striped_to_run<R: Threads + Sync>(
        rt: &R,
        alloc: A,
        ops: &'a [Op],
        workers: u32,
    ) -> Result<Parts<'a, A>, PartFault>
        // Each operation has the worker whose number is the remainder of its key by the number of workers. Each part is
        // in rounds if the list is reordered, else in the order of the list.
        ensures ok { IfOk result (IsPartedToRun ops.now (striped ops.now workers) workers) }
        // `BadWorkers` is returned exactly if the number of workers is not 1 to 64; the only other fault is `NoMemory`.
        ensures refused { IsRefusedByCount workers result }
    {
        if !is_worker_count(workers) {
            return Err(PartFault::BadWorkers);
        }
        let stripes = striped_owners(alloc, ops, workers)?;
        Ok(Parts::to_run(rt, alloc, ops, stripes, workers)?)
    }

    /// The same as [`Parts::ranged`], but each part is in the order in which it is run: in rounds, if the list is
    /// reordered (`ell_order`). The parts of a long list are each made by a thread of its own, if one can be created.
    pub fn ranged_to_run<R: Threads + Sync>(
        rt: &R,
        alloc: A,
        ops: &'a [Op],
        workers: u32,
    ) -> Result<Parts<'a, A>, PartFault>
        // Each position has one of the workers, and each key is with one. Each part is in rounds if the list is
        // reordered, else in the order of the list.
        ensures ok { IfOk result (λ parts. IsPartedToRun ops.now parts.owners workers parts) }
        // Of the distinct keys in ascending order, each worker has the next ones: their number divided by the number of
        // workers, rounded up.
        ensures ranged { IfOk result IsRanged }
        // `BadWorkers` is returned exactly if the number of workers is not 1 to 64; the only other fault is `NoMemory`.
        ensures refused { IsRefusedByCount workers result }
    {
        if !is_worker_count(workers) {
            return Err(PartFault::BadWorkers);
        }
        let keys = keys_of_list(alloc, ops)?;
        let ranges = ranged_owners(alloc, ops, &keys, workers)?;
        Ok(Parts::to_run(rt, alloc, ops, ranges, workers)?)
    }

    // The parting of a list by owners that are lawful: each part in the order in which it is run.
    fn to_run<R: Threads + Sync>(
        rt: &R,
        alloc: A,
        ops: &'a [Op],
        owners: Vec<u32, A>,
        workers: u32,
    ) -> Result<Parts<'a, A>, NoMemory>
        requires { IsLawful (parted ops.now owners.items workers) }
        ensures { IfOk result (IsPartedToRun ops.now owners.items workers) }
    {
        let parts = parts_to_run(rt, alloc, ops, &owners, workers)?;
        Ok(Parts { ops, owners, parts })
    }
}
