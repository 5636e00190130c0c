//! How many cards a run reserves.
ghost use Rattle.std.specs.Prelude.{◌≡◌, ◌<◌, ◌-◌, ◌^◌, All, IfOk, count_by, map, max, min, sum_by};
ghost use denote.Param.Send.{Frees, IsSend, IsSync};
ghost use Rattle.std.specs.List.Sorted.{IsStrictlyIncreasing};
ghost use Rattle.std.specs.Map.{keys_of};
ghost use Rattle.ell_ops.specs.Contents.{contents_of, keys_in};
ghost use Rattle.ell_parts.specs.PartedOps.{IsPartedToRun, part};
ghost use Rattle.ell_word.specs.Node.{most_cards};
ghost use Rattle.ell_run.specs.Limits.{AreLimits};
ghost use Rattle.ell_run.specs.Reservation.{HasRounds, cards_by_default, counts_in, is_change, known_keys, may_change, most_changes, most_taken, there_after};
ghost use Rattle.ell_run.specs.Settings.{IsAllowed};

use crate::runs::Limits;
use ell_ops::{NoMemory, Op};
use ell_order::is_reordered;
use ell_parts::Parts;
use ell_word::CARDS_MAX;
use std::alloc::Allocator;
use std::thread::{Threads, map_indices};

// The fewest operations of a long list, whose parts take longer to count than threads take to begin.
const LONG: usize = 16_384;

// The cards for a list of operations and its parts, if no number of cards is given: one for each operation that may
// change the map, those for tries that are lost, and 64. Tries are lost to others on the same keys or next to them, so
// the fewer changes a key has, the fewer are lost.
pub(crate) fn cards_by_default<R: Threads + Sync, A: Allocator + Copy + Send + Sync>(
    rt: &R,
    alloc: A,
    start: &[(u64, u64)],
    ops: &[Op],
    parts: &Parts<'_, A>,
) -> Result<u64, NoMemory>
    requires start { IsStrictlyIncreasing (keys_of start.now) }
    requires parted { IsPartedToRun ops.now parts.now.owners parts.now.workers parts.now }
    ensures value { IfOk result (λ cards. cards ≡ cards_by_default start.now ops.now parts.now) }
    ensures allowed { IfOk result (IsAllowed most_cards) }
{
    let (changes, keys) = counts_of_list(rt, alloc, start, ops, parts)?;
    let changes = changes.min(CARDS_MAX);
    let lost = changes / (keys / 256).max(8);
    Ok((changes + lost + 64).min(CARDS_MAX))
}

// How many operations of a list may change the map, and how many keys it has, if it is reordered.
fn counts_of_list<R: Threads + Sync, A: Allocator + Copy + Send + Sync>(
    rt: &R,
    alloc: A,
    start: &[(u64, u64)],
    ops: &[Op],
    parts: &Parts<'_, A>,
) -> Result<(u64, u64), NoMemory>
    requires start { IsStrictlyIncreasing (keys_of start.now) }
    requires parted { IsPartedToRun ops.now parts.now.owners parts.now.workers parts.now }
    ensures changes { IfOk result (λ counts. counts.0 ≡ min (2 ^ 64 - 1) (most_changes start.now ops.now parts.now)) }
    ensures keys { IfOk result (λ counts. counts.1 ≡ min (2 ^ 64 - 1) (known_keys ops.now parts.now)) }
{
    if !is_reordered(ops) {
        return Ok((count_changes(ops), 0));
    }
    let counts = counts_of_parts(rt, alloc, start, parts)?;
    Ok(sums(&counts))
}

// The counts of each part in rounds. Those of a long list are each counted by a thread of its own, if one can be
// created.
fn counts_of_parts<R: Threads + Sync, A: Allocator + Copy + Send + Sync>(
    rt: &R,
    alloc: A,
    start: &[(u64, u64)],
    parts: &Parts<'_, A>,
) -> Result<Vec<(u64, u64), A>, NoMemory>
    requires start { IsStrictlyIncreasing (keys_of start.now) }
    requires rounds { All HasRounds parts.now.parts }
    ensures { IfOk result (λ counts. counts.items ≡ map (counts_in (contents_of start.now)) parts.now.parts) }
{
    if parts.len() < LONG {
        return counts_in_turn(alloc, start, parts);
    }
    counts_in_threads(rt, alloc, start, parts)
}

fn counts_in_turn<A: Allocator + Copy>(
    alloc: A,
    start: &[(u64, u64)],
    parts: &Parts<'_, A>,
) -> Result<Vec<(u64, u64), A>, NoMemory>
    requires start { IsStrictlyIncreasing (keys_of start.now) }
    requires rounds { All HasRounds parts.now.parts }
    ensures { IfOk result (λ counts. counts.items ≡ map (counts_in (contents_of start.now)) parts.now.parts) }
{
    let mut counts = Vec::with_capacity(alloc, parts.workers() as usize)?;
    for worker in 0..parts.workers() {
        counts.push(counts_in(start, parts.part(worker)))?;
    }
    Ok(counts)
}

fn counts_in_threads<R: Threads + Sync, A: Allocator + Copy + Send + Sync>(
    rt: &R,
    alloc: A,
    start: &[(u64, u64)],
    parts: &Parts<'_, A>,
) -> Result<Vec<(u64, u64), A>, NoMemory>
    requires start { IsStrictlyIncreasing (keys_of start.now) }
    requires rounds { All HasRounds parts.now.parts }
    ensures { IfOk result (λ counts. counts.items ≡ map (counts_in (contents_of start.now)) parts.now.parts) }
{
    let count = |worker: usize| -> (u64, u64)
        requires { (worker < 64) × (worker < parts.now.workers) × HasRounds (part parts.now worker)
            × IsStrictlyIncreasing (keys_of start.now) }
        ensures { result ≡ counts_in (contents_of start.entry.now) (part parts.entry.now worker) }
    { counts_in(start, parts.part(worker as u32)) };
    Ok(map_indices(rt, alloc, parts.workers() as usize, &count)?)
}

// The sums of the counts of parts, as far as these fit.
fn sums(counts: &[(u64, u64)]) -> (u64, u64)
    ensures changes { result.0 ≡ min (2 ^ 64 - 1) (sum_by (λ count. count.0) counts.now) }
    ensures keys { result.1 ≡ min (2 ^ 64 - 1) (sum_by (λ count. count.1) counts.now) }
{
    let mut changes: u64 = 0;
    let mut keys: u64 = 0;
    for count in counts {
        changes = changes.saturating_add(count.0);
        keys = keys.saturating_add(count.1);
    }
    (changes, keys)
}

// How many operations of a part in rounds may change the map, and how many keys it has. Those on a key stand side by
// side, so each goes by the one before it, and the first by whether the key is there at the start.
fn counts_in(start: &[(u64, u64)], part: &[(usize, Op)]) -> (u64, u64)
    requires start { IsStrictlyIncreasing (keys_of start.now) }
    requires rounds { HasRounds part.now }
    ensures { result ≡ counts_in (contents_of start.now) part.now }
{
    let mut last = None;
    let mut there = false;
    let mut changes: u64 = 0;
    let mut keys: u64 = 0;
    for (_, op) in part {
        if last != Some(op.key()) {
            there = is_there(start, op.key());
            keys = keys.saturating_add(1);
        }
        changes = changes.saturating_add(u64::from(may_change(*op, there)));
        last = Some(op.key());
        there = there_after(*op, there);
    }
    (changes, keys)
}

// Whether a key is one of start keys, which ascend.
fn is_there(start: &[(u64, u64)], key: u64) -> bool
    requires { IsStrictlyIncreasing (keys_of start.now) }
    ensures { result ≡ keys_in (contents_of start.now) key }
{
    start.binary_search_by(|pair| pair.0.cmp(&key)).is_ok()
}

// Whether an operation may change the map, by whether its key is there.
fn may_change(op: Op, there: bool) -> bool
    ensures { result ≡ may_change op there }
{
    match op {
        Op::Find(_) => false,
        Op::Insert(_, _) => !there,
        Op::Delete(_) | Op::Swap(_, _, _) => there,
    }
}

// Whether the key of an operation is there after it.
fn there_after(op: Op, there: bool) -> bool
    ensures { result ≡ there_after op there }
{
    match op {
        Op::Find(_) | Op::Swap(_, _, _) => there,
        Op::Insert(_, _) => true,
        Op::Delete(_) => false,
    }
}

// The cards to reserve if this many workers are busy: those asked for, but no more than the operations can take, and at
// least the one that a tree must have. An insert, a delete or a swap takes at most one at each try, and if only one
// worker is busy, nothing is in the way of its first try.
pub(crate) fn cards_to_reserve(ops: &[Op], busy: usize, limits: Limits) -> u64
    requires { AreLimits limits }
    // Returns the cards asked for, but no more than the operations can take, and at least one.
    ensures value { result ≡ min limits.cards (max 1 (most_taken ops.now busy limits.tries)) }
    ensures allowed { IsAllowed most_cards result }
{
    let tries = if busy < 2 { 1 } else { u64::from(limits.tries) };
    let most = count_changes(ops).saturating_mul(tries);
    limits.cards.min(most.max(1))
}

// How many operations are inserts, deletes or swaps. A sum has no branch that the processor could guess wrong.
fn count_changes(ops: &[Op]) -> u64
    ensures { result ≡ count_by is_change ops.now }
{
    ops.iter().map(|op| u64::from(is_change(*op))).sum()
}

fn is_change(op: Op) -> bool
    ensures { result ≡ is_change op }
{
    !matches!(op, Op::Find(_))
}
