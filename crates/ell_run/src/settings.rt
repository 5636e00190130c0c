//! How a bulk text is run, and what a run reports.
ghost use Rattle.std.specs.Prelude.{◌≡◌, IfOk, unwrap_or};
ghost use Rattle.std.specs.List.Sorted.{IsStrictlyIncreasing};
ghost use Rattle.std.specs.Map.{keys_of};
ghost use Rattle.ell_run.specs.Limits.{AreLimits};
ghost use Rattle.ell_run.specs.Reservation.{cards_by_default};
ghost use Rattle.ell_run.specs.Settings.{AreSettings, IsPartedAs};

use crate::faults::only_memory;
use crate::reservation::cards_by_default;
use crate::runs::Limits;
use ell_ops::{NoMemory, Op};
use ell_parts::{PartFault, Parts};
use std::alloc::Allocator;
use std::thread::Threads;

/// The greatest number of tries that an insert or a delete may have.
pub const TRIES_MAX: u32 = 1_000_000;

/// How keys are divided among workers.
#[derive(Clone, Copy, Debug, PartialEq, Eq)]
pub enum Parting {
    /// A key goes to the worker given by its remainder modulo the number of workers.
    Stripe,
    /// Each worker has the next keys in ascending order.
    Range,
}

/// How a bulk text is run.
#[derive(Clone, Copy, Debug, PartialEq, Eq)]
pub struct Settings {
    /// How many workers there are, 1 to `WORKERS_MAX`.
    pub workers: u32,
    pub parting: Parting,
    /// The cards of the tree, 1 to `CARDS_MAX`; if no number is given, one for each operation that may change the map,
    /// one for every 8 of them, or, on k keys, for every k / 256 if that is more, and 64.
    pub cards: Option<u64>,
    /// The tries that an insert or a delete has, 1 to `TRIES_MAX`.
    pub tries: u32,
}

/// What a run reports of itself.
#[derive(Clone, Copy, Debug, PartialEq, Eq)]
pub struct Report {
    /// How many operations were done after the workers had ended.
    pub late: usize,
}

/// The parting of the operations that the settings ask for: among their workers, in stripes or in ranges, each part in
/// the order in which it is run.
pub fn parts_for<'a, R: Threads + Sync, A: Allocator + Copy + Send + Sync>(
    rt: &R,
    alloc: A,
    ops: &'a [Op],
    settings: Settings,
) -> Result<Parts<'a, A>, NoMemory>
    requires { AreSettings settings }
    // The operations are parted among the workers that the settings ask for, in stripes or in ranges. Each part is in
    // rounds if the list is reordered, else in the order of the list.
    ensures { IfOk result (IsPartedAs settings ops.now) }
{
    let parts = match settings.parting {
        Parting::Stripe => Parts::striped_to_run(rt, alloc, ops, settings.workers),
        Parting::Range => Parts::ranged_to_run(rt, alloc, ops, settings.workers),
    };
    match parts {
        Ok(parts) => Ok(parts),
        Err(fault) => Err(only_memory(fault, PartFault::NoMemory)),
    }
}

// The limits that the settings ask for, for a list and its parts.
pub(crate) fn limits_for<R: Threads + Sync, A: Allocator + Copy + Send + Sync>(
    rt: &R,
    alloc: A,
    start: &[(u64, u64)],
    ops: &[Op],
    parts: &Parts<'_, A>,
    settings: Settings,
) -> Result<Limits, NoMemory>
    requires start { IsStrictlyIncreasing (keys_of start.now) }
    requires settings { AreSettings settings }
    requires parted { IsPartedAs settings ops.now parts.now }
    // Cards and tries are those of the settings. If these give no number of cards, it is that for the list.
    ensures limits { IfOk result AreLimits }
    ensures cards { IfOk result (λ limits.
        limits.cards ≡ unwrap_or settings.cards (cards_by_default start.now ops.now parts.now)) }
    ensures tries { IfOk result (λ limits. limits.tries ≡ settings.tries) }
{
    let cards = match settings.cards {
        Some(cards) => cards,
        None => cards_by_default(rt, alloc, start, ops, parts)?,
    };
    let tries = settings.tries;
    Ok(Limits { cards, tries })
}
