//! Runs of operations, and whether they came to what one thread comes to.
ghost use Rattle.std.specs.Prelude.{◌≡◌};
ghost use Rattle.std.specs.List.Sorted.{IsStrictlyIncreasing};
ghost use Rattle.std.specs.Map.{keys_of};
ghost use Rattle.ell_run.specs.Limits.{AreLimits};

use ell_ops::{KEY_MAX, Op, apply_from};
use ell_parts::Parts;
use ell_run::{CARDS_MAX, Limits, Outcome, START_MAX, TRIES_MAX, run};
use ell_tree::StepGate;
use std::alloc::Global;
use std::process::Abort;
use std::thread::Threads;

// Limits of so many cards and tries, as many as there may be.
fn limits_of(rt: &impl Abort, cards: u64, tries: u32) -> Limits
    ensures { AreLimits result }
{
    assert!(rt; 1 <= cards && cards <= CARDS_MAX && 1 <= tries && tries <= TRIES_MAX);
    Limits { cards, tries }
}

/// Runs operations by a parting from start keys, with so many cards and tries: the outcome, whose replies and pairs are
/// those of one thread.
pub fn run_from<R: Threads + Abort + AllocGlobal + Sync, G: StepGate + Sync>(
    rt: &R,
    start: &[(u64, u64)],
    ops: &[Op],
    parts: &Parts<'_, Global>,
    limits: (u64, u32),
    gate: &G,
) -> Outcome
    requires ascending { IsStrictlyIncreasing (keys_of start.now) }
    requires parted { parts.now.ops ≡ ops.now }
{
    let limits = limits_of(rt, limits.0, limits.1);
    assert!(rt; start.len() <= START_MAX);
    assert!(rt; start.iter().map(|pair| pair.0).all(|key| key <= KEY_MAX));
    assert!(rt; ops.iter().all(|op| op.fits()));
    let outcome = run(rt, rt.alloc(), start, ops, parts, limits, gate).expect(rt, "memory");
    let (replies, pairs) = apply_from(rt.alloc(), start, ops).expect(rt, "memory");
    assert!(rt; outcome.replies == replies && outcome.pairs == pairs);
    outcome
}
