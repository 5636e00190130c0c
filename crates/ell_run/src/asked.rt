//! A list run as settings say.
ghost use Rattle.std.specs.Prelude.{◌≡◌, ◌≤◌, All, IfOk, length};
ghost use Rattle.ell_ops.specs.Contents.{contents_of};
ghost use Rattle.ell_ops.specs.Meaning.{Fits};
ghost use Rattle.ell_text.specs.Limits.{most_operations};
ghost use Rattle.ell_run.specs.Answered.{IsLateOf};
ghost use Rattle.ell_run.specs.Late.{IsOneThreads};
ghost use Rattle.ell_run.specs.Limits.{IsStart};
ghost use Rattle.ell_run.specs.Settings.{AreSettings, IsPartedAs};

use crate::runs::{Outcome, run};
use crate::settings::{Settings, limits_for, parts_for};
use ell_ops::{NoMemory, Op};
use ell_tree::StepGate;
use std::alloc::Allocator;
use std::thread::Threads;

// Runs a list from the map of `start` as the settings say. Returns its replies and the final keys with their values.
pub(crate) fn run_as_asked<
    R: Threads + Sync,
    A: Allocator + Copy + Send + Sync,
    G: StepGate + Sync,
>(
    rt: &R,
    alloc: A,
    start: &[(u64, u64)],
    ops: &[Op],
    settings: Settings,
    gate: &G,
) -> Result<Outcome<A>, NoMemory>
    requires start { IsStart start.now }
    requires fits { All Fits ops.now }
    requires few { length ops.now ≤ most_operations }
    requires settings { AreSettings settings }
    ensures answer { IfOk result (IsOneThreads (contents_of start.now) ops.now) }
    ensures late { IfOk result (λ outcome. IsLateOf settings (contents_of start.now) ops.now outcome.late) }
{
    let parts = parts_for(rt, alloc, ops, settings)?;
    let limits = limits_for(rt, alloc, start, ops, &parts, settings)?;
    run(rt, alloc, start, ops, &parts, limits, gate)
}
