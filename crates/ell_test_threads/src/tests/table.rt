//! Safe epochs of a table of cards.
ghost use Rattle.std.specs.Prelude.{◌≡◌, ◌≤◌};
ghost use Rattle.ell_runs.specs.Views.{IsFree};
ghost use Rattle.ell_runs.specs.Starts.{most_announcements};

use ell_cards::{CardTable, FixedMemory, NoGate, Pass, TreeKind};
use std::alloc::Global;
use std::process::Abort;

// Three start keys.
const START: [(u64, u64); 3] = [(2, 200), (4, 400), (6, 600)];

// The pass that two are joined to.
fn joined(
    rt: &impl Abort,
    table: &CardTable<FixedMemory<Global>>,
    left: Pass<FixedMemory<Global>>,
    right: Pass<FixedMemory<Global>>,
) -> Pass<FixedMemory<Global>>
    requires left { (left.table ≡ table.now.id) × IsFree left.view }
    requires right { (right.table ≡ table.now.id) × IsFree right.view }
    ensures { (result.table ≡ table.now.id) × IsFree result.view }
{
    table.join(left, right).ok().expect(rt, "memory")
}

// Two parts of a pass, which has nothing in hand and owns no key.
fn parted(
    rt: &impl Abort,
    table: &CardTable<FixedMemory<Global>>,
    pass: Pass<FixedMemory<Global>>,
) -> (Pass<FixedMemory<Global>>, Pass<FixedMemory<Global>>)
    requires { (pass.table ≡ table.now.id) × IsFree pass.view }
    ensures left { (result.0.table ≡ table.now.id) × IsFree result.0.view }
    ensures right { (result.1.table ≡ table.now.id) × IsFree result.1.view }
{
    table.split(pass, &[]).ok().expect(rt, "a place")
}

// A table whose cards come back, for this many passes, and its first pass.
fn reusing(
    rt: &(impl Abort + AllocGlobal),
    announcements: u64,
) -> (CardTable<FixedMemory<Global>>, Pass<FixedMemory<Global>>)
    requires { (1 ≤ announcements) × (announcements ≤ most_announcements) }
    ensures { (result.1.table ≡ result.0.id) × IsFree result.1.view }
{
    CardTable::reserve(rt.alloc(), TreeKind::Reusing(announcements), &START, &[], 1).expect(
        rt, "table",
    )
}

#[test]
fn a_look_that_goes_on_holds_safe_epochs_down(rt: HostRuntime) {
    let (table, pass) = reusing(&rt, 3);
    let (mut one, mut two) = parted(&rt, &table, pass);
    let steps = table.told_to(&NoGate);
    assert!(rt; table.safe_epoch(&mut one) == 2);
    assert!(rt; steps.look(&mut two).node == 4);
    assert!(rt; table.safe_epoch(&mut one) == 2 && table.safe_epoch(&mut two) == 2);
    steps.end_look(&mut two);
    assert!(rt; table.safe_epoch(&mut one) == 5);
    assert!(rt; steps.look(&mut two).node == 4);
    let mut both = joined(&rt, &table, one, two);
    assert!(rt; table.safe_epoch(&mut both) == 6);
}
