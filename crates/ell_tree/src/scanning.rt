//! Scans: the keys of a range in order, and the next one above or below a key.
ghost use Rattle.std.specs.Prelude.{◌≡◌, ◌<◌, ◌≤◌, ◌+◌, IfSome, drop, length};
ghost use Rattle.ell_ops.specs.Contents.{contents_of};
ghost use Rattle.ell_ops.specs.Meaning.{greatest_key};
ghost use Rattle.ell_runs.specs.LookPlaces.{FindsHavePlaces, SawLookBegin};
ghost use Rattle.ell_tree.specs.Ledgers.{IsIdlePassOf};
ghost use Rattle.ell_tree.specs.Looks.{OnlyLooks};
ghost use Rattle.ell_tree.specs.Scans.{AreInOrder, HaveFound, HasFoundLast, HasFoundNext, TellsItsOwn, end_of, scan_steps, written};

use crate::cursor::Cursor;
use ell_cards::{Memory, Pass, StepGate, TableSteps};
use ell_ops::{KEY_MAX, Keyed};

/// A key with its value, in a memory layout that programs in C share.
#[repr(C)]
#[derive(Clone, Copy)]
pub struct Pair {
    pub key: u64,
    pub value: u64,
}

impl Keyed for Pair {
    ghost key_of = { λ pair. pair.key };

    fn key(&self) -> u64 {
        self.key
    }
}

/// How far a scan has come: how many pairs it has written, and where to continue if there was no room for more.
#[derive(Clone, Copy)]
pub struct Scanned {
    pub count: usize,
    pub next: Option<u64>,
}

/// Writes the pairs of a range of keys, at least one key and below another, ascending, as far as there is room.
pub(crate) fn scan<M: Memory, G: StepGate>(
    steps: TableSteps<M, G>,
    pass: &mut Pass<M>,
    from: u64,
    upto: u64,
    room: &mut [Pair],
) -> Scanned
    requires may { IsIdlePassOf steps.table.now pass.old }
    requires real { upto ≤ greatest_key + 1 }
    ensures found { HaveFound pass.new.view from (end_of upto result) (contents_of (written room.new result)) }
    ensures ordered { AreInOrder from (end_of upto result) (written room.new result) }
    ensures count { result.count ≤ length room.old }
    ensures next { IfSome result.next (λ next. (from ≤ next) × (next < upto) × (result.count ≡ length room.old)) }
    ensures rest { drop result.count room.new ≡ drop result.count room.old }
    ensures mine { TellsItsOwn pass.old from (end_of upto result) (contents_of (written room.new result)) }
    ensures one { pass.new.view.looks ≡ pass.old.view.looks + 1 }
    ensures only { OnlyLooks pass.old pass.new (scan_steps steps.entry.table.now.plan) }
    ensures saw { SawLookBegin pass.old.sight pass.new.sight }
    ensures places { from < end_of upto result →
        FindsHavePlaces steps.entry.table.now.plan pass.new.view pass.new.sight }
{
    let mut cursor = Cursor::begin(steps, pass);
    let mut at = from;
    let mut count = 0;
    while at < upto && count < room.len() {
        let about = cursor.about(steps, pass, at);
        if let Some((key, value)) = about.found
            && at <= key
            && key < upto
        {
            room[count] = Pair { key, value };
            count += 1;
        }
        at = about.high;
    }
    Scanned {
        count,
        next: if at < upto { Some(at) } else { None },
    }
}

/// Returns the least present key that is at least the given one, with its value.
pub(crate) fn next_from<M: Memory, G: StepGate>(
    steps: TableSteps<M, G>,
    pass: &mut Pass<M>,
    from: u64,
) -> Option<(u64, u64)>
    requires may { IsIdlePassOf steps.table.now pass.old }
    ensures found { HasFoundNext pass.new.view from result }
    ensures one { pass.new.view.looks ≡ pass.old.view.looks + 1 }
    ensures only { OnlyLooks pass.old pass.new (scan_steps steps.entry.table.now.plan) }
    ensures saw { SawLookBegin pass.old.sight pass.new.sight }
    ensures places { from ≤ greatest_key → FindsHavePlaces steps.entry.table.now.plan pass.new.view pass.new.sight }
{
    let mut room = [Pair { key: 0, value: 0 }];
    let scanned = scan(steps, pass, from, KEY_MAX + 1, &mut room);
    if scanned.count == 0 {
        return None;
    }
    let Pair { key, value } = room[0];
    Some((key, value))
}

/// Returns the greatest present key below the given one, with its value.
pub(crate) fn last_below<M: Memory, G: StepGate>(
    steps: TableSteps<M, G>,
    pass: &mut Pass<M>,
    upto: u64,
) -> Option<(u64, u64)>
    requires may { IsIdlePassOf steps.table.now pass.old }
    requires real { upto ≤ greatest_key + 1 }
    ensures found { HasFoundLast pass.new.view upto result }
    ensures one { pass.new.view.looks ≡ pass.old.view.looks + 1 }
    ensures only { OnlyLooks pass.old pass.new (scan_steps steps.entry.table.now.plan) }
    ensures saw { SawLookBegin pass.old.sight pass.new.sight }
    ensures places { 0 < upto → FindsHavePlaces steps.entry.table.now.plan pass.new.view pass.new.sight }
{
    let mut cursor = Cursor::begin(steps, pass);
    let mut below = upto;
    while below > 0 {
        let about = cursor.about(steps, pass, below - 1);
        if let Some((key, value)) = about.found
            && key < below
        {
            return Some((key, value));
        }
        below = about.low;
    }
    None
}
