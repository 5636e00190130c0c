//! A look that continues from one stretch of keys to the next. It keeps the nodes at which it last went left, so that a
//! stretch begins where the one before it turned, and a whole range takes the time of an in-order walk.
ghost use Rattle.std.specs.Prelude.{◌≡◌, ◌<◌, ◌≤◌, ◌+◌, ◌%◌, slice_set};
ghost use Rattle.ell_ops.specs.Meaning.{greatest_key};
ghost use Rattle.ell_layout.specs.Words.{IsLeaf};
ghost use Rattle.ell_runs.specs.declared.view.Told.TheVariants.{Met};
ghost use Rattle.ell_runs.specs.Views.{IsTold};
ghost use Rattle.ell_runs.specs.Plans.{flat_from};
ghost use Rattle.ell_runs.specs.LookPlaces.{FindsHavePlaces};
ghost use Rattle.ell_runs.specs.Looking.{KeysAreFixed, ReadsItsOwn, MissesItsOwn};
ghost use Rattle.ell_tree.specs.Counts.{CountsAll, HasUncounted};
ghost use Rattle.ell_tree.specs.Ledgers.{IsIdlePassOf};
ghost use Rattle.ell_tree.specs.Looks.{stretch_steps};
ghost use Rattle.ell_tree.specs.Cursors.{AreKept, BeginsALook, FindsAbout, IsAmong, KeepsLooking, TellsOfLeaf};
ghost use Rattle.ell_runs.specs.Depths.{deepest, IsShallow};

use ell_cards::{Glance, Memory, Pass, StepGate, TableSteps};
use ell_ops::KEY_MAX;
use ell_word::is_internal;

// How many nodes a cursor keeps. In a balanced tree of 4,000,000 keys no search goes left more often.
const KEPT: usize = 32;

/// What a look has found around a key, in one state of the tree: of all keys of a stretch that contains the key, those
/// that are at least `low` and below `high`, the one in `found` is present, with this value, and no other; or none is.
#[derive(Clone, Copy)]
pub struct About {
    pub low: u64,
    pub high: u64,
    pub found: Option<(u64, u64)>,
}

/// A look that continues: where it began, and the last of the nodes at which it went left.
#[derive(Drop)]
pub(crate) struct Cursor {
    first: Glance,
    kept: [Glance; KEPT],
    count: usize,
}

impl Cursor {
    /// Begins a look.
    pub(crate) fn begin<M: Memory, G: StepGate>(
        steps: TableSteps<M, G>,
        pass: &mut Pass<M>,
    ) -> Cursor
        requires may { IsIdlePassOf steps.table.now pass.old }
        ensures begins { BeginsALook pass.old pass.new }
        ensures kept { AreKept steps.entry.table.now.plan.last_card pass.new.view result }
    {
        let child = steps.look(pass);
        pass.count(1);
        let first = Glance {
            node: child.node,
            low: 0,
            high: KEY_MAX + 1,
            whole: false,
        };
        Cursor {
            first,
            kept: [first; KEPT],
            count: 0,
        }
    }

    /// Looks for a key, from the last kept node that its path passes too. Returns what is around it. The steps are
    /// counted at its end.
    pub(crate) fn about<M: Memory, G: StepGate>(
        &mut self,
        steps: TableSteps<M, G>,
        pass: &mut Pass<M>,
        key: u64,
    ) -> About
        requires own { pass.old.table ≡ steps.table.now.id }
        requires real { key ≤ greatest_key }
        requires kept { AreKept steps.table.now.plan.last_card pass.old.view self.old }
        ensures found { FindsAbout steps.entry.table.now.plan.last_card pass.new.view key result }
        ensures kept { AreKept steps.entry.table.now.plan.last_card pass.new.view self.new }
        ensures fixed { KeysAreFixed pass.new.view }
        // It counts each step that it makes.
        ensures counted { CountsAll pass.old pass.new }
        ensures on { KeepsLooking pass.old pass.new (stretch_steps (deepest steps.entry.table.now.plan)) }
        // All that the look has found so far has its place in one order of the calls that the pass has seen.
        ensures places { FindsHavePlaces steps.entry.table.now.plan pass.new.view pass.new.sight }
    {
        steps.table.facts_stay_inside(pass);
        let mut here = self.start(key);
        let mut made = 0;
        while is_internal(here.node) {
            let node_key = steps.look_key(pass, here.node);
            let right = node_key <= key;
            if !right {
                self.keep(here);
            }
            let keys = here.on_side(node_key, right);
            let child = steps.look_down(pass, here, keys, right);
            here = keys.at(child.node);
            made += 2;
        }
        let (about, at_the_leaf) = found_at(steps, pass, here);
        pass.count(made + at_the_leaf);
        about
    }

    // The last kept node that a key's path passes, or where the look began. That node and those after it are no longer
    // kept.
    fn start(&mut self, key: u64) -> Glance
        requires least { self.old.first.low ≡ 0 }
        requires most { key < self.old.first.high }
        ensures first { self.new.first ≡ self.old.first }
        ensures kept { self.new.kept ≡ self.old.kept }
        ensures among { IsAmong self.old result }
        ensures from { result.low ≤ key }
        ensures upto { key < result.high }
    {
        while self.count > 0 {
            self.count -= 1;
            let kept = self.kept[self.count % KEPT];
            if kept.low <= key && key < kept.high {
                return kept;
            }
        }
        self.first
    }

    // Keeps a node, in place of the one that was kept longest.
    fn keep(&mut self, glance: Glance)
        ensures first { self.new.first ≡ self.old.first }
        ensures kept { self.new.kept ≡ slice_set self.old.kept (self.old.count % 32) glance }
    {
        self.kept[self.count % KEPT] = glance;
        self.count = self.count.wrapping_add(1);
    }
}

/// Returns what is found of the keys by which a look has come to a leaf, and in how many steps. The steps are not
/// counted.
pub(crate) fn found_at<M: Memory, G: StepGate>(
    steps: TableSteps<M, G>,
    pass: &mut Pass<M>,
    leaf: Glance,
) -> (About, u64)
    requires own { pass.old.table ≡ steps.table.now.id }
    requires outer { IsLeaf leaf.node }
    requires met { IsTold pass.old.view (Met leaf.node) }
    ensures tells { TellsOfLeaf (flat_from steps.entry.table.now.plan) pass.new.view leaf.node result.0 }
    ensures low { result.0.low ≡ leaf.low }
    ensures high { result.0.high ≡ leaf.high }
    ensures mine { ReadsItsOwn pass.new.view }
    ensures missed { MissesItsOwn (flat_from steps.entry.table.now.plan) pass.new.view }
    ensures shallow { IsShallow (deepest steps.entry.table.now.plan) pass.old.view leaf.node }
    ensures fixed { KeysAreFixed pass.new.view }
    ensures uncounted { HasUncounted pass.old pass.new result.1 }
    ensures few { result.1 ≤ 2 }
    ensures on { KeepsLooking pass.old pass.new 2 }
    ensures places { FindsHavePlaces steps.entry.table.now.plan pass.new.view pass.new.sight }
{
    let leaf_key = steps.look_key(pass, leaf.node);
    let Glance {
        node,
        low,
        high,
        whole: _,
    } = leaf;
    if leaf_key < low || high <= leaf_key {
        let none = About {
            low,
            high,
            found: None,
        };
        return (none, 1);
    }
    let value = steps.look_value(pass, node);
    let one = About {
        low,
        high,
        found: Some((leaf_key, value)),
    };
    (one, 2)
}
