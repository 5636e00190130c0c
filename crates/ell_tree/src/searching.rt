//! The search (paper of 2010, figure 8: Search).
ghost use Rattle.std.specs.Prelude.{◌≡◌, ◌<◌, ◌+◌, ◌*◌, None, Some, true, false};
ghost use Rattle.ell_runs.specs.Depths.{deepest, IsShallow, depth_of};
ghost use Rattle.ell_runs.specs.Views.{Does, InTable, IsTold, StandsAt};
ghost use Rattle.ell_runs.specs.Plans.{flat_from};
ghost use Rattle.ell_runs.specs.declared.view.Told.TheVariants.{Met};
ghost use Rattle.ell_runs.specs.declared.view.Told.TheVariants as told;
ghost use Rattle.ell_tree.specs.Counts.{CountsAll, HasUncounted};
ghost use Rattle.ell_tree.specs.Keeping.{IsInnerMet, KeepsAllButSearch};
ghost use Rattle.ell_tree.specs.Searches.{AtRoot, EndsAbove, EndsAt, EndWasUnknownAt, FitsBelow, KnowsPassed, MayPass, below, node_with};

use crate::steps::KeyedNode;
use ell_block::is_in_block;
use ell_cards::{CardTable, Memory, Pass, StepGate, TableSteps};
use ell_ops::Op;
use ell_word::{Link, Update, is_internal};

// A search reads the update word, the key and a child of each internal node that it passes.
const STEPS_AT_A_NODE: u64 = 3;

/// A node that a search passed, with the update that it read there, and the tag of the child word that was read there
/// after the update.
#[derive(Clone, Copy)]
pub(crate) struct Passed {
    pub node: u64,
    pub update: Update,
    pub tag: u64,
}

/// Where a search ended: a leaf with its key and its value, or, for an insert into a flat tree, an internal node whose
/// block lacks the insert's key, with 0 for a value; the parent, and the grandparent if there is one.
#[derive(Clone, Copy)]
pub(crate) struct Place {
    pub node: u64,
    pub key: u64,
    pub value: u64,
    pub parent: Passed,
    pub grandparent: Option<Passed>,
}

/// Returns the node of a place with a tag, as a card says it.
pub(crate) fn node_with(place: Place, tag: u64) -> Link
    ensures { result ≡ node_with place tag }
{
    Link {
        node: place.node,
        tag,
    }
}

// Whether a search ends at an internal node of this key: an insert's does at one whose block lacks its key.
#[inline(always)]
fn ends_at<M: Memory>(table: &CardTable<M>, op: Op, node: u64, key: u64) -> bool
    ensures ends { result ≡ true → EndsAbove (flat_from table.now.plan) op node key }
    ensures goes { result ≡ false → MayPass (flat_from table.now.plan) op node key }
{
    match op {
        Op::Insert(own, _) => table.has_block(node) && !is_in_block(key, own),
        Op::Find(_) | Op::Delete(_) | Op::Swap(_, _, _) => false,
    }
}

/// Searches for the operation's key from the root. Its steps are counted once it has ended.
pub(crate) fn search<M: Memory, G: StepGate>(
    steps: TableSteps<M, G>,
    pass: &mut Pass<M>,
    op: Op,
) -> Place
    requires own { pass.old.table ≡ steps.table.now.id }
    requires root { AtRoot op pass.old.view }
    ensures keeps_but_search { KeepsAllButSearch pass.old pass.new (3 * deepest steps.entry.table.now.plan + 5) }
    // It counts each step that it makes.
    ensures counted { CountsAll pass.old pass.new }
    ensures ends { EndsAt steps.entry.table.now.plan pass.new.view op result }
{
    let (place, made) = walk(steps, pass, op);
    pass.count(made);
    place
}

// The same, but the steps are not counted. Returns where it ended, and how many steps there were.
#[inline(always)]
fn walk<M: Memory, G: StepGate>(steps: TableSteps<M, G>, pass: &mut Pass<M>, op: Op) -> (Place, u64)
    requires own { pass.old.table ≡ steps.table.now.id }
    requires root { AtRoot op pass.old.view }
    ensures keeps_but_search { KeepsAllButSearch pass.old pass.new (3 * deepest steps.entry.table.now.plan + 5) }
    ensures uncounted { HasUncounted pass.old pass.new result.1 }
    ensures ends { EndsAt steps.entry.table.now.plan pass.new.view op result.0 }
{
    steps.table.facts_stay_inside(pass);
    let root_key = steps.key_of(pass, 0);
    let root = KeyedNode {
        node: 0,
        key: root_key,
    };
    let (mut parent, mut node) = pass_by(steps, pass, op, root);
    let mut grandparent = None;
    let mut made = STEPS_AT_A_NODE;
    // A leaf's key stands elsewhere than that of an internal node. So each is asked behind the test of the kind: a
    // processor that predicts the test finds the key's word without waiting for it.
    while is_internal(node) {
        let key = steps.key_of(pass, node);
        if ends_at(steps.table, op, node, key) {
            let place = Place {
                node,
                key,
                value: 0,
                parent,
                grandparent,
            };
            return (place, made + 1);
        }
        let (passed, child) = pass_by(steps, pass, op, KeyedNode { node, key });
        grandparent = Some(rebuild(parent));
        parent = rebuild(passed);
        node = child;
        made += STEPS_AT_A_NODE;
    }
    let key = steps.key_of(pass, node);
    let value = steps.value_of(pass, node);
    let place = Place {
        node,
        key,
        value,
        parent,
        grandparent,
    };
    (place, made + 2)
}

// The same value, made from its parts. A move would also copy the unused bytes next to the state, and the processor
// waits for that.
#[inline(always)]
fn rebuild(passed: Passed) -> Passed
    ensures { result ≡ passed }
{
    let Update { state, card } = passed.update;
    Passed {
        node: passed.node,
        update: Update { state, card },
        tag: passed.tag,
    }
}

// Goes down from an internal node of this key, whose update it reads before the child word. Returns what it read there,
// and the child. The steps are not counted.
fn pass_by<M: Memory, G: StepGate>(
    steps: TableSteps<M, G>,
    pass: &mut Pass<M>,
    op: Op,
    at: KeyedNode,
) -> (Passed, u64)
    requires own { pass.old.table ≡ steps.table.now.id }
    requires busy { Does pass.old.view op }
    requires stands { StandsAt pass.old.view at.node }
    requires unread { pass.old.view.worker.search.read ≡ None }
    requires no_card { pass.old.view.worker.card ≡ None }
    requires node { IsInnerMet steps.table.now.plan.last_card pass.old.view at.node }
    requires here { pass.old.view.here ≡ Some at.key }
    requires told { IsTold pass.old.view (told.Key at.node at.key) }
    requires may { MayPass (flat_from steps.table.now.plan) op at.node at.key }
    ensures keeps_but_search { KeepsAllButSearch pass.old pass.new 2 }
    ensures uncounted { HasUncounted pass.old pass.new 2 }
    ensures here { result.0.node ≡ at.node }
    ensures deeper { depth_of pass.old.view at.node < depth_of pass.new.view result.1 }
    ensures shallow { IsShallow (deepest steps.entry.table.now.plan) pass.new.view result.1 }
    ensures there { InTable steps.entry.table.now.plan.last_card result.1 }
    ensures search { pass.new.view.worker.search ≡ below result.1 result.0 pass.old.view.worker.search.parent }
    ensures met { IsTold pass.new.view (Met result.1) }
    ensures passed { KnowsPassed steps.entry.table.now.plan.last_card pass.new.view result.0 }
    ensures fits { FitsBelow (flat_from steps.entry.table.now.plan) pass.new.view op result.0.node }
    ensures unknown { EndWasUnknownAt pass.new.view result.0 }
{
    let update = steps.upd(pass, at.node);
    let child = steps.down(pass, at.node, at.key <= op.key());
    let passed = Passed {
        node: at.node,
        update,
        tag: child.tag,
    };
    (passed, child.node)
}
