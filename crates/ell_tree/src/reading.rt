//! Calls that only read: the look for any key, whichever pass owns it, what is around a key, and how many cards are
//! left. They change nothing and help no other call.
ghost use Rattle.std.specs.Prelude.{◌≡◌, ◌<◌, ◌≤◌, ◌+◌, ℕ, true, None, nat_le};
ghost use Rattle.ell_block.specs.Blocks.{InBlockOf};
ghost use Rattle.ell_layout.specs.Words.{has_block};
ghost use Rattle.ell_runs.specs.Guards.{GoOnBy};
ghost use Rattle.ell_runs.specs.Plans.{flat_from};
ghost use Rattle.ell_ops.specs.Meaning.{greatest_key};
ghost use Rattle.ell_runs.specs.LookPlaces.{FindsHavePlaces, SawLookBegin};
ghost use Rattle.ell_runs.specs.Looking.{HasFound, HasFoundBetween, ReadsItsOwn, MissesItsOwn};
ghost use Rattle.ell_tree.specs.CardsLeft.{ReadsCardsLeft};
ghost use Rattle.ell_tree.specs.Counts.{CountsAll, HasUncounted};
ghost use Rattle.ell_tree.specs.Ledgers.{IsIdlePassOf, Owns, present_in};
ghost use Rattle.ell_tree.specs.Looks.{OnlyLooks, look_steps};
ghost use Rattle.ell_tree.specs.Scans.{IsAbout, TellsItsOwn, value_there};
ghost use Rattle.ell_runs.specs.Depths.{deepest};

use crate::cursor::{About, found_at};
use ell_block::{block_ends, is_in_block};
use ell_cards::{CardTable, Glance, Memory, Pass, StepGate, Stretch, TableSteps};
use ell_ops::KEY_MAX;
use ell_word::is_internal;

/// Returns the value of any key, if it is present: that of the leaf at which its path from the root ends. It reads no
/// update word, so it ignores flags and marks, and a node that was cut out while it stood there leads on as it did.
pub(crate) fn look<M: Memory, G: StepGate>(
    steps: TableSteps<M, G>,
    pass: &mut Pass<M>,
    key: u64,
) -> Option<u64>
    requires may { IsIdlePassOf steps.table.now pass.old }
    requires real { key ≤ greatest_key }
    ensures found { HasFound pass.new.view key result }
    ensures one { pass.new.view.looks ≡ pass.old.view.looks + 1 }
    ensures mine { Owns pass.old key → result ≡ present_in pass.old key }
    ensures counted { CountsAll pass.old pass.new }
    ensures only { OnlyLooks pass.old pass.new (look_steps (deepest steps.entry.table.now.plan)) }
    ensures saw { SawLookBegin pass.old.sight pass.new.sight }
    ensures places { FindsHavePlaces steps.entry.table.now.plan pass.new.view pass.new.sight }
{
    let (found, made) = walk(steps, pass, key);
    pass.count(made);
    found
}

// The same, but the steps are not counted. Returns what is found, and how many steps there were.
#[inline(always)]
fn walk<M: Memory, G: StepGate>(
    steps: TableSteps<M, G>,
    pass: &mut Pass<M>,
    key: u64,
) -> (Option<u64>, u64)
    requires may { IsIdlePassOf steps.table.now pass.old }
    requires real { key ≤ greatest_key }
    ensures found { HasFound pass.new.view key result.0 }
    ensures one { pass.new.view.looks ≡ pass.old.view.looks + 1 }
    ensures mine { Owns pass.old key → result.0 ≡ present_in pass.old key }
    ensures uncounted { HasUncounted pass.old pass.new result.1 }
    ensures only { OnlyLooks pass.old pass.new (look_steps (deepest steps.entry.table.now.plan)) }
    ensures saw { SawLookBegin pass.old.sight pass.new.sight }
    ensures places { FindsHavePlaces steps.entry.table.now.plan pass.new.view pass.new.sight }
{
    steps.table.facts_stay_inside(pass);
    let first = steps.look(pass);
    let mut node = first.node;
    let mut made = 1;
    while is_internal(node) {
        let node_key = steps.look_key(pass, node);
        let alone = Stretch {
            low: key,
            high: key + 1,
            whole: false,
        };
        let child = steps.look_down(pass, alone.at(node), alone, node_key <= key);
        node = child.node;
        made += 2;
    }
    let leaf_key = steps.look_key(pass, node);
    if leaf_key != key {
        return (None, made + 1);
    }
    (Some(steps.look_value(pass, node)), made + 2)
}

/// Returns what is around a key, in one state. The look goes down once.
pub(crate) fn look_about<M: Memory, G: StepGate>(
    steps: TableSteps<M, G>,
    pass: &mut Pass<M>,
    key: u64,
) -> About
    requires may { IsIdlePassOf steps.table.now pass.old }
    requires real { key ≤ greatest_key }
    ensures found { HasFoundBetween (flat_from steps.entry.table.now.plan) pass.new.view result.low result.high
        result.found }
    ensures about { IsAbout key result }
    ensures one { pass.new.view.looks ≡ pass.old.view.looks + 1 }
    ensures mine { TellsItsOwn pass.old result.low result.high (value_there result.found) }
    ensures only { OnlyLooks pass.old pass.new (look_steps (deepest steps.entry.table.now.plan)) }
    ensures saw { SawLookBegin pass.old.sight pass.new.sight }
    ensures places { FindsHavePlaces steps.entry.table.now.plan pass.new.view pass.new.sight }
{
    let (about, made) = walk_about(steps, pass, key);
    pass.count(made);
    about
}

// The same, but the steps are not counted. Returns what is found, and how many steps there were. All keys of the
// stretch come to each node as one, so at a node that has a block only those of a half of it go on.
#[inline(always)]
fn walk_about<M: Memory, G: StepGate>(
    steps: TableSteps<M, G>,
    pass: &mut Pass<M>,
    key: u64,
) -> (About, u64)
    requires may { IsIdlePassOf steps.table.now pass.old }
    requires real { key ≤ greatest_key }
    ensures found { HasFoundBetween (flat_from steps.entry.table.now.plan) pass.new.view result.0.low result.0.high
        result.0.found }
    ensures about { IsAbout key result.0 }
    ensures one { pass.new.view.looks ≡ pass.old.view.looks + 1 }
    ensures mine { ReadsItsOwn pass.new.view }
    ensures missed { MissesItsOwn (flat_from steps.entry.table.now.plan) pass.new.view }
    ensures uncounted { HasUncounted pass.old pass.new result.1 }
    ensures only { OnlyLooks pass.old pass.new (look_steps (deepest steps.entry.table.now.plan)) }
    ensures saw { SawLookBegin pass.old.sight pass.new.sight }
    ensures places { FindsHavePlaces steps.entry.table.now.plan pass.new.view pass.new.sight }
{
    steps.table.facts_stay_inside(pass);
    let first = steps.look(pass);
    let mut here = Glance {
        node: first.node,
        low: 0,
        high: KEY_MAX + 1,
        whole: true,
    };
    let mut made = 1;
    while is_internal(here.node) {
        let node_key = steps.look_key(pass, here.node);
        if steps.table.has_block(here.node) && !is_in_block(node_key, key) {
            return (beside_block(here, node_key, key), made + 1);
        }
        let right = node_key <= key;
        let keys = keys_below(steps.table, here, node_key, right);
        let child = steps.look_down(pass, here, keys, right);
        here = keys.at(child.node);
        made += 2;
    }
    let (about, at_the_leaf) = found_at(steps, pass, here);
    (about, made + at_the_leaf)
}

// What is found where the block of a node, which has this key, lacks the key that is sought: none of the keys that
// lie with it on one side of the block.
fn beside_block(here: Glance, node_key: u64, key: u64) -> About
    requires some { 0 < node_key }
    requires low { here.low ≤ key }
    requires high { key < here.high }
    requires lacks { ¬ InBlockOf node_key key }
    ensures low { (here.low ≤ result.low) × (result.low ≤ key) }
    ensures high { (key < result.high) × (result.high ≤ here.high) }
    ensures none { result.found ≡ None }
    ensures lacks { (k : ℕ) → result.low ≤ k → k < result.high → ¬ InBlockOf node_key k }
{
    let (first, last) = block_ends(node_key);
    if key < first {
        About {
            low: here.low,
            high: here.high.min(first),
            found: None,
        }
    } else {
        About {
            low: here.low.max(last + 1),
            high: here.high,
            found: None,
        }
    }
}

// The keys that go on to a child of a node, which has this key, as one: of a node that has a block those in that half
// of it, of another those on that side.
fn keys_below<M: Memory>(table: &CardTable<M>, here: Glance, node_key: u64, right: bool) -> Stretch
    requires some { has_block (flat_from table.now.plan) here.node ≡ true → 0 < node_key }
    requires high { here.high ≤ greatest_key + 1 }
    ensures goes { here.whole ≡ true → GoOnBy (flat_from table.now.plan) here node_key right result }
    ensures whole { result.whole ≡ true }
    ensures high { result.high ≤ here.high }
    ensures with { (k : ℕ) → here.low ≤ k → k < here.high → right ≡ nat_le node_key k
        → (has_block (flat_from table.now.plan) here.node ≡ true → InBlockOf node_key k) → (result.low ≤ k) × (k < result.high) }
{
    let Stretch {
        low,
        high,
        whole: _,
    } = here.on_side(node_key, right);
    if !table.has_block(here.node) {
        return Stretch {
            low,
            high,
            whole: true,
        };
    }
    let (first, last) = block_ends(node_key);
    Stretch {
        low: low.max(first),
        high: if last < high { last + 1 } else { high },
        whole: true,
    }
}

/// Returns how many cards are not given out yet: those from the claim word on.
pub(crate) fn cards_left<M: Memory, G: StepGate>(steps: TableSteps<M, G>, pass: &mut Pass<M>) -> u64
    requires own { pass.old.table ≡ steps.table.now.id }
    ensures { ReadsCardsLeft steps.entry.table.now.plan.last_card pass.old pass.new result }
{
    steps.table.last_card() + 1 - steps.next(pass)
}
