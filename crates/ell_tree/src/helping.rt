//! Helping the operation that stands in the way, by the words of its card (paper of 2010, figures 8 and 9: Help,
//! HelpInsert, HelpDelete and HelpMarked).
#![tactic(auto, using(crate::proofs::lemmas::Keeping::keeps_all_told, crate::proofs::lemmas::Keeping::keeps_all_knows))]

ghost use Rattle.std.specs.Prelude.{◌≡◌};
ghost use Rattle.ell_core.specs.declared.fact.Fact.TheVariants as fact;
ghost use Rattle.ell_layout.specs.declared.field.Field.TheVariants as field;
ghost use Rattle.ell_runs.specs.declared.view.Told.TheVariants as told;
ghost use Rattle.ell_runs.specs.Views.{IsTold, Knows};
ghost use Rattle.ell_runs.specs.Depths.{deepest, depth_of};
ghost use Rattle.ell_tree.specs.Helps.{DeleteEnds, HasSibling, HelpEnds, IsFlag, IsInsert, KnowsMark, IsParent, chain_steps, help_steps};
ghost use Rattle.ell_runs.specs.Dead.{KnowsDeleteEnded};
ghost use Rattle.ell_tree.specs.Hindrances.{IsEnded, Meets};
ghost use Rattle.ell_tree.specs.Keeping.{IsSeenAt, KeepsAll, KeepsAllButMet};

use crate::steps::{
    KeyedNode, change_child, clear_delete, clear_insert, cut_parent, go_back, read_child,
    read_info, read_key, read_leaf, set_mark,
};
use ell_cards::{Memory, Pass, StepGate, TableSteps};
use ell_layout::Field;
use ell_word::{Link, State, Update};

/// The flag of a delete, and the node where it stands.
#[derive(Clone, Copy)]
pub(crate) struct DeleteFlag {
    pub card: u64,
    pub grandparent: u64,
}

/// How a delete whose flag was won ends.
#[derive(Clone, Copy)]
pub(crate) enum Ending {
    /// Its parent was cut out, and its flag taken away.
    Done,
    /// Its mark was lost: what was in its way was helped, and its flag taken away.
    Backed,
    /// Its mark was lost to the flag of another delete: its own flag was taken away.
    Behind(DeleteFlag),
}

/// Helps what an update at a node says is under way.
pub(crate) fn help<M: Memory, G: StepGate>(
    steps: TableSteps<M, G>,
    pass: &mut Pass<M>,
    node: u64,
    update: Update,
)
    requires own { pass.old.table ≡ steps.table.now.id }
    requires seen { IsSeenAt steps.table.now.plan.last_card pass.old.view node update }
    ensures keeps_but_met { KeepsAllButMet pass.old pass.new (help_steps (deepest steps.entry.table.now.plan)) }
    ensures meets { Meets pass.old.view pass.new.view }
    ensures ended { IsEnded pass.new.view update.state update.card }
{
    let card = update.card;
    match update.state {
        State::IFlag => help_insert(steps, pass, card, node),
        State::DFlag => {
            let flag = DeleteFlag {
                card,
                grandparent: node,
            };
            help_delete(steps, pass, flag);
        }
        State::Mark => help_marked(steps, pass, card, node),
        State::Clean => {}
    }
}

/// HelpInsert: makes the child exchange of the insert whose flag stands at a node, and takes the flag away.
pub(crate) fn help_insert<M: Memory, G: StepGate>(
    steps: TableSteps<M, G>,
    pass: &mut Pass<M>,
    card: u64,
    parent: u64,
)
    requires own { pass.old.table ≡ steps.table.now.id }
    requires flagged { Knows pass.old.view (fact.IFlagged card) }
    requires met { IsTold pass.old.view (told.Met parent) }
    requires parent { IsTold pass.old.view (told.Info card field.P parent) }
    ensures keeps_all { KeepsAll pass.old pass.new 6 }
    ensures over { Knows pass.new.view (fact.IOver card) }
{
    let leaf = read_leaf(steps, pass, card);
    let right_key = read_info(steps, pass, card, Field::RightLeafKey);
    let left_key = read_info(steps, pass, card, Field::LeftLeafKey);
    finish_insert(steps, pass, card, parent, leaf, right_key, left_key);
}

/// Like `help_insert`, for a card whose leaf and keys are known.
pub(crate) fn finish_insert<M: Memory, G: StepGate>(
    steps: TableSteps<M, G>,
    pass: &mut Pass<M>,
    card: u64,
    parent: u64,
    leaf: Link,
    right_key: u64,
    left_key: u64,
)
    requires own { pass.old.table ≡ steps.table.now.id }
    requires insert { IsInsert pass.old.view card parent leaf right_key left_key }
    ensures keeps_all { KeepsAll pass.old pass.new 3 }
    ensures over { Knows pass.new.view (fact.IOver card) }
{
    let above = read_key(steps, pass, parent);
    change_child(steps, pass, card, above, leaf, right_key, left_key);
    clear_insert(steps, pass, card, parent);
}

/// HelpMarked: cuts the parent that a delete has marked out of the tree.
pub(crate) fn help_marked<M: Memory, G: StepGate>(
    steps: TableSteps<M, G>,
    pass: &mut Pass<M>,
    card: u64,
    parent: u64,
)
    requires own { pass.old.table ≡ steps.table.now.id }
    requires marked { Knows pass.old.view (fact.Marked card) }
    requires parent { IsTold pass.old.view (told.Info card field.P parent) }
    ensures keeps_all { KeepsAll pass.old pass.new 8 }
    ensures over { Knows pass.new.view (fact.DOver card) }
{
    let grandparent = read_info(steps, pass, card, Field::Gp);
    finish_marked(steps, pass, card, grandparent, parent);
}

// Like `help_marked`, for a known grandparent.
fn finish_marked<M: Memory, G: StepGate>(
    steps: TableSteps<M, G>,
    pass: &mut Pass<M>,
    card: u64,
    grandparent: u64,
    parent: u64,
)
    requires own { pass.old.table ≡ steps.table.now.id }
    requires marked { KnowsMark pass.old.view card grandparent parent }
    ensures keeps_all { KeepsAll pass.old pass.new 7 }
    ensures over { Knows pass.new.view (fact.DOver card) }
{
    let leaf = read_leaf(steps, pass, card);
    let sibling = find_sibling(steps, pass, card, parent, leaf.node);
    let above = read_key(steps, pass, grandparent);
    let parent = Link {
        node: parent,
        tag: leaf.tag,
    };
    cut_parent(steps, pass, card, above, parent, sibling);
    clear_delete(steps, pass, card, grandparent);
}

// The sibling of the leaf of a delete, at the parent that it has marked.
fn find_sibling<M: Memory, G: StepGate>(
    steps: TableSteps<M, G>,
    pass: &mut Pass<M>,
    card: u64,
    parent: u64,
    leaf: u64,
) -> KeyedNode
    requires own { pass.old.table ≡ steps.table.now.id }
    requires marked { Knows pass.old.view (fact.Marked card) }
    requires parent { IsTold pass.old.view (told.Info card field.P parent) }
    requires leaf { IsTold pass.old.view (told.Info card field.L leaf) }
    ensures keeps_all { KeepsAll pass.old pass.new 3 }
    ensures sibling { HasSibling pass.new.view card result }
{
    let right = read_child(steps, pass, card, parent, true);
    let sibling = if right == leaf {
        read_child(steps, pass, card, parent, false)
    } else {
        right
    };
    read_key(steps, pass, sibling)
}

/// HelpDelete of a flag that was met: marks the parent and cuts it out, or takes the flag back. If another delete's
/// flag is in the way, it goes on with that one, deeper in the tree.
pub(crate) fn help_delete<M: Memory, G: StepGate>(
    steps: TableSteps<M, G>,
    pass: &mut Pass<M>,
    flag: DeleteFlag,
)
    requires own { pass.old.table ≡ steps.table.now.id }
    requires flag { IsFlag steps.table.now.plan.last_card pass.old.view flag }
    ensures keeps_but_met { KeepsAllButMet pass.old pass.new
        (chain_steps (deepest steps.entry.table.now.plan) (depth_of pass.old.view flag.grandparent)) }
    ensures meets { Meets pass.old.view pass.new.view }
    ensures ended { KnowsDeleteEnded pass.new.view flag.card }
{
    let mut flag = flag;
    while let Ending::Behind(next) = help_one_delete(steps, pass, flag) {
        flag = next;
    }
}

// One delete of such a chain.
fn help_one_delete<M: Memory, G: StepGate>(
    steps: TableSteps<M, G>,
    pass: &mut Pass<M>,
    flag: DeleteFlag,
) -> Ending
    requires own { pass.old.table ≡ steps.table.now.id }
    requires flag { IsFlag steps.table.now.plan.last_card pass.old.view flag }
    ensures { HelpEnds steps.entry.table.now.plan flag pass.old pass.new result }
{
    let parent = read_info(steps, pass, flag.card, Field::P);
    let was = read_info(steps, pass, flag.card, Field::Was);
    finish_delete(steps, pass, flag, parent, was)
}

/// HelpDelete, given the parent and the update that the delete's search read there, up to another delete's flag that is
/// in the way.
pub(crate) fn finish_delete<M: Memory, G: StepGate>(
    steps: TableSteps<M, G>,
    pass: &mut Pass<M>,
    flag: DeleteFlag,
    parent: u64,
    was: u64,
) -> Ending
    requires own { pass.old.table ≡ steps.table.now.id }
    requires flag { IsFlag steps.table.now.plan.last_card pass.old.view flag }
    requires parent { IsParent steps.table.now.plan.last_card pass.old.view flag.card parent }
    requires read { IsTold pass.old.view (told.Info flag.card field.Was was) }
    ensures { DeleteEnds steps.entry.table.now.plan.last_card flag.card parent pass.old pass.new result }
{
    let DeleteFlag { card, grandparent } = flag;
    let Some(found) = set_mark(steps, pass, card, parent, was) else {
        finish_marked(steps, pass, card, grandparent, parent);
        return Ending::Done;
    };
    match found.state {
        State::DFlag => {
            go_back(steps, pass, card, grandparent);
            return Ending::Behind(DeleteFlag {
                card: found.card,
                grandparent: parent,
            });
        }
        State::IFlag => help_insert(steps, pass, found.card, parent),
        State::Mark => help_marked(steps, pass, found.card, parent),
        State::Clean => {}
    }
    go_back(steps, pass, card, grandparent);
    Ending::Backed
}
