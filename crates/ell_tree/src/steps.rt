//! The atomic steps other than those of the search and the card: what each of them means to an operation.
ghost use Rattle.std.specs.Prelude.{◌≡◌, ◌≢◌, ◌≤◌, ◌+◌, IfSome, None, []};
ghost use Rattle.ell_ops.specs.declared.op.Op.{Op};
ghost use Rattle.ell_ops.specs.Meaning.{key_of};
ghost use Rattle.ell_core.specs.declared.fact.Fact.TheVariants as fact;
ghost use Rattle.ell_layout.specs.declared.field.Field.TheVariants as field;
ghost use Rattle.ell_core.specs.soundness.Sound.{MayChange};
ghost use Rattle.ell_core.specs.state.Machine.{worker_of};
ghost use Rattle.ell_core.specs.acts.Searching.{MayStop};
ghost use Rattle.ell_layout.specs.Cards.{says_by};
ghost use Rattle.ell_runs.specs.declared.view.Told.TheVariants as told;
ghost use Rattle.ell_runs.specs.Views.{Does, IsFree, IsTold, Knows};
ghost use Rattle.ell_runs.specs.Changes.{answered_so, depth_there, is_mark_of, tries_hindered};
ghost use Rattle.ell_runs.specs.Depths.{deepest, IsShallow, depth_of};
ghost use Rattle.ell_runs.specs.Guards.{KnowsPlace, MayAnswer, MayAsk, NamesNode};
ghost use Rattle.ell_runs.specs.Calls.{TellsNode};
ghost use Rattle.ell_runs.specs.Seeing.{SeesBegin, SeesEnd};
ghost use Rattle.ell_cards.specs.Stepping.{LetsGo};
ghost use Rattle.ell_tree.specs.CardsTaken.{TakesNoCard};
ghost use Rattle.ell_tree.specs.Counts.{Took};
ghost use Rattle.ell_tree.specs.Ends.{AnswersAs};
ghost use Rattle.ell_tree.specs.Helps.{HasSibling, IsLost, KnowsMark, IsParent, found_instead, met_by_mark};
ghost use Rattle.ell_tree.specs.Hindrances.{way_of};
ghost use Rattle.ell_tree.specs.Keeping.{KeepsAll, KeepsAllButMet};
ghost use Rattle.ell_tree.specs.Tries.{Begins, GivesUp};

use ell_cards::{Memory, Pass, StepGate, TableSteps};
use ell_layout::Field;
use ell_ops::{Op, Reply};
use ell_word::{Link, State, Update};

/// A node with its key.
#[derive(Clone, Copy)]
pub(crate) struct KeyedNode {
    pub node: u64,
    pub key: u64,
}

/// Takes an operation in hand.
pub(crate) fn begin<M: Memory, G: StepGate>(steps: TableSteps<M, G>, pass: &mut Pass<M>, op: Op)
    requires own { pass.old.table ≡ steps.table.now.id }
    requires free { IsFree pass.old.view }
    requires may { MayChange (worker_of pass.old.view.worker) (key_of op) }
    ensures begins { Begins op [] pass.old.view.hindered pass.old pass.new }
    ensures sees { SeesBegin op pass.old.sight pass.new.sight }
{
    steps.begin(pass, op);
}

/// Starts the search of the operation in hand anew.
pub(crate) fn again<M: Memory, G: StepGate>(steps: TableSteps<M, G>, pass: &mut Pass<M>)
    requires own { pass.old.table ≡ steps.table.now.id }
    requires may { MayStop (worker_of pass.old.view.worker) }
    // Where cards come back, the pass has retired all that its card in hand made dead.
    requires retired { LetsGo steps.table.now.plan pass.old }
    ensures begins { (op : Op) → Does pass.old.view op →
        Begins op (way_of op pass.old.view) (tries_hindered pass.old.view) pass.old pass.new }
    ensures sight { pass.new.sight ≡ pass.old.sight }
{
    steps.again(pass);
}

/// Gives the operation in hand up without an answer.
pub(crate) fn leave<M: Memory, G: StepGate>(steps: TableSteps<M, G>, pass: &mut Pass<M>)
    requires own { pass.old.table ≡ steps.table.now.id }
    requires may { MayStop (worker_of pass.old.view.worker) }
    // Where cards come back, the pass has retired all that its card in hand made dead.
    requires retired { LetsGo steps.table.now.plan pass.old }
    ensures gives_up { (op : Op) → Does pass.old.view op → GivesUp op pass.old pass.new }
    ensures least { pass.old.view.next_at_least ≤ steps.entry.table.now.plan.last_card + 1 }
{
    steps.leave(pass);
}

/// Answers the operation in hand, by a reply and, if it is a delete that took a value, by that.
pub(crate) fn answer<M: Memory, G: StepGate>(
    steps: TableSteps<M, G>,
    pass: &mut Pass<M>,
    said: Reply,
    took: Option<u64>,
)
    requires own { pass.old.table ≡ steps.table.now.id }
    requires may { MayAnswer pass.old.view said took }
    // Where cards come back, the pass has retired all that its card in hand made dead.
    requires retired { LetsGo steps.table.now.plan pass.old }
    ensures answers { (op : Op) → Does pass.old.view op →
        AnswersAs SeesEnd steps.entry.table.now op said pass.old pass.new }
    ensures ended { (op : Op) → Does pass.old.view op → SeesEnd op said took pass.old.sight pass.new.sight }
    ensures hindrances { pass.new.view.hindrances ≡ pass.old.view.hindrances }
    ensures hindered { pass.new.view.hindered ≡ pass.old.view.hindered }
    ensures last { pass.new.view.answered
        ≡ answered_so pass.old.view.worker.operation pass.old.view.worker.card said took }
    ensures facts { pass.new.view.worker.knows ≡ pass.old.view.worker.knows }
    ensures least { pass.new.view.next_at_least ≡ pass.old.view.next_at_least }
    ensures room { pass.new.view.next_at_least ≤ steps.entry.table.now.plan.last_card + 1 }
    ensures taken { TakesNoCard pass.old pass.new }
    ensures took { Took pass.old pass.new 1 }
{
    steps.answer(pass, said, took);
}

/// Reads the key of a node that the pass has met.
pub(crate) fn read_key<M: Memory, G: StepGate>(
    steps: TableSteps<M, G>,
    pass: &mut Pass<M>,
    node: u64,
) -> KeyedNode
    requires own { pass.old.table ≡ steps.table.now.id }
    requires met { IsTold pass.old.view (told.Met node) }
    ensures keeps_all { KeepsAll pass.old pass.new 1 }
    ensures node { result.node ≡ node }
    ensures told { IsTold pass.new.view (told.Key node result.key) }
{
    let key = steps.key_of(pass, node);
    pass.count(1);
    KeyedNode { node, key }
}

/// Reads a word of a card that the pass knows flagged or marked.
pub(crate) fn read_info<M: Memory, G: StepGate>(
    steps: TableSteps<M, G>,
    pass: &mut Pass<M>,
    card: u64,
    field: Field,
) -> u64
    requires own { pass.old.table ≡ steps.table.now.id }
    requires may { MayAsk pass.old.view card field }
    ensures keeps_all { KeepsAll pass.old pass.new 1 }
    ensures told { IsTold pass.new.view (told.Info card field (says_by field result)) }
    ensures met { NamesNode field → IsTold pass.new.view (told.Met (says_by field result)) }
    ensures node { TellsNode steps.entry.table.now.plan.last_card field result }
    ensures shallow { IsShallow (deepest steps.entry.table.now.plan) pass.new.view (says_by field result) }
    ensures deeper { depth_there pass.old.view card field ≤ depth_of pass.new.view (says_by field result) }
{
    steps.info(pass, card, field)
}

/// Reads the leaf of a card that the pass knows flagged or marked, with the tag that the card expects.
pub(crate) fn read_leaf<M: Memory, G: StepGate>(
    steps: TableSteps<M, G>,
    pass: &mut Pass<M>,
    card: u64,
) -> Link
    requires own { pass.old.table ≡ steps.table.now.id }
    requires may { MayAsk pass.old.view card field.L }
    ensures keeps_all { KeepsAll pass.old pass.new 1 }
    ensures told { IsTold pass.new.view (told.Info card field.L result.node) }
    ensures expects { IsTold pass.new.view (told.Expects card result.tag) }
{
    let word = steps.info(pass, card, Field::L);
    Link::of(word)
}

/// Reads a child of the parent that a card has marked.
pub(crate) fn read_child<M: Memory, G: StepGate>(
    steps: TableSteps<M, G>,
    pass: &mut Pass<M>,
    card: u64,
    parent: u64,
    right: bool,
) -> u64
    requires own { pass.old.table ≡ steps.table.now.id }
    requires may { KnowsPlace pass.old.view (fact.Marked card) card field.P parent }
    ensures keeps_all { KeepsAll pass.old pass.new 1 }
    ensures told { IsTold pass.new.view (told.Frozen card right result) }
    ensures met { IsTold pass.new.view (told.Met result) }
{
    let child = steps.frozen_child(pass, card, parent, right);
    child.node
}

/// Makes the child exchange of an insert or a swap, given the leaf with the tag that the card expects.
pub(crate) fn change_child<M: Memory, G: StepGate>(
    steps: TableSteps<M, G>,
    pass: &mut Pass<M>,
    card: u64,
    parent: KeyedNode,
    leaf: Link,
    right_key: u64,
    left_key: u64,
)
    requires own { pass.old.table ≡ steps.table.now.id }
    requires flagged { Knows pass.old.view (fact.IFlagged card) }
    requires parent { IsTold pass.old.view (told.Info card field.P parent.node) }
    requires parent_key { IsTold pass.old.view (told.Key parent.node parent.key) }
    requires leaf { IsTold pass.old.view (told.Info card field.L leaf.node) }
    requires expects { IsTold pass.old.view (told.Expects card leaf.tag) }
    requires right_key { IsTold pass.old.view (told.Info card field.RightLeafKey right_key) }
    requires left_key { IsTold pass.old.view (told.Info card field.LeftLeafKey left_key) }
    ensures keeps_all { KeepsAll pass.old pass.new 1 }
    ensures changed { Knows pass.new.view (fact.IChanged card) }
{
    let replaces = left_key == right_key;
    let right = parent.key <= right_key;
    steps.ichild(pass, card, parent.node, leaf, replaces, right);
}

/// Takes the flag of an insert away.
pub(crate) fn clear_insert<M: Memory, G: StepGate>(
    steps: TableSteps<M, G>,
    pass: &mut Pass<M>,
    card: u64,
    parent: u64,
)
    requires own { pass.old.table ≡ steps.table.now.id }
    requires changed { Knows pass.old.view (fact.IChanged card) }
    requires parent { IsTold pass.old.view (told.Info card field.P parent) }
    ensures keeps_all { KeepsAll pass.old pass.new 1 }
    ensures over { Knows pass.new.view (fact.IOver card) }
{
    steps.iunflag(pass, card, parent);
}

/// Marks the parent of a delete. Returns `None` if its mark stands now, and otherwise the update that was found in its
/// place.
pub(crate) fn set_mark<M: Memory, G: StepGate>(
    steps: TableSteps<M, G>,
    pass: &mut Pass<M>,
    card: u64,
    parent: u64,
    was: u64,
) -> Option<Update>
    requires own { pass.old.table ≡ steps.table.now.id }
    requires flagged { Knows pass.old.view (fact.DFlagged card) }
    requires parent { IsParent steps.table.now.plan.last_card pass.old.view card parent }
    requires read { IsTold pass.old.view (told.Info card field.Was was) }
    ensures keeps_but_met { KeepsAllButMet pass.old pass.new 1 }
    ensures hindrances { pass.new.view.hindrances ≡ met_by_mark card result pass.old.view }
    ensures marked { result ≡ None → Knows pass.new.view (fact.Marked card) }
    ensures lost { IfSome result
        (λ found. IsLost steps.entry.table.now.plan.last_card card parent found pass.new.view) }
{
    let marked = steps.mark(pass, card, parent, was);
    found_instead(card, marked)
}

// What a mark found in its place, if it does not stand.
fn found_instead(card: u64, marked: Result<(), Update>) -> Option<Update>
    ensures { result ≡ found_instead card marked }
{
    match marked {
        Err(found) if !is_mark(card, found) => Some(found),
        _ => None,
    }
}

// Whether an update is the mark of a card.
fn is_mark(card: u64, update: Update) -> bool
    ensures { result ≡ is_mark_of card update.state update.card }
{
    match update.state {
        State::Mark => update.card == card,
        State::IFlag | State::DFlag | State::Clean => false,
    }
}

/// Makes the child exchange of a delete, given the parent with the tag that the card expects.
pub(crate) fn cut_parent<M: Memory, G: StepGate>(
    steps: TableSteps<M, G>,
    pass: &mut Pass<M>,
    card: u64,
    grandparent: KeyedNode,
    parent: Link,
    sibling: KeyedNode,
)
    requires own { pass.old.table ≡ steps.table.now.id }
    requires marked { KnowsMark pass.old.view card grandparent.node parent.node }
    requires expects { IsTold pass.old.view (told.Expects card parent.tag) }
    requires above { IsTold pass.old.view (told.Key grandparent.node grandparent.key) }
    requires sibling { HasSibling pass.old.view card sibling }
    ensures keeps_all { KeepsAll pass.old pass.new 1 }
    ensures cut { Knows pass.new.view (fact.Cut card) }
{
    let right = grandparent.key <= sibling.key;
    steps.dchild(pass, card, grandparent.node, parent, sibling.node, right);
}

/// Takes the flag of a delete away after its child exchange.
pub(crate) fn clear_delete<M: Memory, G: StepGate>(
    steps: TableSteps<M, G>,
    pass: &mut Pass<M>,
    card: u64,
    grandparent: u64,
)
    requires own { pass.old.table ≡ steps.table.now.id }
    requires cut { Knows pass.old.view (fact.Cut card) }
    requires grandparent { IsTold pass.old.view (told.Info card field.Gp grandparent) }
    ensures keeps_all { KeepsAll pass.old pass.new 1 }
    ensures over { Knows pass.new.view (fact.DOver card) }
{
    steps.dunflag(pass, card, grandparent);
}

/// Takes the flag of a delete away after its lost mark.
pub(crate) fn go_back<M: Memory, G: StepGate>(
    steps: TableSteps<M, G>,
    pass: &mut Pass<M>,
    card: u64,
    grandparent: u64,
)
    requires own { pass.old.table ≡ steps.table.now.id }
    requires unmarkable { Knows pass.old.view (fact.Unmarkable card) }
    requires grandparent { IsTold pass.old.view (told.Info card field.Gp grandparent) }
    ensures keeps_all { KeepsAll pass.old pass.new 1 }
    ensures backed { Knows pass.new.view (fact.Backed card) }
{
    steps.backtrack(pass, card, grandparent);
}
