//! Deletes (paper of 2010, figure 9: Delete).
ghost use Rattle.std.specs.Prelude.{[], ◌∷◌, true, ◌≢◌, ◌≡◌, ◌≤◌, ◌+◌, ℕ, Some, None};
ghost use Rattle.std.specs.Bool.{OnTrue, OnFalse};
ghost use Rattle.ell_ops.specs.declared.op.Op.TheVariants.{Delete};
ghost use Rattle.ell_word.specs.Link.{greatest_tag};
ghost use Rattle.ell_word.specs.Node.{greatest_number};
ghost use Rattle.ell_word.specs.Word.{packed};
ghost use Rattle.ell_core.specs.declared.fact.Fact.TheVariants.{DFlagged, DOver};
ghost use Rattle.ell_layout.specs.declared.field.Field.TheVariants as field;
ghost use Rattle.ell_layout.specs.Cards.{delete_filling};
ghost use Rattle.ell_runs.specs.declared.view.Told.TheVariants.{Info};
ghost use Rattle.ell_runs.specs.Views.{IsTold, Knows};
ghost use Rattle.ell_tree.specs.CardsTaken.{TakesNoCard, TryTakes};
ghost use Rattle.ell_tree.specs.Ends.{try_steps_in, rest_steps_in};
ghost use Rattle.ell_tree.specs.Helps.{IsBacked, IsParent, help_steps};
ghost use Rattle.ell_tree.specs.Hindrances.{Meets};
ghost use Rattle.ell_tree.specs.Keeping.{Keeps, IsInnerMet, KeepsAllButMet};
ghost use Rattle.ell_tree.specs.Searches.{AtRoot, HasSearched};
ghost use Rattle.ell_tree.specs.Tries.{Fills, Flags, HasCard, TryEnds, TryTook, TryTookThis};
ghost use Rattle.ell_runs.specs.Depths.{deepest};
ghost use Rattle.ell_runs.specs.Sayings.{delete_says};
ghost use Rattle.ell_cards.specs.Stepping.{HasSlotOf, IsWholeIn};

use crate::helping::{DeleteFlag, Ending, finish_delete, help, help_delete};
use crate::searching::{Passed, Place, node_with, search};
use crate::steps::answer;
use crate::trying::Tried;
use ell_cards::{Claimed, Memory, Pass, StepGate, TableSteps};
use ell_layout::Field;
use ell_ops::{Op, Reply};
use ell_word::{State, Update, pack};

/// One try of a delete.
pub(crate) fn try_delete<M: Memory, G: StepGate>(
    steps: TableSteps<M, G>,
    pass: &mut Pass<M>,
    key: u64,
) -> Tried
    requires own { pass.old.table ≡ steps.table.now.id }
    requires root { AtRoot (Delete key) pass.old.view }
    ensures steps { pass.new.steps + 1 ≤ pass.old.steps + try_steps_in steps.entry.table.now.plan }
    ensures made { steps.entry.table.now.plan.slots ≡ None →
        pass.new.view.made + 1 ≤ pass.old.view.made + try_steps_in steps.entry.table.now.plan }
    ensures ends { TryEnds steps.entry.table.now (Delete key) pass.old pass.new result }
    ensures took { TryTook steps.entry.table.now key pass.old pass.new result }
    ensures taken { steps.entry.table.now.plan.slots ≡ None → TryTakes (Delete key) pass.old pass.new result }
    ensures least { pass.old.view.next_at_least ≤ pass.new.view.next_at_least }
    ensures hindered { pass.new.view.hindered ≡ pass.old.view.hindered }
{
    let place = search(steps, pass, Op::Delete(key));
    if place.key != key {
        answer(steps, pass, Reply::No, None);
        return Tried::Answered(None);
    }
    delete_at(steps, pass, key, place)
}

/// What a try of a delete does once its search has ended at a leaf that has the key.
pub(crate) fn delete_at<M: Memory, G: StepGate>(
    steps: TableSteps<M, G>,
    pass: &mut Pass<M>,
    key: u64,
    place: Place,
) -> Tried
    requires own { pass.old.table ≡ steps.table.now.id }
    requires searched { HasSearched steps.table.now.plan (Delete key) place pass.old.view }
    requires key { place.key ≡ key }
    ensures steps { pass.new.steps + 1 ≤ pass.old.steps + rest_steps_in steps.entry.table.now.plan }
    ensures made { steps.entry.table.now.plan.slots ≡ None →
        pass.new.view.made + 1 ≤ pass.old.view.made + rest_steps_in steps.entry.table.now.plan }
    ensures ends { TryEnds steps.entry.table.now (Delete key) pass.old pass.new result }
    ensures took { TryTook steps.entry.table.now key pass.old pass.new result }
    ensures value { TryTookThis place.value result }
    ensures taken { steps.entry.table.now.plan.slots ≡ None → TryTakes (Delete key) pass.old pass.new result }
    ensures least { pass.old.view.next_at_least ≤ pass.new.view.next_at_least }
    ensures hindered { pass.new.view.hindered ≡ pass.old.view.hindered }
{
    // A leaf of a real key has a grandparent.
    let Some(above) = place.grandparent else {
        return Tried::Hindered;
    };
    if above.update.state != State::Clean {
        help(steps, pass, above.node, above.update);
        return Tried::Hindered;
    }
    let parent = place.parent;
    if parent.update.state != State::Clean {
        help(steps, pass, parent.node, parent.update);
        return Tried::Hindered;
    }
    let card = match steps.take_card(pass, true, 0) {
        Claimed::Card(card) => card,
        Claimed::NoneLeft => return Tried::Spent,
        Claimed::Lost => return Tried::Hindered,
    };
    if let Err(found) = flag_delete(steps, pass, card, above, place) {
        help(steps, pass, above.node, found);
        return Tried::Hindered;
    }
    if !finish_own(steps, pass, card, above.node, place.parent) {
        steps.table.retire_backed(pass, card);
        return Tried::Hindered;
    }
    steps
        .table
        .retire_deleted(pass, card, parent.node, place.node);
    answer(steps, pass, Reply::Yes, Some(place.value));
    Tried::Answered(Some(place.value))
}

// Fills the card of a delete, and flags the grandparent with it.
fn flag_delete<M: Memory, G: StepGate>(
    steps: TableSteps<M, G>,
    pass: &mut Pass<M>,
    card: u64,
    above: Passed,
    place: Place,
) -> Result<(), Update>
    requires own { pass.old.table ≡ steps.table.now.id }
    requires above { place.grandparent ≡ Some above }
    requires limit { place.parent.update.card ≤ greatest_number }
    requires tag { above.tag ≤ greatest_tag }
    requires slot { HasSlotOf steps.table.now.plan card pass.old }
    requires card { (key : ℕ) × HasCard (Delete key) place above.tag
        (delete_filling above.node place.parent.node place.node (packed place.parent.update)) pass.old.view card }
    requires node { IsInnerMet steps.table.now.plan.last_card pass.old.view above.node }
    ensures keeps { Keeps pass.old pass.new 5 }
    ensures taken { TakesNoCard pass.old pass.new }
    ensures flags { Flags steps.entry.table.now.plan.last_card DFlagged card above.node pass.old pass.new result }
{
    fill_delete(steps, pass, card, above, place);
    steps.dflag(pass, card, above.node, above.update)
}

// Fills the card of a delete: where it cuts, with the tag that its search read at the grandparent, and the update that it
// read at the parent.
fn fill_delete<M: Memory, G: StepGate>(
    steps: TableSteps<M, G>,
    pass: &mut Pass<M>,
    card: u64,
    above: Passed,
    place: Place,
)
    requires own { pass.old.table ≡ steps.table.now.id }
    requires above { place.grandparent ≡ Some above }
    requires limit { place.parent.update.card ≤ greatest_number }
    requires tag { above.tag ≤ greatest_tag }
    requires slot { HasSlotOf steps.table.now.plan card pass.old }
    requires card { (key : ℕ) × HasCard (Delete key) place above.tag
        (delete_filling above.node place.parent.node place.node (packed place.parent.update)) pass.old.view card }
    ensures fills { Fills pass.old pass.new 4 }
    ensures whole { steps.entry.table.now.plan.slots ≢ None → IsWholeIn pass.new card delete_says }
{
    steps.table.facts_stay_inside(pass);
    steps.fill(pass, card, Field::Gp, above.node);
    steps.fill(pass, card, Field::P, place.parent.node);
    let leaf = node_with(place, above.tag).word();
    steps.fill(pass, card, Field::L, leaf);
    let was = pack(place.parent.update);
    steps.fill(pass, card, Field::Was, was);
}

// HelpDelete of the call's own card, whose flag was won. Returns whether its parent was cut out.
#[tactic(auto, using(crate::proofs::lemmas::Keeping::keeps_all_told, crate::proofs::lemmas::Keeping::keeps_all_knows))]
fn finish_own<M: Memory, G: StepGate>(
    steps: TableSteps<M, G>,
    pass: &mut Pass<M>,
    card: u64,
    grandparent: u64,
    parent: Passed,
) -> bool
    requires own { pass.old.table ≡ steps.table.now.id }
    requires limit { parent.update.card ≤ greatest_number }
    requires knows { Knows pass.old.view (DFlagged card) }
    requires grandparent { IsTold pass.old.view (Info card field.Gp grandparent) }
    requires node { IsInnerMet steps.table.now.plan.last_card pass.old.view grandparent }
    requires parent { IsParent steps.table.now.plan.last_card pass.old.view card parent.node }
    requires read { IsTold pass.old.view (Info card field.Was (packed parent.update)) }
    ensures keeps_but_met { KeepsAllButMet pass.old pass.new (help_steps (deepest steps.entry.table.now.plan) + 2) }
    ensures meets { Meets pass.old.view pass.new.view }
    ensures done { OnTrue result (Knows pass.new.view (DOver card)) }
    ensures backed { OnFalse result (IsBacked card pass.old.view pass.new.view) }
{
    let flag = DeleteFlag { card, grandparent };
    let was = pack(parent.update);
    match finish_delete(steps, pass, flag, parent.node, was) {
        Ending::Done => true,
        Ending::Backed => false,
        Ending::Behind(next) => {
            help_delete(steps, pass, next);
            false
        }
    }
}
