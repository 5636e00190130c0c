//! Inserts (paper of 2010, figure 8: Insert), and swaps, which work the same way.
ghost use Rattle.std.specs.Prelude.{[], ◌∷◌, ◌≢◌, ◌≡◌, ◌≤◌, ◌+◌, Some, None};
ghost use Rattle.ell_word.specs.Link.{greatest_tag};
ghost use Rattle.ell_word.specs.Node.{greatest_number};
ghost use Rattle.ell_core.specs.acts.Searching.{put_of};
ghost use Rattle.ell_core.specs.declared.fact.Fact.TheVariants.{IFlagged};
ghost use Rattle.ell_tree.specs.CardsTaken.{TakesNoCard, TryTakes};
ghost use Rattle.ell_tree.specs.Ends.{try_steps_in};
ghost use Rattle.ell_tree.specs.Keeping.{Keeps, IsInnerMet};
ghost use Rattle.ell_tree.specs.Searches.{AtRoot};
ghost use Rattle.ell_tree.specs.Tries.{told_of_put, put_reply, Fills, Flags, HasCardToPut, TryEnds};
ghost use Rattle.ell_core.specs.tree.Flat.{IsNodeKey};
ghost use Rattle.ell_runs.specs.Plans.{flat_from, new_node};
ghost use Rattle.ell_runs.specs.Sayings.{put_says};
ghost use Rattle.ell_cards.specs.Stepping.{HasSlotOf, IsWholeIn};

use crate::helping::{finish_insert, help};
use crate::searching::{Place, node_with, search};
use crate::steps::answer;
use crate::trying::Tried;
use ell_block::branch;
use ell_cards::{CardTable, Claimed, Memory, Pass, StepGate, TableSteps};
use ell_core::Put;
use ell_layout::{Field, card_children, update_word};
use ell_ops::{Op, Reply};
use ell_word::{State, Update, child_word};

/// One try of an insert or a swap that puts this.
pub(crate) fn try_put<M: Memory, G: StepGate>(
    steps: TableSteps<M, G>,
    pass: &mut Pass<M>,
    op: Op,
    what: Put,
) -> Tried
    requires own { pass.old.table ≡ steps.table.now.id }
    requires puts { put_of op ≡ Some what }
    requires root { AtRoot op pass.old.view }
    ensures steps { pass.new.steps + 1 ≤ pass.old.steps + try_steps_in steps.entry.table.now.plan }
    ensures made { steps.entry.table.now.plan.slots ≡ None →
        pass.new.view.made + 1 ≤ pass.old.view.made + try_steps_in steps.entry.table.now.plan }
    ensures ends { TryEnds steps.entry.table.now op pass.old pass.new result }
    ensures taken { steps.entry.table.now.plan.slots ≡ None → TryTakes op pass.old pass.new result }
    ensures least { pass.old.view.next_at_least ≤ pass.new.view.next_at_least }
    ensures hindered { pass.new.view.hindered ≡ pass.old.view.hindered }
{
    let place = search(steps, pass, op);
    if !what.may_replace(place.key, place.value) {
        let found = told_of_put(what, place);
        answer(steps, pass, Reply::found(found), None);
        return Tried::Answered(found);
    }
    let (parent, update) = (place.parent.node, place.parent.update);
    if update.state != State::Clean {
        help(steps, pass, parent, update);
        return Tried::Hindered;
    }
    let node_key = node_key(steps.table, what.key, place.key);
    let card = match steps.take_card(pass, false, node_key) {
        Claimed::Card(card) => card,
        Claimed::NoneLeft => return Tried::Spent,
        Claimed::Lost => return Tried::Hindered,
    };
    match flag_insert(steps, pass, card, what, place, node_key) {
        Ok(()) => {
            let (left_key, right_key) = (what.key.min(place.key), what.key.max(place.key));
            let below = node_with(place, place.parent.tag);
            finish_insert(steps, pass, card, parent, below, right_key, left_key);
            steps
                .table
                .retire_put(pass, card, what, place.node, place.key);
            answer(steps, pass, reply_once_done(what), None);
            Tried::Answered(Some(what.was.unwrap_or(what.value)))
        }
        Err(found) => {
            help(steps, pass, parent, found);
            Tried::Hindered
        }
    }
}

// The key of an internal node over two keys: the greater one, in a flat tree their branch, if they are two.
fn node_key<M: Memory>(table: &CardTable<M>, first: u64, second: u64) -> u64
    ensures { IsNodeKey (flat_from table.now.plan) first second result }
{
    let (lesser, greater) = (first.min(second), first.max(second));
    if table.is_flat() && lesser < greater {
        branch(lesser, greater)
    } else {
        greater
    }
}

// What a swap finds for its key at the leaf where its search ended; an insert is told nothing.
fn told_of_put(what: Put, place: Place) -> Option<u64>
    ensures { result ≡ told_of_put what place }
{
    match what.was {
        Some(_) if place.key == what.key => Some(place.value),
        _ => None,
    }
}

// What an insert or a swap that has changed the map answers.
fn reply_once_done(what: Put) -> Reply
    ensures { result ≡ put_reply what.was }
{
    match what.was {
        None => Reply::Yes,
        Some(was) => Reply::Found(was),
    }
}

// Fills the card of an insert or a swap, and flags the parent with it.
fn flag_insert<M: Memory, G: StepGate>(
    steps: TableSteps<M, G>,
    pass: &mut Pass<M>,
    card: u64,
    what: Put,
    place: Place,
    node_key: u64,
) -> Result<(), Update>
    requires own { pass.old.table ≡ steps.table.now.id }
    requires limit { card ≤ greatest_number }
    requires slot { HasSlotOf steps.table.now.plan card pass.old }
    requires tag { place.parent.tag ≤ greatest_tag }
    requires card { HasCardToPut what place (new_node steps.table.now.plan node_key) pass.old.view card }
    requires node { IsInnerMet steps.table.now.plan.last_card pass.old.view place.parent.node }
    ensures keeps { Keeps pass.old pass.new 11 }
    ensures taken { TakesNoCard pass.old pass.new }
    ensures flags { Flags steps.entry.table.now.plan.last_card IFlagged card place.parent.node pass.old pass.new
        result }
{
    fill_insert(steps, pass, card, what, place, node_key);
    steps.iflag(pass, card, place.parent.node, place.parent.update)
}

// Fills the card of an insert or a swap: the node where its search ended, with the tag that was read at the parent; an
// internal node; and below it the leaf of the key and a copy of the old leaf, or in a flat tree the old node itself, the
// lesser key left, each with its value. Of each child it stores the child word with tag 0.
fn fill_insert<M: Memory, G: StepGate>(
    steps: TableSteps<M, G>,
    pass: &mut Pass<M>,
    card: u64,
    what: Put,
    place: Place,
    node_key: u64,
)
    requires own { pass.old.table ≡ steps.table.now.id }
    requires limit { card ≤ greatest_number }
    requires slot { HasSlotOf steps.table.now.plan card pass.old }
    requires tag { place.parent.tag ≤ greatest_tag }
    requires card { HasCardToPut what place (new_node steps.table.now.plan node_key) pass.old.view card }
    ensures fills { Fills pass.old pass.new 10 }
    ensures whole { steps.entry.table.now.plan.slots ≢ None → IsWholeIn pass.new card put_says }
{
    steps.table.facts_stay_inside(pass);
    let Put { key, value, was: _ } = what;
    let (lesser, greater) = (key.min(place.key), key.max(place.key));
    let (left, right) = card_children(steps.table.is_flat(), card, key, place.node, place.key);
    let (left_value, right_value) = if key < place.key {
        (value, place.value)
    } else {
        (place.value, value)
    };
    steps.fill(pass, card, Field::P, place.parent.node);
    let below = node_with(place, place.parent.tag).word();
    steps.fill(pass, card, Field::L, below);
    steps.fill(pass, card, Field::Key, node_key);
    steps.fill(pass, card, Field::Left, child_word(left));
    steps.fill(pass, card, Field::Right, child_word(right));
    let clean = update_word(State::Clean, 0);
    steps.fill(pass, card, Field::Update, clean);
    steps.fill(pass, card, Field::LeftLeafKey, lesser);
    steps.fill(pass, card, Field::RightLeafKey, greater);
    steps.fill(pass, card, Field::LeftValue, left_value);
    steps.fill(pass, card, Field::RightValue, right_value);
}
