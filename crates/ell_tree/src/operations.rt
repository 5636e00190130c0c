//! The operations: find, insert, delete and swap.
ghost use Rattle.std.specs.Prelude.{◌≡◌, ◌≢◌, ◌<◌, ◌≤◌, ◌+◌, ◌*◌, true, Err, IfOk, None};
ghost use Rattle.ell_ops.specs.declared.op.Op.{Op};
ghost use Rattle.ell_ops.specs.declared.op.Op.TheVariants.{Find};
ghost use Rattle.ell_ops.specs.Meaning.{key_of, found};
ghost use Rattle.ell_core.specs.acts.Searching.{MayStop};
ghost use Rattle.ell_core.specs.state.Machine.{worker_of};
ghost use Rattle.ell_runs.specs.Changes.{tries_hindered};
ghost use Rattle.ell_runs.specs.Views.{Does};
ghost use Rattle.ell_cards.specs.Stepping.{LetsGo};
ghost use Rattle.ell_tree.specs.CardsTaken.{TakesNoCard, TryTakes};
ghost use Rattle.ell_tree.specs.Counts.{Took};
ghost use Rattle.ell_tree.specs.Ends.{try_steps_in, Answers, Ends, TakesIfDelete, changed_by, find_steps, replied_by, try_steps};
ghost use Rattle.ell_tree.specs.Hindrances.{way_of};
ghost use Rattle.ell_tree.specs.declared.operations.NotDone.TheVariants.{Busy};
ghost use Rattle.ell_tree.specs.Promises.{IsOthersDoing, IsQuiet, IsWithin, MayDo, SpendsCards};
ghost use Rattle.ell_tree.specs.Searches.{AtRoot};
ghost use Rattle.ell_tree.specs.Tries.{Begins, IsChange, TryEnds, TryTakesValue};
ghost use Rattle.ell_runs.specs.Depths.{deepest};

use crate::deleting::try_delete;
use crate::inserting::try_put;
use crate::searching::search;
use crate::steps::{again, answer, begin, leave};
use crate::trying::Tried;
use ell_cards::{Memory, Pass, StepGate, TableSteps};
use ell_core::Put;
use ell_ops::{Op, Reply};
use thiserror::Error;

/// Why an insert, a delete or a swap has no answer. The map is as it was before, and nothing of the call is under way.
#[derive(Clone, Copy, Debug, PartialEq, Eq, Error)]
pub enum NotDone {
    /// All tries ended without an answer: something was in the way of each.
    #[error("something was in the way of each try")]
    Busy,
    /// All cards of the tree are given out; or, where cards come back, no slot could be taken, as `Tree::insert` says.
    #[error("no card is free for the change")]
    Spent,
}

/// Returns the value of a key, if the key is present. It never helps another operation.
pub(crate) fn find<M: Memory, G: StepGate>(
    steps: TableSteps<M, G>,
    pass: &mut Pass<M>,
    key: u64,
) -> Option<u64>
    requires may { MayDo steps.table.now key pass.old }
    ensures answers { Answers steps.entry.table.now (Find key) (found result) pass.old pass.new }
    ensures quiet { IsQuiet steps.entry.table.now pass.old pass.new }
    ensures steps { Took pass.old pass.new (find_steps (deepest steps.entry.table.now.plan)) }
    ensures cards { TakesNoCard pass.old pass.new }
{
    let op = Op::Find(key);
    steps.start(pass);
    begin(steps, pass, op);
    let place = search(steps, pass, op);
    let there = (place.key == key).then_some(place.value);
    answer(steps, pass, Reply::found(there), None);
    steps.end(pass, true);
    there
}

/// Takes an insert, a delete or a swap in hand, and tries it, at most the given number of times, until a try is
/// answered or finds no card. Returns the value that an insert adds or a delete takes away, if it changes the map, or
/// that a swap finds. The gate is told of its start and its end.
pub(crate) fn change<M: Memory, G: StepGate>(
    steps: TableSteps<M, G>,
    pass: &mut Pass<M>,
    op: Op,
    tries: u32,
) -> Result<Option<u64>, NotDone>
    requires may { MayDo steps.table.now (key_of op) pass.old }
    requires change { IsChange op }
    requires tries { 1 ≤ tries }
    ensures ends { Ends steps.entry.table.now tries op pass.old pass.new (replied_by op result) }
    ensures takes { IfOk result (TakesIfDelete steps.entry.table.now op pass.old pass.new) }
    ensures others { result ≡ Err Busy → IsOthersDoing steps.entry.table.now tries pass.old pass.new }
    ensures steps { IsWithin steps.entry.table.now tries pass.old pass.new }
    ensures cards { steps.entry.table.now.plan.slots ≡ None →
        SpendsCards (key_of op) tries pass.old pass.new (changed_by op result) }
    ensures enough { 2 * steps.entry.table.now.plan.last_card < tries → result ≢ Err Busy }
{
    steps.start(pass);
    begin(steps, pass, op);
    for round in 0..tries {
        restart(steps, pass, round == 0);
        match try_once(steps, pass, op) {
            Tried::Answered(had) => {
                steps.end(pass, true);
                return Ok(had);
            }
            Tried::Spent => {
                leave(steps, pass);
                steps.end(pass, false);
                return Err(NotDone::Spent);
            }
            Tried::Hindered => {}
        }
    }
    leave(steps, pass);
    steps.end(pass, false);
    Err(NotDone::Busy)
}

// Starts the search anew, unless this is the first try.
fn restart<M: Memory, G: StepGate>(steps: TableSteps<M, G>, pass: &mut Pass<M>, first: bool)
    requires own { pass.old.table ≡ steps.table.now.id }
    requires may { MayStop (worker_of pass.old.view.worker) }
    // Where cards come back, the pass has retired all that its card in hand made dead.
    requires retired { LetsGo steps.table.now.plan pass.old }
    ensures begins { (op : Op) → Does pass.old.view op → (first ≡ true → AtRoot op pass.old.view) →
        Begins op (way_of op pass.old.view) (tries_hindered pass.old.view) pass.old pass.new }
    ensures first { first ≡ true → pass.new ≡ pass.old }
    ensures sight { pass.new.sight ≡ pass.old.sight }
{
    if !first {
        again(steps, pass);
    }
}

// One try of an insert, a delete or a swap.
fn try_once<M: Memory, G: StepGate>(steps: TableSteps<M, G>, pass: &mut Pass<M>, op: Op) -> Tried
    requires own { pass.old.table ≡ steps.table.now.id }
    requires change { IsChange op }
    requires root { AtRoot op pass.old.view }
    // It makes at most `7 * depth + 26` steps.
    ensures steps { pass.new.steps + 1 ≤ pass.old.steps + try_steps_in steps.entry.table.now.plan }
    ensures made { steps.entry.table.now.plan.slots ≡ None →
        pass.new.view.made + 1 ≤ pass.old.view.made + try_steps_in steps.entry.table.now.plan }
    // It is answered as the operation, or has met something in its way and learned of a milestone, or finds no card
    // left. It takes one card at most.
    ensures ends { TryEnds steps.entry.table.now op pass.old pass.new result }
    ensures takes { TryTakesValue steps.entry.table.now op pass.old pass.new result }
    ensures taken { steps.entry.table.now.plan.slots ≡ None → TryTakes op pass.old pass.new result }
    ensures least { pass.old.view.next_at_least ≤ pass.new.view.next_at_least }
    ensures hindered { pass.new.view.hindered ≡ pass.old.view.hindered }
{
    match (op, Put::of(op)) {
        (_, Some(what)) => try_put(steps, pass, op, what),
        (Op::Delete(key), None) => try_delete(steps, pass, key),
        (_, None) => unreachable!(),
    }
}
