//! A call that removes a key if it has a certain value, in one atomic step.
ghost use Rattle.std.specs.Prelude.{true, ◌≡◌, ◌≢◌, ◌<◌, ◌≤◌, ◌*◌, Err, IfOk, IfErr, None};
ghost use Rattle.ell_tree.specs.Computing.{round_steps_in, update_steps_in, AreTriedOrRead, IsNotDone, RemovesIf, RemovesOnce, RemovesOrReads, round_steps, update_steps, whether_done};
ghost use Rattle.ell_tree.specs.Counts.{TookIn, Took};
ghost use Rattle.ell_tree.specs.Ends.{change_steps_in, CountsTries, change_steps, is_value, whether_swapped};
ghost use Rattle.ell_tree.specs.Ledgers.{Owns};
ghost use Rattle.ell_tree.specs.Promises.{IsOthersDoing, MayDo, SpendsCards};
ghost use Rattle.ell_tree.specs.declared.operations.NotDone.TheVariants.{Busy};
ghost use Rattle.ell_runs.specs.Depths.{deepest};

use crate::computing::Replaced;
use crate::deleting::delete_at;
use crate::operations::{NotDone, find};
use crate::searching::search;
use crate::steps::{begin, leave};
use crate::trying::Tried;
use ell_cards::{Memory, Pass, StepGate, TableSteps};
use ell_ops::Op;

/// Reads a key, and removes it if it has the value `was`, unless another pass has changed the key in the meantime: then
/// it reads the key again. It makes at most the given number of tries; each begins with what is there. Returns what it
/// found, so it has removed the key exactly if that is `was`.
pub(crate) fn remove_if<M: Memory, G: StepGate>(
    steps: TableSteps<M, G>,
    pass: &mut Pass<M>,
    key: u64,
    was: u64,
    tries: u32,
) -> Result<Option<u64>, NotDone>
    requires may { MayDo steps.table.now key pass.old }
    requires tries { 1 ≤ tries }
    ensures removes { IfOk result (RemovesIf steps.entry.table.now key was pass.old pass.new) }
    ensures not_done { IfErr result (IsNotDone steps.entry.table.now key pass.old pass.new) }
    ensures tried { result ≡ Err Busy → AreTriedOrRead tries pass.old pass.new }
    ensures others { Owns pass.old key → result ≡ Err Busy →
        IsOthersDoing steps.entry.table.now tries pass.old pass.new }
    ensures steps { TookIn steps.entry.table.now.plan pass.old pass.new
        (update_steps_in steps.entry.table.now.plan tries) }
    ensures counted { CountsTries tries pass.old pass.new }
    ensures cards { steps.entry.table.now.plan.slots ≡ None →
        SpendsCards key tries pass.old pass.new (whether_swapped was result) }
    ensures enough { Owns pass.old key → 2 * steps.entry.table.now.plan.last_card < tries → result ≢ Err Busy }
{
    let mut there = find(steps, pass, key);
    for _round in 0..tries {
        if !is_value(was, there) {
            return Ok(there);
        }
        match remove_or_read(steps, pass, key, was) {
            Ok(Replaced::Done) => return Ok(there),
            Ok(Replaced::Lost(found)) => there = found,
            Err(NotDone::Busy) => {}
            Err(NotDone::Spent) => return Err(NotDone::Spent),
        }
    }
    if is_value(was, there) {
        steps.table.claims_stay_inside(pass);
        return Err(NotDone::Busy);
    }
    Ok(there)
}

// Whether a key was found with a value.
fn is_value(was: u64, there: Option<u64>) -> bool
    ensures { result ≡ is_value was there }
{
    match there {
        Some(value) => value == was,
        None => false,
    }
}

// One try to remove a key that has a value. If it has another one, or none, the key is read.
fn remove_or_read<M: Memory, G: StepGate>(
    steps: TableSteps<M, G>,
    pass: &mut Pass<M>,
    key: u64,
    was: u64,
) -> Result<Replaced, NotDone>
    requires may { MayDo steps.table.now key pass.old }
    ensures removes { RemovesOrReads steps.entry.table.now key was pass.old pass.new result }
    ensures others { result ≡ Err Busy → IsOthersDoing steps.entry.table.now 1 pass.old pass.new }
    ensures steps { TookIn steps.entry.table.now.plan pass.old pass.new (round_steps_in steps.entry.table.now.plan) }
    ensures counted { CountsTries 1 pass.old pass.new }
    ensures cards { steps.entry.table.now.plan.slots ≡ None →
        SpendsCards key 1 pass.old pass.new (whether_done result) }
{
    if remove_once(steps, pass, key, was)? {
        Ok(Replaced::Done)
    } else {
        Ok(Replaced::Lost(find(steps, pass, key)))
    }
}

// One try of a delete, if its search ends at a leaf with this value. A leaf keeps its value as long as it is there, so
// the delete takes just this one. Returns whether it has deleted the key; otherwise it is given up.
fn remove_once<M: Memory, G: StepGate>(
    steps: TableSteps<M, G>,
    pass: &mut Pass<M>,
    key: u64,
    was: u64,
) -> Result<bool, NotDone>
    requires may { MayDo steps.table.now key pass.old }
    ensures removes { RemovesOnce steps.entry.table.now key was pass.old pass.new result }
    ensures others { result ≡ Err Busy → IsOthersDoing steps.entry.table.now 1 pass.old pass.new }
    ensures steps { TookIn steps.entry.table.now.plan pass.old pass.new (change_steps_in steps.entry.table.now.plan 1) }
    ensures counted { CountsTries 1 pass.old pass.new }
    ensures cards { steps.entry.table.now.plan.slots ≡ None → SpendsCards key 1 pass.old pass.new result }
{
    let op = Op::Delete(key);
    steps.start(pass);
    begin(steps, pass, op);
    let place = search(steps, pass, op);
    let there = (place.key == key).then_some(place.value);
    if !is_value(was, there) {
        leave(steps, pass);
        steps.end(pass, false);
        return Ok(false);
    }
    match delete_at(steps, pass, key, place) {
        Tried::Answered(_) => {
            steps.end(pass, true);
            Ok(true)
        }
        Tried::Spent => {
            leave(steps, pass);
            steps.end(pass, false);
            Err(NotDone::Spent)
        }
        Tried::Hindered => {
            leave(steps, pass);
            steps.end(pass, false);
            Err(NotDone::Busy)
        }
    }
}
