//! Calls that compute what becomes of a key from what the tree has for it, and make that change in one atomic step.
ghost use Rattle.std.specs.Prelude.{◌≡◌, ◌≢◌, ◌<◌, ◌≤◌, ◌*◌, None, Err, IfOk, IfErr};
ghost use Rattle.ell_tree.specs.Computing.{update_steps_in, round_steps_in, AreTried, Computes, IsNotDone, Replaces, round_steps, update_steps, whether_done, whether_made};
ghost use Rattle.ell_tree.specs.Counts.{TookIn, Took};
ghost use Rattle.ell_tree.specs.Ends.{CountsTries};
ghost use Rattle.ell_tree.specs.Ledgers.{Owns};
ghost use Rattle.ell_tree.specs.Promises.{IsOthersDoing, MayDo, SpendsCards};
ghost use Rattle.ell_tree.specs.declared.operations.NotDone.TheVariants.{Busy};
ghost use Rattle.ell_runs.specs.Depths.{deepest};

use crate::operations::{NotDone, change, find};
use ell_cards::{Memory, Pass, StepGate, TableSteps};
use ell_ops::Op;

/// What a call found at its key, and the value that it has put in place of that, if it has put any.
#[derive(Clone, Copy)]
pub(crate) struct Computed {
    pub was: Option<u64>,
    pub made: Option<u64>,
}

/// The outcome of a try to put a value in place of what was found, or to remove that.
#[derive(Clone, Copy)]
pub(crate) enum Replaced {
    /// The value is there, or the key is removed.
    Done,
    /// Another pass had changed the key. This is what the key has now.
    Lost(Option<u64>),
}

/// Reads a key, computes its new value from what it finds, and puts that value there, if there is one, unless another
/// pass has changed the key in the meantime: then it computes the new value again from what is there now. It makes at
/// most the given number of tries; each begins with what is there.
pub(crate) fn compute<M: Memory, G: StepGate, F: Fn(Option<u64>) -> Option<u64>>(
    steps: TableSteps<M, G>,
    pass: &mut Pass<M>,
    key: u64,
    make: F,
    tries: u32,
) -> Result<Computed, NotDone>
    requires may { MayDo steps.table.now key pass.old }
    requires tries { 1 ≤ tries }
    requires make { F.IsAlwaysCallable make }
    ensures computes { IfOk result (λ done. Computes steps.entry.table.now key pass.old pass.new done.was done.made) }
    ensures makes { IfOk result (λ done. F.post make done.was done.made) }
    ensures not_done { IfErr result (IsNotDone steps.entry.table.now key pass.old pass.new) }
    ensures tried { result ≡ Err Busy → AreTried tries pass.old pass.new }
    ensures others { Owns pass.old key → result ≡ Err Busy →
        IsOthersDoing steps.entry.table.now tries pass.old pass.new }
    ensures steps { TookIn steps.entry.table.now.plan pass.old pass.new
        (update_steps_in steps.entry.table.now.plan tries) }
    ensures counted { CountsTries tries pass.old pass.new }
    ensures cards { steps.entry.table.now.plan.slots ≡ None →
        SpendsCards key tries pass.old pass.new (whether_made result) }
    ensures enough { Owns pass.old key → 2 * steps.entry.table.now.plan.last_card < tries → result ≢ Err Busy }
{
    let mut was = find(steps, pass, key);
    let mut made = make(was);
    for _round in 0..tries {
        let Some(value) = made else {
            return Ok(Computed { was, made });
        };
        match replace(steps, pass, key, was, value) {
            Ok(Replaced::Done) => return Ok(Computed { was, made }),
            Ok(Replaced::Lost(there)) => {
                was = there;
                made = make(was);
            }
            Err(NotDone::Busy) => {}
            Err(NotDone::Spent) => return Err(NotDone::Spent),
        }
    }
    if made.is_some() {
        steps.table.claims_stay_inside(pass);
        return Err(NotDone::Busy);
    }
    Ok(Computed { was, made })
}

// One try to put a value in place of what was found at a key.
fn replace<M: Memory, G: StepGate>(
    steps: TableSteps<M, G>,
    pass: &mut Pass<M>,
    key: u64,
    was: Option<u64>,
    value: u64,
) -> Result<Replaced, NotDone>
    requires may { MayDo steps.table.now key pass.old }
    ensures replaces { Replaces steps.entry.table.now key was value pass.old pass.new result }
    ensures others { result ≡ Err Busy → IsOthersDoing steps.entry.table.now 1 pass.old pass.new }
    ensures steps { TookIn steps.entry.table.now.plan pass.old pass.new (round_steps_in steps.entry.table.now.plan) }
    ensures counted { CountsTries 1 pass.old pass.new }
    ensures cards { steps.entry.table.now.plan.slots ≡ None →
        SpendsCards key 1 pass.old pass.new (whether_done result) }
{
    let Some(was) = was else {
        return add(steps, pass, key, value);
    };
    let there = change(steps, pass, Op::Swap(key, was, value), 1)?;
    if there == Some(was) {
        Ok(Replaced::Done)
    } else {
        Ok(Replaced::Lost(there))
    }
}

// The same, if the key was absent.
fn add<M: Memory, G: StepGate>(
    steps: TableSteps<M, G>,
    pass: &mut Pass<M>,
    key: u64,
    value: u64,
) -> Result<Replaced, NotDone>
    requires may { MayDo steps.table.now key pass.old }
    ensures replaces { Replaces steps.entry.table.now key None value pass.old pass.new result }
    ensures others { result ≡ Err Busy → IsOthersDoing steps.entry.table.now 1 pass.old pass.new }
    ensures steps { TookIn steps.entry.table.now.plan pass.old pass.new (round_steps_in steps.entry.table.now.plan) }
    ensures counted { CountsTries 1 pass.old pass.new }
    ensures cards { steps.entry.table.now.plan.slots ≡ None →
        SpendsCards key 1 pass.old pass.new (whether_done result) }
{
    match change(steps, pass, Op::Insert(key, value), 1)? {
        Some(_) => Ok(Replaced::Done),
        None => Ok(Replaced::Lost(find(steps, pass, key))),
    }
}
