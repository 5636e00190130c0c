//! What one worker does on its part, with a pass of the shared tree, and the pieces that workers leave.
ghost use Rattle.std.specs.Prelude.{◌≡◌, ◌≤◌, ◌+◌, ℕ, IfOk, length};
ghost use Rattle.ell_ops.specs.Meaning.{key_of};
ghost use Rattle.ell_runs.specs.Plans.{TablePlan};
ghost use Rattle.ell_tree.specs.Counts.{TookIn};
ghost use Rattle.ell_tree.specs.Ends.{Ends};
ghost use Rattle.ell_tree.specs.Ledgers.{IsIdlePassOf, PassModel};
ghost use Rattle.ell_tree.specs.Promises.{MayDo};
ghost use Rattle.ell_run.specs.Pieces.{all_workers, busy, lists_of, numbered};
ghost use Rattle.ell_run.specs.Steps.{IsPaid, worker_steps};
ghost use Rattle.ell_run.specs.Work.{IsWorked, IsWorkedOff, OwnsKeysOf};

use ell_ops::{NoMemory, Op, Reply};
use ell_parts::Parts;
use ell_tree::{NotDone, Pass, StepGate, Tree};
use std::alloc::{Allocator, Global};

/// The replies of a worker, with their positions in the whole list.
pub type Piece<A = Global> = Vec<(usize, Reply), A>;

// Works a part off, operation by operation, and leaves the rest of it from the first operation on that is not done. The
// bound on the steps rests on the law of the milestones that a pass knows of, whose function does nothing.
pub(crate) fn work_off<A: Allocator + Copy, G: StepGate>(
    alloc: A,
    tree: &Tree<A>,
    pass: &mut Pass<A>,
    part: &[(usize, Op)],
    tries: u32,
    gate: &G,
) -> Result<Piece<A>, NoMemory>
    requires may { IsIdlePassOf tree.now pass.old }
    requires owned { OwnsKeysOf pass.old part.now }
    requires tries { 1 ≤ tries }
    // The piece has the right replies to a prefix of the part, and the pass has the map after it. The next operation,
    // if there is one, was not done.
    ensures worked { IfOk result (λ piece.
        IsWorkedOff tree.now.plan tries part.now pass.old pass.new piece.items) }
    // It makes at most the steps of its part's operations, in a row and in all.
    ensures bounded { IfOk result (λ piece.
        TookIn tree.now.plan pass.old pass.new (worker_steps tree.now.plan (length part.now))) }
{
    let mut piece = Vec::with_capacity(alloc, part.len())?;
    for (position, op) in part {
        let Ok(reply) = do_op(tree, pass, *op, tries, gate) else {
            tree.known_milestones_are_few(pass);
            return Ok(piece);
        };
        piece.push((*position, reply))?;
    }
    tree.known_milestones_are_few(pass);
    Ok(piece)
}

// Does one operation on a key of the pass.
fn do_op<A: Allocator + Copy, G: StepGate>(
    tree: &Tree<A>,
    pass: &mut Pass<A>,
    op: Op,
    tries: u32,
    gate: &G,
) -> Result<Reply, NotDone>
    requires may { MayDo tree.now (key_of op) pass.old }
    requires tries { 1 ≤ tries }
    ensures ends { Ends tree.now tries op pass.old pass.new result }
    ensures paid { IsPaid tree.now.plan 1 pass.old pass.new }
{
    match op {
        Op::Find(key) => Ok(Reply::found(tree.find(pass, key, gate))),
        Op::Insert(key, value) => Ok(Reply::yes_if(tree.insert(pass, key, value, tries, gate)?)),
        Op::Delete(key) => Ok(Reply::yes_if(tree.delete(pass, key, tries, gate)?)),
        Op::Swap(key, was, value) => Ok(Reply::found(tree.swap(
            pass, key, was, value, tries, gate,
        )?)),
    }
}

// Puts empty pieces between those of the busy workers: one piece for each worker, in order.
pub(crate) fn with_empty_pieces<A: Allocator + Copy>(
    alloc: A,
    parts: &Parts<'_, A>,
    mut pieces: Vec<Piece<A>, A>,
) -> Result<Vec<Piece<A>, A>, NoMemory>
    requires { length pieces.items ≡ length (busy parts.now) }
    ensures { (plan : TablePlan) (tries : ℕ) (before after : PassModel) →
        IsWorked plan tries parts.now (busy parts.now) before after (lists_of pieces.items) →
        IfOk result (λ all. IsWorked plan tries parts.now (all_workers parts.now) before after (lists_of all.items)) }
{
    for worker in 0..parts.workers() {
        if parts.part(worker).is_empty() {
            pieces.insert(worker as usize, Vec::new(alloc))?;
        }
    }
    Ok(pieces)
}

// Replies with the positions of the operations that they are for.
pub(crate) fn with_positions<A: Allocator + Copy>(
    alloc: A,
    part: &[(usize, Op)],
    replies: &[Reply],
) -> Result<Piece<A>, NoMemory>
    ensures { IfOk result (λ piece. piece.items ≡ numbered part.now replies.now) }
{
    let items = part.iter().zip(replies);
    Ok(items.map(|(item, reply)| (item.0, *reply)).collect(alloc)?)
}
