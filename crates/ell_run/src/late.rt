//! What the workers left undone, done by one thread after they have ended.
ghost use Rattle.std.specs.Prelude.{◌≡◌, ◌≤◌, ◌<◌, ◌++◌, ℕ, List, All, IfOk, IsTrue, length};
ghost use Rattle.std.specs.List.{flat_map};
ghost use Rattle.std.specs.List.Sorted.{IsStrictlyIncreasing};
ghost use Rattle.ell_ops.specs.declared.reply.Reply.{Reply};
ghost use Rattle.std.specs.Map.{keys_of};
ghost use Rattle.ell_ops.specs.Contents.{Contents, ListsPairs, contents_of};
ghost use Rattle.ell_ops.specs.Meaning.{final};
ghost use Rattle.ell_parts.specs.PartedOps.{IsLawful, part};
ghost use Rattle.ell_run.specs.ByParts.{ops_in};
ghost use Rattle.ell_run.specs.Late.{AreMarks, late_ops};
ghost use Rattle.ell_run.specs.Pieces.{ArePieces, all_workers, count_of, lists_of, piece_from};

use crate::pieces::{Piece, with_positions};
use ell_ops::{NoMemory, Op, Reply, apply_from};
use ell_parts::Parts;
use std::alloc::Allocator;

// The operations that no piece answers, with their positions, in the order of the list.
pub(crate) fn late_ops<A: Allocator + Copy>(
    alloc: A,
    ops: &[Op],
    parts: &Parts<'_, A>,
    pieces: &[Piece<A>],
) -> Result<Vec<(usize, Op), A>, NoMemory>
    requires parted { parts.now.ops ≡ ops.now }
    requires pieces { (start : Contents) × ArePieces start parts.now (all_workers parts.now) (lists_of pieces.now) }
    ensures { IfOk result (λ late. late.items ≡ late_ops ops.now (flat_map (λ piece. piece.items) pieces.now)) }
{
    let mut late = Vec::new(alloc);
    if is_all_done(parts, pieces) {
        return Ok(late);
    }
    let answered = answered(alloc, ops.len(), pieces)?;
    for (at, op) in ops.iter().enumerate() {
        if !answered[at] {
            late.push((at, *op))?;
        }
    }
    Ok(late)
}

// Whether each piece is as long as the part that it belongs to.
fn is_all_done<A: Allocator + Copy>(parts: &Parts<'_, A>, pieces: &[Piece<A>]) -> bool
    requires { length pieces.now ≡ parts.now.workers }
    ensures lawful { IsLawful parts.now }
    ensures done { IsTrue result → (worker : ℕ) → worker < parts.now.workers →
        length (part parts.now worker) ≤ count_of (lists_of pieces.now) worker }
{
    for worker in 0..parts.workers() {
        if pieces[worker as usize].len() < parts.part(worker).len() {
            return false;
        }
    }
    true
}

// Whether each position below `n` is answered by an item of a piece.
fn answered<A: Allocator + Copy>(
    alloc: A,
    n: usize,
    pieces: &[Piece<A>],
) -> Result<Vec<bool, A>, NoMemory>
    requires { All (λ piece. All (λ item. item.0 < n) piece.items) pieces.now }
    ensures count { IfOk result (λ marks. length marks.items ≡ n) }
    ensures marks { IfOk result (λ marks. AreMarks (flat_map (λ piece. piece.items) pieces.now) marks.items) }
{
    let mut answered = vec![in alloc; false; n]?;
    for piece in pieces {
        mark(&mut answered, piece);
    }
    Ok(answered)
}

// Marks the positions of the items of a piece.
fn mark(answered: &mut [bool], piece: &[(usize, Reply)])
    requires { All (λ item. item.0 < length answered.old) piece.now }
    ensures { (items : List (ℕ × Reply)) →
        AreMarks items answered.old → AreMarks (items ++ piece.now) answered.new }
{
    for (position, _) in piece {
        answered[*position] = true;
    }
}

// Does the operations that are left, from the map of some pairs. Returns their replies, with their positions, and the
// pairs after them.
pub(crate) fn do_late<A: Allocator + Copy>(
    alloc: A,
    pairs: Vec<(u64, u64), A>,
    late: &[(usize, Op)],
) -> Result<(Piece<A>, Vec<(u64, u64), A>), NoMemory>
    requires { IsStrictlyIncreasing (keys_of pairs.items) }
    ensures piece { IfOk result (λ done. done.0.items ≡ piece_from (contents_of pairs.items) late.now) }
    ensures pairs { IfOk result (λ done. ListsPairs (final (contents_of pairs.items) (ops_in late.now)) done.1.items) }
{
    if late.is_empty() {
        return Ok((Vec::new(alloc), pairs));
    }
    let ops = ops_of(alloc, late)?;
    let (replies, pairs) = apply_from(alloc, &pairs, &ops)?;
    Ok((with_positions(alloc, late, &replies)?, pairs))
}

// The operations of numbered ones.
fn ops_of<A: Allocator + Copy>(alloc: A, items: &[(usize, Op)]) -> Result<Vec<Op, A>, NoMemory>
    ensures { IfOk result (λ ops. ops.items ≡ ops_in items.now) }
{
    Ok(items.iter().map(|item| item.1).collect(alloc)?)
}
