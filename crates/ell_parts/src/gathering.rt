//! Replies with the positions that they are for, put back into the order of the positions.
ghost use Rattle.std.specs.Prelude.{◌≡◌, ℕ, List, ◌++◌, length, IfOk, IfErr, OnOk};
ghost use Rattle.std.specs.List.{flat_map};
ghost use Rattle.ell_ops.specs.declared.reply.Reply.{Reply};
ghost use Rattle.ell_parts.specs.Gathering.{IsGathered, IsFault, IsPlaced};

use ell_ops::Reply;
use std::alloc::{AllocError, Allocator};
use thiserror::Error;

/// Why replies were not gathered. `NoMemory` takes precedence over the others; the first faulty item, in the order of
/// the pieces, takes precedence over a missing reply.
#[derive(Clone, Copy, Debug, PartialEq, Eq, Error)]
pub enum GatherFault {
    /// An item is for this position, which is not below the number of positions.
    #[error("position {at}: no such position")]
    Stranger { at: usize },
    /// An item is for this position, and so is an earlier one.
    #[error("position {at}: two replies")]
    Doubled { at: usize },
    /// No item is for this position, the least of those without one.
    #[error("position {at}: no reply")]
    Missing { at: usize },
    /// An allocation for the replies failed.
    #[error("out of memory")]
    NoMemory,
}

impl From<AllocError> for GatherFault {
    ghost use Rattle.ell_parts.specs.declared.gathering.GatherFault.TheVariants.{NoMemory};

    ghost from_gives = { λ _ fault. fault ≡ NoMemory };

    fn from(_: AllocError) -> GatherFault {
        GatherFault::NoMemory
    }
}

/// Returns the reply for each position below `n`, in their order, from pieces whose items are a position and its reply,
/// in any order. There must be one item for each of the positions, and no other.
pub fn gather<A: Allocator + Copy, P: Allocator>(
    alloc: A,
    n: usize,
    pieces: &[Vec<(usize, Reply), P>],
) -> Result<Vec<Reply, A>, GatherFault>
    // There is one reply for each position: that of the one item for the position.
    ensures ok { IfOk result (λ replies. IsGathered n (flat_map (λ piece. piece.items) pieces.now) replies.items) }
    // A fault tells the first item for a position that does not exist or that already has an item, or else the least
    // position without an item.
    ensures fault { IfErr result (IsFault n (flat_map (λ piece. piece.items) pieces.now)) }
{
    let mut answered = vec![in alloc; false; n]?;
    let mut replies = vec![in alloc; Reply::No; n]?;
    for piece in pieces {
        place(&mut answered, &mut replies, piece)?;
    }
    match answered.iter().position(|answered| !*answered) {
        Some(at) => Err(GatherFault::Missing { at }),
        None => Ok(replies),
    }
}

// Puts the reply of each item of a piece at its position. Items `before` were placed already, and `after` may follow.
fn place(
    answered: &mut [bool],
    replies: &mut [Reply],
    piece: &[(usize, Reply)],
) -> Result<(), GatherFault>
    requires { length answered.old ≡ length replies.old }
    ensures ok { (before : List (ℕ × Reply)) → IsPlaced before answered.old replies.old →
        OnOk result (IsPlaced (before ++ piece.now) answered.new replies.new) }
    ensures err { (before after : List (ℕ × Reply)) → IsPlaced before answered.old replies.old →
        IfErr result (IsFault (length answered.old) (before ++ piece.now ++ after)) }
{
    for (position, reply) in piece {
        if *position >= answered.len() {
            return Err(GatherFault::Stranger { at: *position });
        }
        if answered[*position] {
            return Err(GatherFault::Doubled { at: *position });
        }
        answered[*position] = true;
        replies[*position] = *reply;
    }
    Ok(())
}
