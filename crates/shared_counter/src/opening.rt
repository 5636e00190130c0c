//! A tree with a counter, and four passes of it.
ghost use Rattle.std.specs.Prelude.{◌≡◌, [], IfOk};
ghost use Rattle.ell_tree.specs.Ledgers.{IsIdlePassOf};
ghost use Rattle.ell_tree.specs.PassParts.{IsFirst, IsLeftPart, IsRightPart};
ghost use Rattle.shared_counter.specs.Adding.{AreNew, IsCounter, StartsWith, start_of};

use crate::adding::COUNTER;
use crate::fault::CountFault;
use ell_tree::{Pass, Tree, TreeKind};
use std::alloc::Global;

// How many cards a tree is asked for whose cards do not come back: each addition takes one, and each try that others
// hinder may take one more.
const CARDS: u64 = 1_000_000;

// How many cards serve where they come back. A thread that is stopped in an addition holds back all that others have
// used since, so there are enough for all additions.
const SLOTS: u64 = 200_000;

// How many passes there may be at once, where cards come back.
const PASSES: u64 = 4;

/// Whether the cards of a tree come back.
#[derive(Clone, Copy, Debug, PartialEq, Eq)]
pub enum Kind {
    /// Each card serves once.
    Plain,
    /// Cards come back.
    Reusing,
}

/// Four passes of a tree, in two pairs.
pub type Passes = ((Pass<Global>, Pass<Global>), (Pass<Global>, Pass<Global>));

// Opens a tree of a kind with the counter alone.
fn reserve(
    alloc: Global,
    kind: Kind,
    start: u64,
) -> Result<(Tree<Global>, Pass<Global>), CountFault>
    ensures starts { IfOk result (λ made. StartsWith start made.0) }
    ensures first { IfOk result (λ made. IsFirst made.0 made.1) }
{
    let pairs = [(COUNTER, start)];
    match kind {
        Kind::Plain => Ok(Tree::open(alloc, TreeKind::Shared, &pairs, &[], CARDS)?),
        Kind::Reusing => {
            let reusing = TreeKind::Reusing(PASSES);
            Ok(Tree::open(alloc, reusing, &pairs, &[], SLOTS)?)
        }
    }
}

// Splits a pass.
fn part(tree: &Tree<Global>, pass: Pass<Global>) -> Result<(Pass<Global>, Pass<Global>), CountFault>
    requires { IsIdlePassOf tree.now pass }
    ensures left { IfOk result (λ parts. IsLeftPart [] pass parts.0) }
    ensures right { IfOk result (λ parts. IsRightPart [] pass parts.1) }
{
    match tree.split(pass, &[]) {
        Ok(parts) => Ok(parts),
        Err((_pass, fault)) => Err(CountFault::Split(fault)),
    }
}

/// Opens a tree of a kind that has the counter alone, with this value. Returns it with four passes.
pub fn open(alloc: Global, kind: Kind, start: u64) -> Result<(Tree<Global>, Passes), CountFault>
    // The tree shares its keys, and has the counter with this value.
    ensures counter { IfOk result (λ made. IsCounter made.0) }
    ensures start { IfOk result (λ made. start_of made.0 ≡ start) }
    // The passes have made no call, and have the whole share together.
    ensures new { IfOk result (λ made. AreNew made.0 made.1) }
{
    let (tree, pass) = reserve(alloc, kind, start)?;
    let (left, right) = part(&tree, pass)?;
    let left = part(&tree, left)?;
    let right = part(&tree, right)?;
    Ok((tree, (left, right)))
}
