//! A tree that starts empty and shares each key, and what one thread does with it.
ghost use Rattle.std.specs.Prelude.{◌≡◌, ◌≢◌, [], IfErr, IfOk};
ghost use Rattle.ell_tree.specs.Op.TheVariants.{Find, Insert};
ghost use Rattle.ell_tree.specs.Meaning.{found, yes_if};
ghost use Rattle.ell_tree.specs.Views.{whole_share};
ghost use Rattle.ell_tree.specs.Ends.{Answers};
ghost use Rattle.ell_tree.specs.Ledgers.{IsIdlePassOf};
ghost use Rattle.ell_tree.specs.PassParts.{IsUnion};
ghost use Rattle.ell_tree.specs.Promises.{MayDo};
ghost use Rattle.ell_tree.specs.Contents.{nothing};
ghost use Rattle.ell_tree.specs.OneThread.{IsOfOneThread};
ghost use Rattle.ell_tree.specs.Seeing.{AreApart};
ghost use Rattle.one_winner.specs.Sharing.{AreNew, Fails, SharesEachKey};

use crate::fault::{Lost, RaceFault};
use ell_tree::{NoGate, Pass, Tree, TreeKind, stories_are_of_one_thread};
use std::alloc::Global;

// How many cards a tree is asked for.
const CARDS: u64 = 1_000;

// How many passes there may be at once, where cards come back.
const PASSES: u64 = 4;

/// How often an insert is tried before it is `Busy`.
pub(crate) const TRIES: u32 = 1_000;

/// Whether the cards of a tree come back.
#[derive(Clone, Copy, Debug, PartialEq, Eq)]
pub enum Kind {
    /// Each card serves once.
    Plain,
    /// Cards come back.
    Reusing,
}

/// Opens an empty tree of a kind, in which each key is shared. Returns it with two passes.
pub fn open(
    alloc: Global,
    kind: Kind,
) -> Result<(Tree<Global>, (Pass<Global>, Pass<Global>)), RaceFault>
    // The passes have made no call, and have the whole share together.
    ensures { IfOk result (λ made. AreNew made.0 made.1.0 made.1.1) }
{
    let (map, pass) = match kind {
        Kind::Plain => Tree::open(alloc, TreeKind::Shared, &[], &[], CARDS)?,
        Kind::Reusing => Tree::open(alloc, TreeKind::Reusing(PASSES), &[], &[], CARDS)?,
    };
    match map.split(pass, &[]) {
        Ok(parts) => Ok((map, parts)),
        Err((_pass, fault)) => Err(RaceFault::Split(fault)),
    }
}

/// Inserts a key with a value. Returns the pass, and whether it was told that it added the key.
pub(crate) fn insert(
    map: &Tree<Global>,
    pass: Pass<Global>,
    key: u64,
    value: u64,
) -> Result<(Pass<Global>, bool), Lost>
    requires may { MayDo map.now key pass }
    // The pass was answered this call and no other.
    ensures answers { IfOk result (λ done. Answers map.now (Insert key value) (yes_if done.1) pass done.0) }
    // The insert was not done, as the tree says.
    ensures why { IfErr result (λ lost. Fails map.now lost.0 lost.1) }
{
    let mut pass = pass;
    match map.insert(&mut pass, key, value, TRIES, &NoGate) {
        Ok(added) => Ok((pass, added)),
        Err(why) => Err((pass, RaceFault::Insert(why))),
    }
}

/// Finds a key. Returns the pass, and the value that it found.
pub(crate) fn find(map: &Tree<Global>, pass: Pass<Global>, key: u64) -> (Pass<Global>, Option<u64>)
    requires may { MayDo map.now key pass }
    // The pass was answered this call and no other.
    ensures { Answers map.now (Find key) (found result.1) pass result.0 }
{
    let mut pass = pass;
    let there = map.find(&mut pass, key, &NoGate);
    (pass, there)
}

/// Joins two passes, of which the left one has made a call.
pub(crate) fn unite(
    map: &Tree<Global>,
    left: Pass<Global>,
    right: Pass<Global>,
) -> Result<Pass<Global>, Lost>
    requires left { IsIdlePassOf map.now left }
    requires right { IsIdlePassOf map.now right }
    requires called { left.sight.mine ≢ [] }
    // The pass has what both had.
    ensures joined { IfOk result (IsUnion left right) }
    // An allocation failed, and the left pass comes back.
    ensures why { IfErr result (λ lost. Fails map.now lost.0 lost.1) }
{
    match map.join(left, right) {
        Ok(pass) => Ok(pass),
        Err((left, _right, fault)) => Err((left, RaceFault::Memory(fault))),
    }
}

/// Reads what was done with the tree, by the pass that all others were joined to, which it returns.
pub(crate) fn conclude(map: &Tree<Global>, pass: Pass<Global>) -> Pass<Global>
    requires may { IsIdlePassOf map.now pass }
    requires shares { SharesEachKey map.now }
    requires whole { pass.view.share ≡ whole_share }
    // What the pass was answered is what one thread is answered that begins with an empty map. No two calls are one.
    ensures thread { IsOfOneThread nothing pass.sight.mine }
    ensures apart { AreApart pass.sight.mine }
    ensures mine { result.sight.mine ≡ pass.sight.mine }
    ensures kept { result.view.share ≡ whole_share }
{
    let mut pass = pass;
    map.story(&mut pass);
    stories_are_of_one_thread();
    pass
}
