//! The end of a tree, and what a pass may know of all that was done with it.
ghost use Rattle.std.specs.Prelude.{◌≡◌, ◌≤◌, [], true, IfOk, IfErr, vec_capacity};
ghost use Rattle.std.specs.List.{All};
ghost use Rattle.ell_ops.specs.Contents.{contents_of};
ghost use Rattle.ell_cards.specs.Closed.{EndsHistory};
ghost use Rattle.ell_cards.specs.Models.{KeepsItsOwn};
ghost use Rattle.ell_runs.specs.Views.{whole_share};
ghost use Rattle.ell_runs.specs.Seeing.{HasSeenAll, HasSeenMore};
ghost use Rattle.ell_tree.specs.CardsTaken.{TakesNoCard};
ghost use Rattle.ell_tree.specs.Closing.{ClosesTo};
ghost use Rattle.ell_tree.specs.Counts.{Took};
ghost use Rattle.ell_tree.specs.Ledgers.{IsIdlePassOf, Owns};

use crate::tree::Tree;
use ell_cards::{FixedMemory, Memory, Pass};
use ell_core::pairs_of_tree;
use ell_ops::NoMemory;
use std::alloc::{AllocError, Allocator};

impl<M: Memory> Tree<M> {
    /// Reads one word, so that the pass knows all that was done with the tree up to now: its one history, which is
    /// linearizable, and which has the calls that the pass was answered (`all`). Whatever a program concludes from the
    /// answers of several threads, it concludes from this, once it has joined their passes.
    pub fn story(&self, pass: &mut Pass<M>)
        requires own { pass.old.table ≡ self.now.id }
        // The pass has seen all of the tree's history, and has the calls that it had. The history is linearizable; the
        // calls that the pass was answered, it and the passes that were joined to it, are calls of it, and no two are
        // one; and its order has no others if keys are shared, and the pass has the whole share and nothing in hand.
        ensures all { HasSeenAll self.now.plan pass.new.view pass.new.sight }
        ensures more { HasSeenMore pass.old.sight pass.new.sight }
        // It makes one step. The pass keeps its tree, its label, its keys and what it has in hand, and its share.
        ensures own { KeepsItsOwn pass.old pass.new }
        ensures worker { pass.new.view.worker ≡ pass.old.view.worker }
        ensures share { pass.new.view.share ≡ pass.old.view.share }
        ensures steps { Took pass.old pass.new 1 }
        ensures cards { TakesNoCard pass.old pass.new }
    {
        self.table.story(pass);
        pass.count(1);
    }
}

impl<A: Allocator + Copy> Tree<FixedMemory<A>> {
    /// Ends the tree, given a pass that owns each key that may have an owner, and, if the other keys are shared, has
    /// the whole share. Returns the keys that are present with their values, the keys strictly ascending. If an
    /// allocation fails, tree and pass come back as they were.
    pub fn close(
        self,
        pass: Pass<FixedMemory<A>>,
    ) -> Result<Vec<(u64, u64), A>, (Tree<FixedMemory<A>>, Pass<FixedMemory<A>>, NoMemory)>
        requires may { IsIdlePassOf self pass }
        requires plain { self.plan.slots ≡ None }
        requires all { All (λ k. Owns pass k) self.plan.keys }
        requires whole { self.plan.shared ≡ true → pass.view.share ≡ whole_share }
        // The pairs are those of the tree to which a run led, strictly ascending by their keys: of the keys that may
        // have an owner, those that the pass has present, and besides these only shared ones.
        ensures pairs { IfOk result (λ pairs. ClosesTo self pass pairs.items) }
        // The pass then knows all of the tree's history, which goes on from what it had seen: what `story` says is so
        // of it, and what the calls leave in the order of the history are the pairs.
        ensures history { IfOk result (λ pairs. EndsHistory self.plan pass (contents_of pairs.items)) }
        // If an allocation fails, tree and pass come back as they were.
        ensures refused { IfErr result (λ refused. (refused.0 ≡ self) × (refused.1 ≡ pass)) }
    {
        let places = self.table.last_card() as usize + 2;
        let most = self.table.most_pairs(pass.keys().len());
        let Ok((waiting, pairs)) = empty_lists(self.alloc, places, most) else {
            return Err((self, pass, NoMemory));
        };
        let Tree { table, alloc: _ } = self;
        let closed = table.close(pass);
        Ok(pairs_of_tree(&closed, waiting, pairs))
    }
}

// Two empty lists, with room for the given numbers of nodes and of keys with their values.
fn empty_lists<A: Allocator + Copy>(
    alloc: A,
    nodes: usize,
    keys: usize,
) -> Result<(Vec<u64, A>, Vec<(u64, u64), A>), AllocError>
    ensures nodes { IfOk result (λ made. (made.0.items ≡ []) × (nodes ≤ vec_capacity made.0)) }
    ensures pairs { IfOk result (λ made. (made.1.items ≡ []) × (keys ≤ vec_capacity made.1)) }
{
    let nodes = Vec::with_capacity(alloc, nodes)?;
    let pairs = Vec::with_capacity(alloc, keys)?;
    Ok((nodes, pairs))
}
