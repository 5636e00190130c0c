//! The keys of a tree with their values, by a walk over its nodes.
ghost use Rattle.std.specs.Prelude.{◌≡◌, ℕ, [], vec_capacity};
ghost use Rattle.ell_word.specs.Node.{IsInternal};
ghost use Rattle.ell_layout.specs.Words.{Words, IsLeaf};
ghost use Rattle.ell_core.specs.tree.Tree.{Reached, IsLawful, ListsTreePairs};
ghost use Rattle.ell_core.specs.tree.Room.{HasRoom, HoldsKeys};

use ell_ops::KEY_MAX;
use ell_word::is_internal;
use std::alloc::Allocator;

/// The words of a tree, read node by node.
pub trait TreeWords {
    ghost words: { Self → Words };

    // the nodes that may be read
    ghost can_read: { Self → ℕ → Type 0 };

    /// Returns the key of a node.
    fn key(&self, node: u64) -> u64
        requires { can_read self.now node }
        ensures { result ≡ (words self.now).key node };

    /// Returns the value of a leaf.
    fn value(&self, leaf: u64) -> u64
        requires read { can_read self.now leaf }
        requires outer { IsLeaf leaf }
        ensures { result ≡ (words self.now).value leaf };

    /// Returns the child of an internal node on a side.
    fn child(&self, node: u64, right: bool) -> u64
        requires read { can_read self.now node }
        requires inner { IsInternal node }
        ensures { result ≡ (words self.now).child node right };
}

/// Returns the keys of a lawful tree with their values, each key once, ascending. It allocates nothing: the two lists,
/// which are passed empty, have room for the nodes that wait and for the pairs. The walk goes left first, and visits
/// each node once.
pub fn pairs_of_tree<T: TreeWords, A: Allocator>(
    tree: &T,
    mut waiting: Vec<u64, A>,
    mut pairs: Vec<(u64, u64), A>,
) -> Vec<(u64, u64), A>
    requires lawful { IsLawful (T.words tree.now) }
    requires readable { (x : ℕ) → Reached (T.words tree.now) x → T.can_read tree.now x }
    requires no_nodes { waiting.items ≡ [] }
    requires no_pairs { pairs.items ≡ [] }
    requires room { HasRoom (T.words tree.now) (vec_capacity waiting) }
    requires pairs_room { HoldsKeys (T.words tree.now) (vec_capacity pairs) }
    // The result has each key of the tree with its value, strictly ascending.
    ensures { ListsTreePairs (T.words tree.now) result.items }
{
    waiting.push(0).unwrap();
    while let Some(node) = waiting.pop() {
        if is_internal(node) {
            waiting.push(tree.child(node, true)).unwrap();
            waiting.push(tree.child(node, false)).unwrap();
        } else {
            let key = tree.key(node);
            if key <= KEY_MAX {
                pairs.push((key, tree.value(node))).unwrap();
            }
        }
    }
    pairs
}
