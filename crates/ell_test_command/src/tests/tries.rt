//! A small trie, into which keys are inserted above a leaf and above an internal node.
ghost use Rattle.std.specs.Prelude.{true, false};
ghost use Rattle.ell_trie.specs.Courses.{IsInOrder};
ghost use Rattle.ell_trie.specs.Examples.{small_key, small_child, small_born, small_opening};
ghost use Rattle.ell_trie.specs.Examples.{with_seven, with_twelve, greater_key};
ghost use Rattle.ell_trie.specs.Links.{InsertAbove};
ghost use Rattle.ell_trie.specs.Tries.{In, IsTrie};

use ell_block::{branch, is_in_block};

#[test]
fn a_small_trie_takes_keys(rt: HostRuntime) {
    assert!(rt; branch(3, 6) == 4);
    assert!(rt; is_in_block(4, 7) && branch(6, 7) == 7);
    assert!(rt; !is_in_block(4, 12));
    assert!(rt; branch(4, 12) == 8);
    definitions_agree_on_tries();
}

// What the laws of inserts require, of the small trie; and that it is none with the greater of two keys in place of their
// branch.
fn definitions_agree_on_tries()
    ensures trie { IsTrie (In small_born) small_opening small_key small_child }
    ensures order { IsInOrder small_key small_child 64 }
    ensures leaf { InsertAbove (In small_born) small_opening small_key small_child with_seven 64 4 true 6 12 true 14 7 }
    ensures inner { InsertAbove (In small_born) small_opening small_key small_child with_twelve 64 0 false 4 8 true 10 12 }
    ensures greater { ¬ IsTrie (In small_born) small_opening greater_key small_child }
{}
