//! Blocks of keys, and the branch of two keys: what the keys of internal nodes are in a flat tree. As in a Patricia trie, the
//! key of such a node is the branch of the keys that it parts: of the numbers above the one and up to the other, the one
//! with the most trailing zeros. All keys below the node are then in one block, and those on each side in one half of it.
//! So bits fall along a path, in whichever order the keys came.
#![tactic(auto)]

mod branches;
mod laws;

pub use branches::{block_ends, branch, is_in_block};
pub use laws::{blocks_nest, branches_are_unique, branches_fit};
