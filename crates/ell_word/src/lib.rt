//! The words that the tree is made of: update words, child words and node numbers.
//!
//! The tree is that of Ellen, Fatourou, Ruppert and van Breugel, "Non-blocking Binary Search Trees" (PODC 2010). No call
//! here allocates or refuses anything.
#![tactic(auto)]

mod link;
mod node;
mod update;

pub use link::{Link, child_word, links};
pub use node::{
    CARD_MAX, CARDS_MAX, GENERATION_SIZE, INF1, INF2, NUMBER_MAX, START_MAX, card_of,
    constants_are_as_defined, internal_of, is_internal, left_leaf_of, right_leaf_of,
};
pub use update::{State, Update, pack, packs, unpack};
