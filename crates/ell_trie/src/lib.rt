//! Search trees by the keys and the children of their nodes alone, and laws of tries: trees in which the keys of internal
//! nodes, but for those of the opening tree, are branches, so that what is below such a node is in the halves of its
//! block. Paths are short, whichever keys came, and in whichever order. Inserts, swaps and cuts keep that, they keep the
//! order and each other key, and what a reader finds is true of one state of the tree, however slowly he goes on.
#![tactic(auto)]

mod laws;

pub use laws::{
    courses_tell, cuts_keep, links_keep, looks_find_what_was, looks_stay_true, swaps_keep,
    tries_are_shallow,
};
