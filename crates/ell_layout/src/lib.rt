//! The words of a table: the fields of a card and where each stands in one list, what fills a card, and the balanced tree that a table
//! opens with.
#![tactic(auto)]

mod branch;
mod field;
mod fillings;
mod laws;
mod start;

pub use branch::{Branch, branch_of};
pub use field::{Field, child_field, key_field, table_size, update_word, value_field};
pub use fillings::{brought_node, card_children, delete_filling, insert_filling};
pub use laws::{
    balanced_trees_are_shallow, branches_are_halves, each_word_has_its_address, same_words,
    writes_are_seen,
};
pub use start::write_opening;
