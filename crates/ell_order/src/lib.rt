//! The order in which operations are run. A reply depends only on the operations on its own key, so any order that
//! keeps each key's operations in theirs gives the same answers. The operations of a long list are run in rounds, as
//! the keys of a zip tree enter it: few keys first, then about the same number again, and so on, in each round
//! ascending. So a list in any order makes a tree as flat as a shuffled one makes, and the path to a key is mostly that
//! to the one before.
#![tactic(auto)]

mod laws;
mod mixing;
mod order;
mod places;
mod rounds;

pub use laws::{constants_are_as_defined, mixing_can_be_undone, orders_serve};
pub use mixing::mixed;
pub use order::{Part, REORDERED_MIN, in_rounds, in_turn, is_reordered};
pub use rounds::round_of;
