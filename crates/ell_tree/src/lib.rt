//! A map from keys to values that many threads share: the non-blocking binary search tree of Ellen, Fatourou, Ruppert
//! and van Breugel (PODC 2010). No writer waits for another; if a writer stalls, its neighbors finish its change.
#![tactic(auto)]

mod computing;
mod cursor;
mod deleting;
mod ending;
mod helping;
mod inserting;
mod laws;
mod opening;
mod operations;
mod reading;
mod removing;
mod scanning;
mod searching;
mod steps;
mod tree;
mod trying;

pub use cursor::About;
pub use ell_cards::{
    CardFault, FixedMemory, Memory, NoGate, Pass as PassOver, SplitFault, StepGate,
    StepKind as Kind, TreeKind,
};
pub use ell_core::Exchange;
pub use ell_layout::table_size;
pub use ell_ops::{KEY_MAX, NoMemory, distinct_keys};
pub use ell_word::{CARDS_MAX, START_MAX};
pub use laws::{bounds_in_short, flat_bounds, stories_are_of_one_thread};
pub use operations::NotDone;
pub use scanning::{Pair, Scanned};
pub use tree::Tree as TreeOver;

/// A tree in a memory whose words are all there when it is made.
pub type Tree<A> = TreeOver<FixedMemory<A>>;

/// What a thread calls such a tree with.
pub type Pass<A> = PassOver<FixedMemory<A>>;
