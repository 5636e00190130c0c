//! Partings of a list of operations among workers, each key with one worker, and the way back: replies gathered
//! into the order of the list.
#![tactic(auto)]

mod fault;
mod gathering;
mod keys;
mod owners;
mod part;
mod parts;

pub use fault::PartFault;
pub use gathering::{GatherFault, gather};
pub use parts::Parts;
