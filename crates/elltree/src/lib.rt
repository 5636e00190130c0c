//! A tree whose keys any thread may change, for programs in C, C++, Rust and Python: a static library over `ell_tree`.
//!
//! A slot is a host's own memory, all zeros to begin with, and holds a handle or nothing. A handle is a pass of a tree
//! in which every key is shared. Each function tests all that the tree's calls require and returns one of the codes of
//! `codes`; a call that is refused leaves the slot and the map as they were. A slot is in one call at a time, and may go
//! from one thread to another. Opening a tree and making another handle of it allocate memory, and no other call does.
#![tactic(auto)]

pub mod calls;
mod codes;
pub mod counting;
mod handle;
pub mod opening;
pub mod ranging;
mod raw_box;
mod refusal;
pub mod replacing;
mod slot;
pub mod texts;

pub use ell_tree::Pair;
