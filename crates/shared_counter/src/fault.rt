//! What may hinder a count.

use ell_tree::{CardFault, NoMemory, NotDone, Pass, SplitFault};
use std::alloc::Global;
use thiserror::Error;

/// Why a count has no result.
#[derive(Clone, Copy, Debug, PartialEq, Eq, Error)]
pub enum CountFault {
    /// There is no tree.
    #[error("no tree: {0}")]
    Tree(#[from] CardFault),
    /// A pass was not split.
    #[error("no further pass: {0}")]
    Split(#[from] SplitFault),
    /// A thread could not add, since all cards are given out, or others were too busy.
    #[error("no answer: {0}")]
    Add(#[from] NotDone),
    /// A thread found no counter.
    #[error("there is no counter")]
    NoCounter,
    /// An allocation failed.
    #[error("{0}")]
    Memory(#[from] NoMemory),
}

/// A pass that comes back, with what has hindered it.
pub type Lost = (Pass<Global>, CountFault);
