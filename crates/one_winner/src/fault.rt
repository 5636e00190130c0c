//! What may hinder a race.

use ell_tree::{CardFault, NoMemory, NotDone, Pass, SplitFault};
use std::alloc::Global;
use thiserror::Error;

/// Why a race has no result.
#[derive(Clone, Copy, Debug, PartialEq, Eq, Error)]
pub enum RaceFault {
    /// There is no tree.
    #[error("no tree: {0}")]
    Tree(#[from] CardFault),
    /// A pass was not split.
    #[error("no second pass: {0}")]
    Split(#[from] SplitFault),
    /// An insert has no answer.
    #[error("no answer: {0}")]
    Insert(#[from] NotDone),
    /// An allocation failed.
    #[error("{0}")]
    Memory(#[from] NoMemory),
}

/// A pass that comes back, with what has hindered it.
pub type Lost = (Pass<Global>, RaceFault);
