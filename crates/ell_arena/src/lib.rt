//! One block of words, each of which is shared by threads, or lent to one of them as plain memory.
#![tactic(auto)]

mod block;
mod shared;
mod steps;
mod words;

pub use shared::Seat;
pub use words::Words;
