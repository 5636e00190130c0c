//! A world: the abstract machine as it runs, one event at a time, for replays and tests.
#![tactic(auto)]

mod exchanges;
mod memory;
mod replays;
mod searching;
mod turn;
mod worker;
mod world;

pub use replays::replay;
pub use searching::{leaf_answer, reply_of_change};
pub use world::World;
