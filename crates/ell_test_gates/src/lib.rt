//! What tests on threads share: threads that meet, gates at which workers meet or go on in turns, and one that counts
//! what it is told.
#![tactic(auto)]

mod counting;
mod gathering;
mod kinds;
mod meeting;
mod turns;
mod weaving;

pub use counting::{Counting, Tally};
pub use gathering::Gathering;
pub use meeting::{
    four_threads_meet, sixteen_threads_meet, sixty_four_threads_meet, two_threads_meet,
};
pub use turns::{Turns, Until, WorkerTurn};
pub use weaving::Weaving;
