//! Finds, inserts, deletes and swaps on a map from keys to values, and what one thread answers for a list of them.
//!
//! This is the plain meaning that every other way of running a list is measured by.
#![tactic(auto)]

mod keyed;
mod keys;
mod laws;
mod limits;
mod no_memory;
mod one_thread;
mod op;
mod reply;

pub use keyed::{Keyed, all_fit, ascend, keys_of, united};
pub use keys::{distinct_keys, united_keys};
pub use laws::{last_writer, one_listing};
pub use limits::{WORKERS_MAX, limits_are_as_defined};
pub use no_memory::NoMemory;
pub use one_thread::{apply, apply_all, apply_from};
pub use op::{KEY_MAX, Op};
pub use reply::Reply;
