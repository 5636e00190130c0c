//! The command `elltree`, over the words of its command line, a reader and two writers. It runs a text of finds,
//! inserts and deletes on a map, or replays a schedule of events on the machine of the tree.
#![tactic(auto)]

mod program;
mod request;

pub use program::{ARGUMENTS_NOT_TAKEN, Failure, carry_out, elltree};
pub use request::{Request, request_of};
