//! A list of operations run by workers on one tree, each on its own part in a thread of its own, and the same for a
//! text, from bytes to bytes.
#![tactic(auto)]

mod asked;
mod bytes;
mod faults;
mod late;
mod laws;
mod pieces;
mod reservation;
mod runs;
mod settings;
mod workers;

pub use bytes::{RunFault, run_bytes};
pub use ell_ops::{KEY_MAX, WORKERS_MAX};
pub use ell_tree::{Exchange, Kind, NoGate, Pass, StepGate, Tree};
pub use ell_word::{CARDS_MAX, START_MAX};
pub use faults::WorkFault;
pub use laws::{by_parts, limits_are_as_defined};
pub use pieces::Piece;
pub use runs::{Limits, Outcome, run};
pub use settings::{Parting, Report, Settings, TRIES_MAX, parts_for};
pub use workers::work;
