//! A table of cards: the machine's words in atomic words, which many passes share.
#![tactic(auto)]

mod card_nodes;
mod closed;
mod epochs;
mod fault;
mod fixed;
mod gate;
mod helping;
mod kind;
mod laws;
mod lifetime;
mod looking;
mod memory;
mod outcomes;
mod own_card;
mod pass;
mod places;
mod retiring;
mod rule;
mod share;
mod slot_words;
mod slots;
mod steps;
mod story;
mod table;
mod taking;
mod view;
mod walking;

pub use closed::Closed;
pub use ell_runs::{Answered, Call, Glance, Hindrance, Stretch, Told, View};
pub use fault::{CardFault, SplitFault};
pub use fixed::FixedMemory;
pub use gate::{NoGate, StepGate, StepKind};
pub use kind::TreeKind;
pub use laws::{safe_epochs_are_safe, seen_is_history, shown_is_so_in_runs};
pub use lifetime::is_card_count;
pub use memory::Memory;
pub use pass::Pass;
pub use steps::TableSteps;
pub use table::CardTable;
pub use taking::Claimed;
pub use view::{Known, Plan};
