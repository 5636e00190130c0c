//! Laws of grace periods over the abstract machine: when the cards of nodes that were taken out of the tree may be used anew.
//! What an operation comes to know was not gone when it began; the tag of a child word has risen since by no more than the
//! cards that had not ended then; and a card whose slot is taken was gone when each operation began that goes on.
#![tactic(auto)]

mod laws;

pub use laws::{
    children_were_not_gone, dead_nodes_stay_dead, edge_nodes_may_be_gone,
    grace_premises_can_be_met, operations_meet_nothing_gone, tags_rise_by_cards,
    taken_cards_were_gone,
};
