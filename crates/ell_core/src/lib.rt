//! The abstract machine of the tree: what a state is, what each event does, and what holds in every state.
//!
//! The tree is that of Ellen, Fatourou, Ruppert and van Breugel, "Non-blocking Binary Search Trees" (PODC 2010).
#![tactic(auto)]

mod event;
mod exchange;
mod fact;
mod keys;
mod laws;
mod put;
mod view;

pub use event::{Act, CoreFault, Event, Shown, Stepped};
pub use exchange::Exchange;
pub use fact::{Fact, told_by};
pub use keys::{TreeWords, pairs_of_tree};
pub use laws::{
    answers_are_the_maps, cards_wait, claimed_cards_are_fixed, events_are_lawful, events_pass_on,
    events_promise_no_more, every_parting_is_a_split, every_state_is_sound, every_union_is_a_join,
    facts_last, flat_trees_are_shallow, handovers_are_lawful, invariant_is_sound,
    looks_are_of_one_state, marked_nodes_are_frozen, no_fact_is_made_up, no_flag_is_left_standing,
    no_ledger_is_wrong, no_name_is_wrong, no_search_is_astray, no_stranger_is_somebody,
    no_tree_is_unlawful, one_outcome, one_worker_can_open, one_worker_owns_all,
    openings_are_passed, openings_have_their_start_keys, owner_finds_clean, pairs_change_at_wins,
    room_holds_keys, runs_can_be_followed, runs_promise_no_more, steps_may_rely,
    stretches_are_of_one_state, told_words_stay, two_keys_can_open, wins_are_in_order, words_rise,
};
pub use put::Put;
pub use view::{Entry, Search, Seen, WorkerOf, WorkerView};
