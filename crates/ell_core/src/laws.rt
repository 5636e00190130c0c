//! The laws of the machine. Each is the contract of a function that does nothing, so that it is proved.
mod definitions;
mod premises;
mod refuted;
mod schedules;
mod steps;
mod unsound;

pub use definitions::{one_outcome, room_holds_keys, told_words_stay};
pub use premises::{
    events_pass_on, every_parting_is_a_split, every_union_is_a_join, one_worker_can_open,
    one_worker_owns_all, openings_are_passed, openings_have_their_start_keys, runs_can_be_followed,
    two_keys_can_open,
};
pub use refuted::{events_promise_no_more, runs_promise_no_more};
pub use schedules::{
    answers_are_the_maps, claimed_cards_are_fixed, every_state_is_sound, facts_last,
    flat_trees_are_shallow, looks_are_of_one_state, marked_nodes_are_frozen, pairs_change_at_wins,
    stretches_are_of_one_state, wins_are_in_order, words_rise,
};
pub use steps::{
    cards_wait, events_are_lawful, handovers_are_lawful, invariant_is_sound, owner_finds_clean,
    steps_may_rely,
};
pub use unsound::{
    no_fact_is_made_up, no_flag_is_left_standing, no_ledger_is_wrong, no_name_is_wrong,
    no_search_is_astray, no_stranger_is_somebody, no_tree_is_unlawful,
};
