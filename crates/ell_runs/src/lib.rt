//! What any run of a table does: step calls as data, what passes know, runs and their laws, histories and looks. It speaks of no memory: a
//! state is a list of words, one for each field of a card, and what each pass knows.
#![tactic(auto)]

mod call;
mod glance;
mod laws;
mod view;

pub use call::{Call, NewNode};
pub use glance::{Glance, Stretch};
pub use laws::{
    calls_have_their_point, calls_touch_nothing_gone, given_up_calls_change_nothing,
    histories_are_linearizable, looks_are_in_order, looks_have_places, readings_are_past,
    runs_are_lawful, runs_are_linearizable, runs_from_starts_are_lawful, searches_read_meanwhile,
    shares_add_up, splits_and_joins_are_handovers, steps_are_events, steps_tell_what_is_there,
    stretches_are_in_order, table_answers_are_the_maps, table_nodes_go_on,
    table_pairs_change_at_wins, table_wins_are_in_order, tables_are_sound, tables_start,
};
pub use view::{Act, Answered, Event, Hindrance, Sight, Slots, Told, View};
