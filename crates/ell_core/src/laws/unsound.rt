//! What the definition of a sound state rules out: for each of its clauses a small state that breaks it. Each is the contract of
//! a function that does nothing.
ghost use Rattle.std.specs.Prelude.{[], ◌∷◌};
ghost use Rattle.ell_core.specs.declared.fact.Fact.TheVariants.{IFlagged, IChanged, IOver, DFlagged, Marked, Unmarkable, Cut, DOver, Backed};
ghost use Rattle.ell_core.specs.soundness.Unsound.{BreaksLedgers, key_owned_twice, key_without_owner, key_missing_in_ledger, key_kept_in_ledger, key_with_other_value, BreaksSearches, key_found_too_early, key_not_found, search_astray, BreaksStrangers, key_of_stranger, busy_stranger, knowing_stranger};
ghost use Rattle.ell_core.specs.soundness.UnsoundTrees.{BreaksTree, child_of_less_number, leaf_linked_twice, node_with_lesser_key, node_with_key_too_great, root_of_lesser_infinity, root_with_other_leaf, leaf_past_infinity, lesser_infinity_lost, lesser_infinity_of_no_leaf, infinity_on_the_left, leaf_below_the_root};
ghost use Rattle.ell_core.specs.soundness.UnsoundFacts.{NoneHolds, not_an_insert, linked_unflagged, never_linked, insert_flag_stands, not_a_delete, mark_of_an_insert, cut_unflagged, passed_unflagged, never_marked, cut_unmarked, never_cut, cut_flag_stands, passed_flag_stands};
ghost use Rattle.ell_core.specs.soundness.UnsoundFlags.{BreaksNames, node_not_claimed, number_left_out, card_not_claimed, BreaksFlags, flag_left_standing, flag_of_another, flag_not_won, iflag_elsewhere, dflag_elsewhere, mark_elsewhere};

/// No tree breaks one of the rules of a lawful one: ranks rise, one path leads to each node, keys are in order, the two
/// infinities stand in their places, and every leaf of a real key has a grandparent.
pub fn no_tree_is_unlawful()
    // For each clause on the shape of the tree, a small state that breaks it is unsound.
    ensures rises { BreaksTree child_of_less_number }
    ensures one_path { BreaksTree leaf_linked_twice }
    ensures left_less { BreaksTree node_with_lesser_key }
    ensures right_more { BreaksTree node_with_key_too_great }
    ensures root_key { BreaksTree root_of_lesser_infinity }
    ensures root_right { BreaksTree root_with_other_leaf }
    ensures right_key { BreaksTree leaf_past_infinity }
    ensures left_last { BreaksTree lesser_infinity_lost }
    ensures left_outer { BreaksTree lesser_infinity_of_no_leaf }
    ensures left_real { BreaksTree infinity_on_the_left }
    ensures left_deep { BreaksTree leaf_below_the_root }
{}

/// No key has two owners, a key of the tree has one, and the owner has it present exactly if the tree has it, and with
/// the same value: the map is in the tree, and not in the workers.
pub fn no_ledger_is_wrong()
    // For each clause on ledgers, except that a shared key has no owner, a small state that breaks it is unsound.
    ensures one_owner { BreaksLedgers key_owned_twice }
    ensures owned { BreaksLedgers key_without_owner }
    ensures present { BreaksLedgers key_missing_in_ledger }
    ensures only { BreaksLedgers key_kept_in_ledger }
    ensures value { BreaksLedgers key_with_other_value }
{}

/// No search finds a key that is absent, misses one that is present, or stands where the walk for its key does not
/// pass.
pub fn no_search_is_astray()
    // For each clause on searches, a small state that breaks it is unsound.
    ensures found { BreaksSearches key_found_too_early }
    ensures missed { BreaksSearches key_not_found }
    ensures joins { BreaksSearches search_astray }
{}

/// No worker knows what does not hold: each of the nine facts fails alone by each part of its meaning that can.
pub fn no_fact_is_made_up()
    // For each kind of fact there are small states in which no worker may know it, since it does not hold: they would
    // be unsound.
    ensures insert_card { NoneHolds not_an_insert (IFlagged 1 ∷ IChanged 1 ∷ IOver 1 ∷ []) }
    ensures insert_flag { NoneHolds linked_unflagged (IFlagged 1 ∷ IChanged 1 ∷ []) }
    ensures insert_child { NoneHolds never_linked (IChanged 1 ∷ IOver 1 ∷ []) }
    ensures insert_over { NoneHolds insert_flag_stands (IOver 1 ∷ []) }
    ensures delete_card { NoneHolds not_a_delete (DFlagged 1 ∷ Unmarkable 1 ∷ Backed 1 ∷ []) }
    ensures marked_card { NoneHolds mark_of_an_insert (Marked 1 ∷ Cut 1 ∷ DOver 1 ∷ []) }
    ensures delete_flag { NoneHolds cut_unflagged (DFlagged 2 ∷ Marked 2 ∷ Cut 2 ∷ []) }
    ensures passed_flag { NoneHolds passed_unflagged (Unmarkable 2 ∷ []) }
    ensures passed { NoneHolds never_marked (Marked 2 ∷ Unmarkable 2 ∷ Backed 2 ∷ []) }
    ensures mark { NoneHolds cut_unmarked (Cut 2 ∷ DOver 2 ∷ []) }
    ensures delete_child { NoneHolds never_cut (Unmarkable 2 ∷ Cut 2 ∷ DOver 2 ∷ Backed 2 ∷ []) }
    ensures delete_over { NoneHolds cut_flag_stands (DOver 2 ∷ []) }
    ensures backed { NoneHolds passed_flag_stands (Backed 2 ∷ []) }
{}

/// No node and no update word of the tree is of a card that was not claimed, and no node has a number that its card leaves out.
pub fn no_name_is_wrong()
    // A state is unsound if a reached node, or an update word of one, is of an unclaimed card or of none.
    ensures nodes { BreaksNames node_not_claimed }
    ensures numbers { BreaksNames number_left_out }
    ensures updates { BreaksNames card_not_claimed }
{}

/// No flag or mark stands whose card no worker has in hand, flagged, or at a node that is not the card's.
pub fn no_flag_is_left_standing()
    // A state is unsound if a flag or a mark is not at its card's node, or of a card that no worker has in hand,
    // flagged.
    ensures in_hand { BreaksFlags flag_left_standing }
    ensures holds { BreaksFlags flag_of_another }
    ensures flagged { BreaksFlags flag_not_won }
    ensures iflag_place { BreaksFlags iflag_elsewhere }
    ensures dflag_place { BreaksFlags dflag_elsewhere }
    ensures mark_place { BreaksFlags mark_elsewhere }
{}

/// Only the workers that are counted own a key, have anything in hand or know anything.
pub fn no_stranger_is_somebody()
    // A state is unsound if a worker past the last one owns, holds or knows something.
    ensures owns { BreaksStrangers key_of_stranger }
    ensures busy { BreaksStrangers busy_stranger }
    ensures knows { BreaksStrangers knowing_stranger }
{}
