//! Laws of every schedule: any list of events, by any workers in any order, from any opening state on. Refused events,
//! and helpers that come back long after an operation has ended, are part of schedules too. Each law is the contract of
//! a function that does nothing.
ghost use Rattle.ell_core.specs.statements.RunLaws.{EveryStateHasInvariant, EveryStateIsSound, PairsChangeAtWins, AnswersAreTheMaps, WinsAreInOrder, MarkedNodesAreFrozen, WordsRise, KnowledgeIsNeverLost, ClaimedCardsAreFixed, StagesRise};
ghost use Rattle.ell_core.specs.statements.Flat.{FlatTreesAreShallow};
ghost use Rattle.ell_core.specs.statements.Looks.{LooksAreOfOneState};
ghost use Rattle.ell_core.specs.statements.Readers.{StretchesAreOfOneState, EdgesAreOfOneState};

/// Every state of a run is sound, since the invariant holds for it.
pub fn every_state_is_sound()
    // Every state of every run has the invariant, and so is sound.
    ensures invariant { EveryStateHasInvariant }
    ensures sound { EveryStateIsSound }
{}

/// The keys of the tree and their values change at a won ichild, which adds its card's key with the card's value, and
/// at a won dchild, which takes its card's key away. At every other event, and if an event is refused, they stay the
/// same.
pub fn pairs_change_at_wins()
    // The tree's pairs change only at a won `ichild` or `dchild`, by that card's operation: an insert adds its pair, a
    // swap gives a key that has its first value the second, a delete takes its key away. All other pairs stay.
    ensures { PairsChangeAtWins }
{}

/// Each answer is the map's answer on the ledger of its worker, and the ledger becomes the map after the operation; no other
/// event changes a ledger.
pub fn answers_are_the_maps()
    // Each answer about a worker's own key is that of its ledger, which becomes what the operation makes of it. All
    // other ledgers stay the same.
    ensures { AnswersAreTheMaps }
{}

/// In every run each card wins iflag, ichild, iunflag, or dflag, mark, dchild, dunflag, or dflag, backtrack: each at most once,
/// in this order.
pub fn wins_are_in_order()
    // Each card's exchanges are won in order, each at most once: `iflag`, `ichild`, `iunflag`; or `dflag`, `mark`,
    // `dchild`, `dunflag`; or `dflag`, `backtrack`.
    ensures { WinsAreInOrder }
{}

/// Once a node's update word is a mark, neither it nor the node's children change again.
pub fn marked_nodes_are_frozen()
    // A marked node never changes.
    ensures { MarkedNodesAreFrozen }
{}

/// The children and the update word of the internal node of every card, claimed or not, only rise.
pub fn words_rise()
    // The update word and the children of a node never become less.
    ensures { WordsRise }
{}

/// No worker ever knows less, and every fact of every card that holds for the words, known or not, holds from then on.
pub fn facts_last()
    // What a worker knows stays known, and facts stay true.
    ensures { KnowledgeIsNeverLost }
{}

/// Where a claimed card goes, and the keys and values of its nodes, never change, and a node that came into the tree
/// remains one that did.
pub fn claimed_cards_are_fixed()
    // The record of a claimed card never changes, nor do the keys and values of its nodes.
    ensures cards { ClaimedCardsAreFixed }
    // A card never changes its kind, and what may be known of it may still be known later.
    ensures nodes { StagesRise }
{}

/// A reader of any key that goes down from the root and loads only children ends at a leaf that was the end of the walk
/// for the key in one state of the run, not before the reader began and not after it ended. So what it finds held in
/// that state.
pub fn looks_are_of_one_state()
    // A look, which only loads, ends at a leaf that tells what the tree had of its key in one state since the look
    // began.
    ensures { LooksAreOfOneState }
{}

/// Paths in a flat tree are short, whichever keys came, and in whichever order.
pub fn flat_trees_are_shallow()
    // In every state of a run of a flat tree an internal node is at most 64 steps deeper than the opening tree.
    ensures { FlatTreesAreShallow }
{}

/// A reader that only loads, and may keep nodes and go on from them later, finds at a leaf what held in one state of
/// the run for all keys of a stretch: those that went the same way wherever the reader went down, in a flat tree within the
/// block of each node. Of these the tree had in that state the leaf's key, or none. Of the keys of a stretch that the block
/// of a node lacks the tree had none in one state.
pub fn stretches_are_of_one_state()
    // For all keys of its stretch at once, a look tells what the tree had in one state since the look began, even if it
    // goes on from a kept node: the leaf's key with its value, or none.
    ensures leaves { StretchesAreOfOneState }
    // Of the keys of a stretch that the block of a node lacks, the tree had none in one state since the look began.
    ensures edges { EdgesAreOfOneState }
{}
