//! Laws of the definitions. Each is the contract of a function that does nothing.
ghost use Rattle.ell_core.specs.statements.Told.{FixedWordsStay, FrozenParentsStay};
ghost use Rattle.ell_core.specs.statements.Laws.{EachHasOneOutcome, RoomHoldsKeys};

/// Each event in each state has exactly one outcome: an answer with one state after it, or one of the first four refusals.
pub fn one_outcome()
    // In each state each event has exactly one outcome.
    ensures { EachHasOneOutcome }
{}

/// Room that is enough for the nodes that wait on a walk over a lawful tree is enough for its keys.
pub fn room_holds_keys()
    // Room for the nodes that wait on a walk over a lawful tree is room for its keys.
    ensures { RoomHoldsKeys }
{}

/// In later words, as an event and a run leave them, each word of a claimed card except its node's children and update
/// word is the same. If a card's mark stands at its parent, it still stands there, with the same children.
pub fn told_words_stay()
    // All words of a claimed card except its node's children and update word stay as they are.
    ensures fixed { FixedWordsStay }
    // The parent of a card keeps the card's mark, and its children below it.
    ensures frozen { FrozenParentsStay }
{}
