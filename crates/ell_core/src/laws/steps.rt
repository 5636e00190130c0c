//! Laws of one event, from any state for which the invariant holds, over plain states: what a proof about other code
//! that makes these steps can rely on. Each law is the contract of a function that does nothing.
ghost use Rattle.ell_core.specs.statements.Waiting.{StagesTellWaiting, EventsLeaveWaiting, ClaimedCardsSay};
ghost use Rattle.ell_core.specs.statements.StepLaws.{EventsAreLawful, SplitsAreLawful, JoinsAreLawful, InvariantIsSound, StepsMayRely, OwnerFindsClean};
ghost use Rattle.ell_core.specs.statements.Walks.{RootsAvoid, EventsKeepAvoiding};
ghost use Rattle.ell_core.specs.statements.Since.{SearchesBegin, SearchesGoOn, CleansGoOn};
ghost use Rattle.ell_core.specs.statements.Looks.{CoursesGoOn};

/// A state for which the invariant holds is sound.
pub fn invariant_is_sound()
    // A state with the invariant is sound.
    ensures { InvariantIsSound }
{}

/// Each of the fifteen events, won and lost, keeps the invariant, and changes the keys with their values, ledgers, knowledge and facts as it should.
pub fn events_are_lawful()
    // Each event keeps the invariant. It changes pairs and ledgers as its outcome says, and what is known stays known
    // and true.
    ensures { EventsAreLawful }
{}

/// A split and a join of workers with nothing in hand keep the invariant.
pub fn handovers_are_lawful()
    // Splits and joins keep the invariant.
    ensures split { SplitsAreLawful }
    ensures join { JoinsAreLawful }
{}

/// What a step may rely on: where a worker stands and what it has behind it came into the tree, children have greater
/// ranks and stand in the table, an update word names a claimed card that set it there, and so does one that was read
/// before. Cards go to nodes that came into the tree, a delete's ever deeper, and the mark of a card that is known to
/// be marked stands. A leaf where a worker stands has its key and value exactly if its ledger has them, and then there
/// is a grandparent. Each card in hand, or about which anything is known, is a claimed one.
pub fn steps_may_rely()
    // In a state with the invariant a worker stands at a node that it may read, and what it read names claimed cards;
    // its way and its cards lead ever deeper; and at a leaf its own key is there exactly if its ledger says so.
    ensures { StepsMayRely }
{}

/// If one worker owns every key and has nothing in hand, every reached update word is clean.
pub fn owner_finds_clean()
    // An idle worker that owns each key that another may change finds only clean words in the tree.
    ensures { OwnerFindsClean }
{}

/// A card that was claimed waits until it wins its flag. One that is in hand and not flagged waits, and is in no other
/// hand. No event changes any word of a card that waits, and only the card's own flag, by any worker that has it in
/// hand, ends its waiting. A claim fills the next card, whose words were 0, and that card waits.
pub fn cards_wait()
    // A claimed card waits until it wins its flag: it is in one hand at most, none of its nodes came into the tree, and
    // no event changes its words.
    ensures stages { StagesTellWaiting }
    ensures events { EventsLeaveWaiting }
    // After a claim, each field of the card has what the filling says, or 0.
    ensures claimed { ClaimedCardsSay }
{}

/// No walk from the root passes a parent that a delete has cut out. A walk from a node that came into the tree that
/// passes none of those that some deletes have cut out passes none of them after any event. So a search meets no node
/// that was cut out when it began.
pub fn walks_avoid_what_was_cut()
    // No walk meets a node that was cut out before the walk began, no matter which events come.
    ensures roots { RootsAvoid }
    ensures events { EventsKeepAvoiding }
{}

/// What a search has read since it began, no matter what comes between, is of no card whose flag was already taken away
/// when it began, and at no node that was already cut out then. An update word that has become clean since then is of a
/// card whose flag stood there and was taken away since then.
pub fn searches_see_what_stands()
    // A flag or a mark that a search reads is of a card that had not ended when the search began.
    ensures begin { SearchesBegin }
    ensures go_on { SearchesGoOn }
    // An update word that became clean since then is of a card whose flag stood there and that has ended since then.
    ensures cleans { CleansGoOn }
{}

/// If a node is on course for a key, no matter who owns the key, every event leaves the node's child on the key's side
/// as it was, or the node is on the walk for the key from the root. So a reader that only loads goes from nodes that
/// have been on that walk to nodes that have been on it.
pub fn courses_go_on()
    // A node on course for a key stays on course after any event. Its child on the key's side stays as it was, or the
    // node is on the key's walk.
    ensures { CoursesGoOn }
{}
