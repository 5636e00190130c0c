//! What does not hold: statements close to the laws, each of which a small run shows to be false. The laws say no more
//! than they should. Each law is the contract of a function that does nothing.
ghost use Rattle.ell_core.specs.statements.Refuted.{WordsAlwaysRise, NextCardIsFixed, FlaggedNodesAreFrozen, NothingIsLearnt, ChildExchangesComeFirst, OneLedgerForAll, InsertsAddTheNextKey, AnswersAreOfTheMapAfter, BusyOwnersFindClean, SplitsMayTeach, LooksAreOfTheLastState, LooksAreOfTheFirstState};

/// Of schedules: update words may stay, the next card is not filled yet, a flagged node's child is exchanged, workers learn, and
/// an insert's flag is won before its child exchange.
pub fn runs_promise_no_more()
    // It is false that update words rise at each event: they may stay.
    ensures words { ¬ WordsAlwaysRise }
    // It is false that the next card is filled before it is claimed.
    ensures next_card { ¬ NextCardIsFixed }
    // It is false that flagged nodes are frozen: their child is exchanged.
    ensures flagged { ¬ FlaggedNodesAreFrozen }
    // It is false that workers learn nothing.
    ensures knowledge { ¬ NothingIsLearnt }
    // It is false that a child exchange comes before its flag.
    ensures order { ¬ ChildExchangesComeFirst }
{}

/// Of one event: ledgers differ, an insert adds the key of its own card, an answer is of the map before the operation, an owner
/// of all keys with an operation in hand may find a flag, and no part of a split may know more than its whole.
pub fn events_promise_no_more()
    // It is false that all workers have one ledger.
    ensures ledgers { ¬ OneLedgerForAll }
    // It is false that a won `ichild` adds the key of the next card: it adds that of its own.
    ensures keys { ¬ InsertsAddTheNextKey }
    // It is false that an answer is of the map after the operation: it is of the map before it.
    ensures answers { ¬ AnswersAreOfTheMapAfter }
    // It is false that an owner of all keys finds clean words even with an operation in hand: its own flag may stand.
    ensures busy_owner { ¬ BusyOwnersFindClean }
    // It is false that a part of a split may know what no worker knew.
    ensures split { ¬ SplitsMayTeach }
{}

/// Of looks: what a look finds need not hold when it ends, nor when it began.
pub fn looks_promise_no_more()
    // It is false that a look finds what the tree has when it ends, or what it had when it began.
    ensures last { ¬ LooksAreOfTheLastState }
    ensures first { ¬ LooksAreOfTheFirstState }
{}
