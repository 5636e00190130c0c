//! The laws of a table, whose words many passes share. Each is the contract of a function that does nothing, so that it is proved.
//!
//! A state of the table is the list of its words and what each pass knows. The table's calls make their steps through
//! `atomic_table`, which accepts no step, by any thread, that does not keep the table's rule: `IsReached`, that turns
//! of its passes, each a step call, a split or a join, have led from the table's start to the state. `HasMachine`
//! follows from it. What such runs do, whatever memory is like, the laws of `ell_runs` say.
ghost use Rattle.ell_runs.specs.Discarded.{CallsTouchNoDiscardedCard};
ghost use Rattle.ell_cards.specs.InRuns.{LooksAreOfOneState, StretchesAreOfOneState};
ghost use Rattle.ell_cards.specs.SeenLaws.{HistoriesAreTold, SeenIsInLine, SeenIsLinearizable};
ghost use Rattle.ell_cards.specs.InRuns.{GivenUpLastChangesNothing};
ghost use Rattle.ell_cards.specs.InRuns.{AnswersHaveTheirPoints};
ghost use Rattle.ell_cards.specs.InRuns.{DeletesTakeWhatTheyTell};
ghost use Rattle.ell_cards.specs.EpochLaws.{SafeEpochsAreSafe, FreeSlotsAreUntouched, NoSlotLeaks, RetiredNodesStayRetired, SlotsInUseAreFew};
ghost use Rattle.ell_cards.specs.RefinementLaws.{CallsKeepRefinement, SplitsKeepRefinement, JoinsKeepRefinement, EpochsKeepRefinement, TakesKeepRefinement, OpeningsRefine, CardsInSlotsAreFew, ExchangesAreNear, PassesTellApart, ChildrenAreApart};
ghost use Rattle.ell_cards.specs.ShownTakings.{TakingsAreShown};
ghost use Rattle.ell_cards.specs.Shown.{StepsAreShown, CallsCanBeShown, GuardsAreLifted, ClaimsAreShown, StoresStayWhole, TellingsAreShown, CallsActAlike, HandoversAreShown};

/// What each pass has seen is a beginning of its table's one history, which is linearizable, and whose calls are those that
/// passes were answered.
pub fn seen_is_history()
    // What each pass has seen of its table's history is linearizable.
    ensures linear { SeenIsLinearizable }
    // Of what two passes of a table have seen one is a beginning of the other.
    ensures line { SeenIsInLine }
    // The history of a table is linearizable; the calls that a pass was answered, it and those that were joined to it, are
    // calls of it, and no two are one; and where keys are shared, and a pass with nothing in hand has the whole share, the
    // order has no others.
    ensures all { HistoriesAreTold }
{}

/// Where a table's cards come back, and wherever the steps of its passes have led it: a pass that is pinned, as its
/// announcement says, was pinned when the epoch was the safe epoch of each pass at least, and the epoch that it
/// announces.
pub fn safe_epochs_are_safe()
    // A pass that is pinned was pinned when the epoch was each safe epoch at least.
    ensures began { SafeEpochsAreSafe }
    // No pass may touch a word of any card whose slot was set free with a retire epoch below some pass's safe epoch.
    ensures free { FreeSlotsAreUntouched }
    // From where a pass makes a call on, no step call that it may make touches a word of a card that was discarded
    // before.
    ensures discarded { CallsTouchNoDiscardedCard }
    // What a pass has retired for its card in hand is retired still, unless its slot is free or has another card by
    // now.
    ensures retired { RetiredNodesStayRetired }
    // The card of each slot that is in use has won its flag, or a pass holds the slot for it; and of each of its nodes
    // that is dead and not retired, the card that made it so is in hand of a pass, which is to retire it.
    ensures leaks { NoSlotLeaks }
    // So different slots in use are at most as many as the start keys, two for each key of the tree, three, and three
    // for each pass that has a card in hand or has lost a flag.
    ensures few { SlotsInUseAreFew }
{}

/// How a table whose cards come back uses slots anew. Its memory, which has words for slots alone, in each of which a
/// card lies, refines a tree that has words for each card number: at a slot it has what the tree has of the card that
/// lies there, cut to 64 bits, as far as that is kept. A step call touches words that have what the tree has, and keeps
/// the refinement.
pub fn refinement_is_kept()
    // A step call finds in memory what is cut of what it finds in the tree, and memory refines the tree after it.
    ensures calls { CallsKeepRefinement }
    // So it is after a split of a pass, and a join of two.
    ensures splits { SplitsKeepRefinement }
    ensures joins { JoinsKeepRefinement }
    // A step on the words of epochs keeps the refinement, and so does one by which a pass takes a slot in which a dead
    // card lies.
    ensures epochs { EpochsKeepRefinement }
    ensures takes { TakesKeepRefinement }
    // And so it is as a table opens.
    ensures opens { OpeningsRefine }
    // Different cards that all lie in their slots are at most as many as there are slots.
    ensures few { CardsInSlotsAreFew }
    // So a child exchange that a pinned pass may make expects a link that is near the one in the tree.
    ensures near { ExchangesAreNear }
    // Each pass tells the nodes that it has met apart by what child words hold of their numbers.
    ensures apart { PassesTellApart }
    // So it would with each node to which a child word of an internal one of them leads in the tree.
    ensures children { ChildrenAreApart }
{}

/// Where words have 64 bits, child words have their tags cut, and a pass that reads them knows what is shown of what
/// it would know by whole words: the same, with each tag cut. Step calls go by that as they do by the whole: what is
/// shown of what a pass knows after a call is what it knows after the call that is shown, and a call that it may make
/// by what is shown is one that it may make by the whole.
pub fn shown_views_step_alike()
    // What is shown of what a pass knows after a call is what it knows after the call that is shown.
    ensures steps { StepsAreShown }
    ensures claims { ClaimsAreShown }
    // Each call can be shown whose word 64 bits hold, and an exchange of a child word if the link that it expects is
    // near.
    ensures can { CallsCanBeShown }
    // A call that may be made by what is shown is shown of one that may be made by the whole: the same one, but for
    // tags.
    ensures guards { GuardsAreLifted }
    ensures stores { StoresStayWhole }
    // What a call tells of its word, and all that it leaves of a pass, is so of what is shown too.
    ensures tellings { TellingsAreShown }
    ensures takings { TakingsAreShown }
    // A call that is shown is the same act on the same word.
    ensures acts { CallsActAlike }
    // Splits and joins go by what is shown as well.
    ensures handovers { HandoversAreShown }
{}

/// What contracts show of a pass is so in each run of its table that leads there, whatever turns of whatever passes came
/// meanwhile.
pub fn shown_is_so_in_runs()
    // What a look has found of a key is what the tree had in one state since the look began.
    ensures looks { LooksAreOfOneState }
    // What a look has found of a stretch is what the tree had in one state since the look began: of all its keys one,
    // with its value, or none.
    ensures stretches { StretchesAreOfOneState }
    // What a pass was answered last is the answer of a call of the run, which had its point in its span.
    ensures answered { AnswersHaveTheirPoints }
    // A delete that answers yes took the value that its pass says it took: the key had it at the call's point.
    ensures taken { DeletesTakeWhatTheyTell }
    // A call that a pass gave up last changes the tree at no turn.
    ensures given_up { GivenUpLastChangesNothing }
{}
