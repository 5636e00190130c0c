//! The laws of what any run of a table does, whatever its words lie in. Each is the contract of a function that does nothing, so that it
//! is proved.
//!
//! A state of a table is the list of its words and what each pass knows. `IsReached` says that turns of its passes, each a step call, a
//! split or a join, have led from the table's start to a state. `HasMachine` follows from it: the state is that of a machine of
//! `ell_core` for which the invariant holds. `runs_from_starts_are_lawful` is the law of all such runs, and says nothing of machines.
ghost use Rattle.ell_runs.specs.OwnWords.{OwnWordsAreSound, StepsStayInside, TablePairsChangeAtWins, TableChangesAreOperations, TableAnswersAreTheMaps, LedgersTellTheTree, TreeKeysAreOwned, TableNodesGoOn};
ghost use Rattle.ell_runs.specs.Starts.{TablesStart, StartsHaveTheirKeys, FirstPassMayBegin, RunsFromStarts};
ghost use Rattle.ell_runs.specs.SmallRun.{SmallRunIsMade, LookBeginsWhenGone, DeadIsKnown};
ghost use Rattle.ell_runs.specs.Readings.{ReadingsArePast, ClaimsAreWon};
ghost use Rattle.ell_runs.specs.Contention.{TriesAreHinderedByOthers};
ghost use Rattle.ell_runs.specs.Stretches.{FewFlagsWithoutAChange, TablesHaveHeights};
ghost use Rattle.ell_runs.specs.Meanwhile.{SearchesBeginThere, SearchesReadMeanwhile, SearchesMeetMeanwhile, KnownMilestonesWereReached};
ghost use Rattle.ell_runs.specs.Looking.{LooksAreInOrder, LooksReadTheirOwn, StretchesAreInOrder};
ghost use Rattle.ell_runs.specs.Changing.{CallsHaveTheirPoint, CallsAnswerAsAMap, CallsHaveTheirOwnCards, TreesAreMaps, TreesAreOfOneThread, CallsReplyAsOneThread};
ghost use Rattle.ell_runs.specs.Linearizing.{RunsAreLinearizable, LastAnswersAreOfCalls};
ghost use Rattle.ell_runs.specs.Histories.{HistoriesAreLinearizable};
ghost use Rattle.ell_runs.specs.Placing.{LooksHavePlaces};
ghost use Rattle.ell_runs.specs.GivingUp.{GivenUpCallsChangeNothing};
ghost use Rattle.ell_runs.specs.Touching.{CallsTouchTheirWords, TablesHaveOuts, CallsTouchNothingGone, KnownTakenOutIsGone, RestTouchesTheRoot, PassesNameMet};
ghost use Rattle.ell_runs.specs.Dead.{TablesHaveUses, TurnsKeepDead, CallsTouchNothingDead, CallsTouchNoDeadCard, KnownNeverComes, KnownDeadIsDead, OneCardTells};
ghost use Rattle.ell_runs.specs.Sharing.{SharesAddUp};
ghost use Rattle.ell_runs.specs.Tellings.{NoGreaterNext, NoGreaterUpdate, NoOtherOutcome, NoUntriedClaimLost};
ghost use Rattle.ell_runs.specs.Laws.{StepsAreEvents, SplitsAreHandovers, JoinsAreHandovers, MachineIsSound, MachineHasOwnWords};
ghost use Rattle.ell_runs.specs.Runs.{RunsAreLawful, RunsAreSchedules};
ghost use Rattle.ell_runs.specs.RunLaws.{TableWinsAreInOrder, StartsAreKept, ReachedHasMachine};

/// Each step call of a pass that may make it is one atomic step on one word of the table. A table that had a machine
/// before it has one after it, to which the call's event leads, with the answer that the word found gives; or the same
/// one. Since this holds for any machine that the table had, it holds for call after call.
pub fn steps_are_events()
    // Each step call is one atomic step on one word of the table, and one event of the machine, or none.
    ensures events { StepsAreEvents }
    ensures inside { StepsStayInside }
{}

/// A split of a pass with nothing in hand, and a join of two, are those of the machine that the table has.
pub fn splits_and_joins_are_handovers()
    // Each split and each join is one of the machine.
    ensures splits { SplitsAreHandovers }
    ensures joins { JoinsAreHandovers }
{}

/// In every state that turns lead a table to, its own words, with what its passes know, are a sound state: a lawful
/// tree, whose keys are those of the ledgers, in which each search stands right, each fact that is known holds, and
/// each flag is some pass's. The machine that it has is sound too, and its words are the table's, except at cards that
/// still wait for their flag.
pub fn tables_are_sound()
    // In every state that turns lead to, the table's own words, with what its passes know, are a sound state.
    ensures own { OwnWordsAreSound }
    // The machine is sound. Its words are the table's own, except at cards that wait for their flag.
    ensures machine { MachineIsSound }
    ensures words { MachineHasOwnWords }
{}

/// At each step call of each pass the keys of the tree and their values, as the table's own words make it, change at a
/// won ichild, which adds its card's key with its value, and at a won dchild, which takes its card's key with its value
/// away; at every other step they stay the same. Whichever pass makes it, a won ichild is of an insert of that key and
/// value that some pass has in hand, and a won dchild is of a delete.
pub fn table_pairs_change_at_wins()
    // The tree's pairs change only at won child exchanges, each for an operation that some pass has in hand.
    ensures pairs { TablePairsChangeAtWins }
    ensures operations { TableChangesAreOperations }
{}

/// Each answer of a pass is the map's answer to its operation, by its ledger, which becomes the map after the
/// operation; no other step call changes a ledger. And the map is the one in the table: each key of the tree that the
/// table's own words make is some pass's, and a pass with nothing in hand has each of its keys in its ledger as that
/// tree has it, with its value.
pub fn table_answers_are_the_maps()
    // Answers on a key that the pass owns are those of its ledger, and what an idle pass has present is what the tree
    // has of its keys.
    ensures answers { TableAnswersAreTheMaps }
    ensures ledgers { LedgersTellTheTree }
    // Each key of the tree that is not shared has an owner.
    ensures owned { TreeKeysAreOwned }
{}

/// In every run of step calls, splits and joins, of any passes in any order, from a state that has a machine, every
/// state has one and is sound, each call is its event and each split and join the machine's, and the keys of the tree
/// and their values change only at the won ichilds and dchilds. A run of step calls is one of the machine, by the
/// events of its calls. And in every state that turns lead to from a table's start, the table has a machine.
pub fn runs_are_lawful()
    // In every state that turns lead to, the table has a machine with the invariant, whose run it is.
    ensures turns { RunsAreLawful }
    ensures schedules { RunsAreSchedules }
    ensures reached { ReachedHasMachine }
{}

/// In every run each card's exchanges are won in order: iflag, ichild, iunflag, or dflag, mark, dchild, dunflag, or
/// dflag, backtrack, each at most once. What was won before the run counts too; for a card that is yet to be claimed,
/// that is nothing.
pub fn table_wins_are_in_order()
    // From every state that turns lead to, each card's exchanges continue to be won in order, each at most once.
    ensures { TableWinsAreInOrder }
{}

/// In every run each node that was reached from the root keeps its key, whether it is reached later or not. Its
/// children and its update word only rise, and once the update word is a mark, neither it nor the children change
/// again.
pub fn table_nodes_go_on()
    // Nodes that were reached keep their keys, and their words never become less.
    ensures { TableNodesGoOn }
{}

/// The laws are not vacuous. For any ascending list of real keys that have owners, any ascending list of start keys,
/// which are among them if no key is shared, with any values, and any number of cards, there is a table as it starts,
/// with a machine that is an opening, with nothing won yet. The keys of its tree are the start keys, with their values,
/// and its one pass may begin any operation on a key of its own, and on a shared one.
pub fn tables_start()
    // There is a table for any keys and start pairs, including one of shared keys. Its machine is an opening, and its
    // tree has the start pairs.
    ensures tables { TablesStart }
    ensures kept { StartsAreKept }
    ensures keys { StartsHaveTheirKeys }
    // The first pass may begin any operation on a key of its own, or on a shared one.
    ensures begin { FirstPassMayBegin }
{}

/// No law is vacuous: each step call can be made in some run from a start, and a split and a join. A table of two keys
/// and three cards to give out, of which one key is there at the start, has this run of two passes: a delete flags the
/// root; an insert flags the node that the delete is about to mark; the delete loses its mark to that flag, helps the
/// insert to its end, and takes its own flag away; the insert finds itself made; the delete is tried again, marks, cuts
/// its node out and answers; the other pass looks for the key that was inserted, finds it, and ends the look; and it
/// begins a find, which it gives up.
pub fn each_call_can_be_made()
    // The conditions of the step calls can be met: a small run from a start makes each of them, a split and a join. In
    // it a delete loses its mark to an insert and helps it, and then is made.
    ensures { SmallRunIsMade }
{}

/// The law of every run from a table as it starts, by any passes in any order. The tree that the table's own words make
/// begins with the start keys, with their values. Each turn changes it at a won ichild, which adds its card's key with
/// its value, at a won dchild, which takes its card's key with its value away, and otherwise not at all; such a card is
/// of an insert or a delete that some pass has in hand. Each answer is the map's on its pass's ledger, and no other
/// turn except a split and a join changes a ledger. Each card's exchanges are won in order. And after each turn the
/// words, with what the passes know, are a sound state.
pub fn runs_from_starts_are_lawful()
    // In every run from a start the tree begins with the start pairs, and changes only at a won `ichild` or `dchild`,
    // by that card's operation, which some pass has in hand. Each answer on a key that the pass owns is that of its
    // ledger; each card's exchanges are won in order; every state is sound.
    ensures { RunsFromStarts }
{}

/// In every state that turns lead a table to, what each pass knows of the claim word belongs to the past: a reading
/// of it is at most what the word is now, and a card whose claim the pass lost is below it. And some pass has won the
/// claim of each card that was claimed.
pub fn readings_are_past()
    // What a pass knows of the claim word belongs to the past.
    ensures past { ReadingsArePast }
    // Each claim was won by some pass.
    ensures claimed { ClaimsAreWon }
{}

/// In every run from a start, consider the part from where a pass begins a search, for as long as the pass takes no
/// other operation in hand, no matter which turns of which passes come between. Each flag and mark that its search
/// has read and has with it, and each that was in its way in any of its tries, is of a card that had not come to its
/// end at that beginning; if the pass knows that the card has, the card did so meanwhile. A card whose claim was lost
/// was given out meanwhile, and a clean word that a lost flag or mark found is of a card that ended meanwhile. While
/// the pass has a card in hand, nothing that was in its way is of that card. Each claim that it lost is of an earlier
/// card, or, in a flat tree, of a later one where it was lost while that card was in hand. A search begins after each
/// begin and each again. What a pass knows of milestones was reached: the cards that its claims have shown to be
/// given out are, and each card that it knows to have come to its end did so in the run. And of its tries at one
/// operation, others can hinder two for each card that is given out to them meanwhile, and one for each card that was
/// in a hand at the beginning.
pub fn searches_read_meanwhile()
    // What a search meets in its way is of another card that had not ended when the operation began, or that was given
    // out or ended since then.
    ensures begin { SearchesBeginThere }
    ensures reads { SearchesReadMeanwhile }
    ensures meets { SearchesMeetMeanwhile }
    // The milestones that a pass knows of were reached.
    ensures reached { KnownMilestonesWereReached }
    // Of the tries at an operation that a pass gives up for a hindrance that is over, there are at most two for each
    // card given out to another pass since it began, and one for each card in some hand then.
    ensures few { TriesAreHinderedByOthers }
{}

/// Flags lead to changes of the tree. Take any run from a start, and in it a stretch of any turns of any passes in
/// which no ichild and no dchild is won, so that the tree stays as it is. If no path from the root to an internal node
/// is longer than `h`, then in the whole stretch, however long it is, at most `(h + 1) * (w + 2 * c) + c` flags are
/// won: `w` passes had an operation in hand when it began, and `c` have a card in hand when it ends. So if no more than
/// `p` passes have an operation in hand at a time, in each part of a run in which more than `p * (3 * h + 4)` flags are
/// won, an ichild or a dchild is won too, by which some insert or delete takes effect. There is such an `h`: the number
/// of the last card. The law counts won flags; other laws and contracts bound how many steps and tries a call makes.
pub fn changes_go_on()
    // While no child exchange is won, at most (h + 1) (w + 2 c) + c flags are won: h is the height of the tree, w the
    // number of passes with an operation in hand at the beginning, and c that of cards in hand at the end.
    ensures few { FewFlagsWithoutAChange }
    // The height is at most the number of the last card.
    ensures height { TablesHaveHeights }
{}

/// Looks are linearizable: what a pass finds by a look for any key, no matter who owns it, held in one state of the table
/// since the look began, by the table's own words; and of two looks, of which the second begins after the first has
/// ended, the second is of no earlier state. And a pass that looks for a key of its own finds what its ledger has.
pub fn looks_are_in_order()
    // A look that begins after another has ended is of no earlier state.
    ensures order { LooksAreInOrder }
    // What a look has found of a key that the pass owns is what the ledger has.
    ensures own { LooksReadTheirOwn }
{}

/// What a pass finds by a look of a whole stretch of keys held in ONE state of the table since the look began: of these
/// keys the tree had one, with its value, or none. A look may keep the nodes to which it has come, and go on from them
/// later: what it then finds is of a state since it began too. And of two looks, of which the second begins after the
/// first has ended, the second is of no earlier state.
pub fn stretches_are_in_order()
    // A look that begins after another has ended is of no earlier state.
    ensures { StretchesAreInOrder }
{}

/// A call of any pass, on a key of its own or on a shared one, has one point within its span, no matter which turns of
/// which passes come meanwhile: a state for which its answer is the map's, by the table's own words; or, if it answers
/// yes by its card, the turn in which that card's child exchange was won, by any pass, at which the tree changed just
/// as the operation says.
pub fn calls_have_their_point()
    // Each call that answers, on a key that the pass owns or a shared one, has one point in its span: its answer is
    // that of one thread there. There it leaves the map as it is, or the next turn wins the exchange of its own card.
    // No card is in the hands of two calls.
    ensures point { CallsHaveTheirPoint }
    ensures map { CallsAnswerAsAMap }
    ensures apart { CallsHaveTheirOwnCards }
    ensures maps { TreesAreMaps }
    ensures thread { TreesAreOfOneThread }
    ensures replies { CallsReplyAsOneThread }
{}

/// A call that was given up without an answer changes nothing: no turn of any run changes the tree for it, neither
/// before it was given up nor after it.
pub fn given_up_calls_change_nothing()
    // A call that was given up without an answer changes the tree at no turn, neither before that nor later.
    ensures { GivenUpCallsChangeNothing }
{}

/// Together, the passes of a table have the whole share, and each that may change a shared key has some of it.
pub fn shares_add_up()
    // Together, the passes of a table have the whole share, and each that may change a shared key has some of it.
    ensures { SharesAddUp }
{}

/// Every run from a start, by any passes in any order, is linearizable. There is one sequence of its calls, as if one
/// thread made one after the other: of each call that has ended, with its answer, and of each that has not ended but
/// has changed the tree, as if it had answered yes. A call that ended before another began stands before it, the
/// replies are those of the map that has the start keys first, and the tree is what they leave. It does not matter
/// whose keys they are: a key may be one pass's or shared. And what a pass answered last is a call of each run that
/// leads there.
pub fn runs_are_linearizable()
    // Every run is linearizable: there is one sequence of its calls in which each answers as one thread would, each
    // stands after those that ended before it began, and what they leave is the tree. Of the calls that have not ended,
    // it has exactly those that have changed the tree.
    ensures runs { RunsAreLinearizable }
    // What a pass answered last is a call of the run.
    ensures last { LastAnswersAreOfCalls }
{}

/// The history of every run from a start, by any passes in any order, is linearizable.
pub fn histories_are_linearizable()
    // The history of every run is linearizable.
    ensures { HistoriesAreLinearizable }
{}

/// Every run from a start is linearizable by a sequence of its calls in which each look at a key has a place: it finds
/// what one thread finds there.
pub fn looks_have_places()
    // Each look has a place in the one sequence of calls, after those that ended before it began, and before those that
    // began after it had ended.
    ensures { LooksHavePlaces }
{}

/// The table's rule has force: there are things that no step can tell, since no turns lead to the state after it. None
/// can tell a greater claim word than the table has, or a greater update word than a node has; that an exchange was
/// lost that it won, or won that it lost, be it a claim, a flag, a mark, the exchange of a child or the taking away of
/// a flag; or that a claim was lost that was not tried.
pub fn steps_tell_what_is_there()
    // No step can tell a greater claim word or update word than there is.
    ensures next { NoGreaterNext }
    ensures update { NoGreaterUpdate }
    // No step can tell another outcome of an exchange, or that a claim was lost that was not tried.
    ensures outcome { NoOtherOutcome }
    ensures untried { NoUntriedClaimLost }
{}

/// What a pass was told it has forgotten where it begins an operation or a look, and again where that ends. So from
/// there on, in every run, each step call of the pass touches only what was not gone then: the word of a node that no
/// card had taken out of the tree for good, or that of a card that had not come to its end. Nor does it touch what was
/// dead then: the word of a node that was gone or never comes into the tree, or that of a card whose internal node was,
/// or that was discarded.
pub fn calls_touch_nothing_gone()
    // Each step call touches a word of the node or of the card that it is said to touch.
    ensures words { CallsTouchTheirWords }
    // Wherever turns have led a table, what was taken out is not in the tree, and one card has taken it out.
    ensures outs { TablesHaveOuts }
    // From where a pass forgets, its step calls touch nothing that was gone then.
    ensures touches { CallsTouchNothingGone }
    // There is a run in which a look begins when a node is gone.
    ensures premise { LookBeginsWhenGone }
    // A node is gone if a pass knows that a card is over that took the node out.
    ensures gone { KnownTakenOutIsGone }
    // A pass at rest touches nothing but the root's words and the claim word.
    ensures rest { RestTouchesTheRoot }
    // Wherever turns have led a table, no internal node that came into its tree has a child that nobody uses, and
    // what was dead stays so.
    ensures uses { TablesHaveUses }
    ensures stays { TurnsKeepDead }
    // From where a pass forgets, its step calls touch nothing that was dead then, and no word of a card whose nodes
    // all were.
    ensures alive { CallsTouchNothingDead }
    ensures cards { CallsTouchNoDeadCard }
    // A node is dead if a pass knows that its card is over and does not bring it, that nobody uses it, or that a card
    // which is over has taken it out.
    ensures never { KnownNeverComes }
    ensures dead { KnownDeadIsDead }
    // Passes know that a node is dead by one card alone.
    ensures once { OneCardTells }
    // There is a run in which a pass knows that no node of its card comes into the tree.
    ensures known { DeadIsKnown }
    // A pass has met each node that it names, but for leaves of cards, and a marked card's leaf is a child of the
    // card's parent.
    ensures named { PassesNameMet }
{}
