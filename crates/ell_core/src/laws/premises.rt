//! What the laws presuppose: openings, states of a run, states that follow one another, splits and joins, and a worker
//! that owns every key. Each law is the contract of a function that does nothing.
ghost use Rattle.ell_core.specs.statements.Start.{OpeningsHaveTheirStartKeys};
ghost use Rattle.ell_core.specs.statements.Premises.{TwoKeysCanOpen, OneWorkerOpens, OpeningsArePassed, OpeningsAreOpenings, EventsPassOn, StatesFollowThemselves, EventsAreFollowed, EveryTestParts, EveryPartingIsASplit, EveryUnionIsAJoin, IdleWorkersJoin, OneWorkerOwnsAll, IdleWorkerOwnsAll};

/// Any list of two real keys can open a tree, with workers that exist: one for each key, or one for both.
pub fn two_keys_can_open()
    // Any two keys can open a tree, of two workers or of one.
    ensures { TwoKeysCanOpen }
{}

/// One worker can open a tree with any ascending list of real keys, all of them its own, and any ascending list of
/// start keys among them, each with any value, which are present with these values, if there are cards for their tree.
pub fn one_worker_can_open()
    // One worker can open a tree with any ascending keys, and with start pairs that are of these keys or shared.
    ensures { OneWorkerOpens }
{}

/// Every opening is a state of a run, and is an opening.
pub fn openings_are_passed()
    // Each opening is a state of a run.
    ensures passed { OpeningsArePassed }
    ensures openings { OpeningsAreOpenings }
{}

/// The keys of an opening's tree are the start keys, with their values. Each of them has an owner, and of the keys that
/// a worker owns exactly these are present, with these values.
pub fn openings_have_their_start_keys()
    // The tree of an opening has exactly the start pairs. Each of their keys that is not shared has an owner, and of an
    // owner's keys those are present.
    ensures { OpeningsHaveTheirStartKeys }
{}

/// What an event makes of a state of a run is a state of a run; so is the state in which it is refused.
pub fn events_pass_on()
    // What an event makes of a state of a run is a state of a run.
    ensures { EventsPassOn }
{}

/// A state of a run is followed by itself, and by what any event makes of a state that follows it.
pub fn runs_can_be_followed()
    // Each state of a run follows itself, and is followed by what any event makes of a state that follows it.
    ensures itself { StatesFollowThemselves }
    ensures events { EventsAreFollowed }
{}

/// Each worker with nothing in hand can be split, however its ledger is parted, and no knowledge is lost. Any test of
/// keys parts a ledger.
pub fn every_parting_is_a_split()
    // An idle worker can be split by any test of keys.
    ensures partings { EveryTestParts }
    ensures splits { EveryPartingIsASplit }
{}

/// Any two workers with nothing in hand can be joined, with any ledger that theirs make together, and no knowledge is
/// lost. In a state for which the invariant holds, any two have such a ledger.
pub fn every_union_is_a_join()
    // Any two idle workers can be joined.
    ensures unions { EveryUnionIsAJoin }
    ensures workers { IdleWorkersJoin }
{}

/// If there is only one worker, and it has nothing in hand, it owns every key that is owned: at an opening, and in
/// every other state for which the invariant holds.
pub fn one_worker_owns_all()
    // If there is only one worker, and it is idle, it owns each key that has an owner.
    ensures opening { OneWorkerOwnsAll }
    ensures later { IdleWorkerOwnsAll }
{}
