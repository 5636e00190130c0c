//! The tree.
ghost use Rattle.std.specs.Prelude.{◌≡◌, ◌≢◌, ◌<◌, ◌≤◌, ◌+◌, ◌*◌, ◌++◌, [], false, length, None, Err, Ok, IfOk, IfErr, IfSome, OnOk, drop};
ghost use Rattle.std.specs.List.{All};
ghost use Rattle.std.specs.List.Sorted.{IsStrictlyIncreasing};
ghost use Rattle.std.specs.Map.{keys_of};
ghost use Rattle.ell_ops.specs.declared.op.Op.TheVariants.{Swap, Find, Insert, Delete};
ghost use Rattle.ell_ops.specs.KeySet.{set_of};
ghost use Rattle.ell_ops.specs.Meaning.{greatest_key, found};
ghost use Rattle.ell_word.specs.Node.{most_start};
ghost use Rattle.ell_core.specs.state.Opening.{last_card};
ghost use Rattle.ell_cards.specs.Models.{IsCardCount, RefusesCards, SplitRefuses};
ghost use Rattle.ell_runs.specs.Views.{MayPart};
ghost use Rattle.ell_runs.specs.Sights.{given_sight, joined_sight};
ghost use Rattle.ell_tree.specs.Called.{SeesAnswer, SeesDelete, SeesPut, SeesRemove, SeesTake, SeesUpdate};
ghost use Rattle.ell_tree.specs.CardsLeft.{AreLeftAtMost, ReadsCardsLeft};
ghost use Rattle.ell_tree.specs.CardsTaken.{TakesNoCard};
ghost use Rattle.ell_tree.specs.Computing.{update_steps_in, AreTried, AreTriedOrRead, IsNotDone, IsSum, PutsValue, RemovesIf, UpdatesValue, update_steps, whether_put};
ghost use Rattle.ell_tree.specs.Counts.{TookIn, Took};
ghost use Rattle.ell_tree.specs.Ends.{Answers, CountsTries, Ends, TakesValue, find_steps, found_or_not_done, replied, whether, whether_swapped};
ghost use Rattle.ell_tree.specs.Milestones.{milestones_known};
ghost use Rattle.ell_tree.specs.declared.operations.NotDone.TheVariants.{Busy};
ghost use Rattle.ell_tree.specs.Ledgers.{IsIdlePassOf, Owns, TreeModel, present_in};
ghost use Rattle.ell_cards.specs.InRuns.{IsKnownInRun};
ghost use Rattle.ell_tree.specs.LookPlaces.{SeesAround, SeesLast, SeesNext, SeesScan, SeesThere};
ghost use Rattle.ell_tree.specs.Looks.{EndsLooks, IsFoundIn, OnlyLooksOnce};
ghost use Rattle.ell_tree.specs.Scans.{AreFoundIn, AreInOrder, IsAbout, IsFoundAboutIn, IsLastIn, IsNextIn, OnlyScans, TellsItsOwn, end_of, value_there, written};
ghost use Rattle.ell_ops.specs.Contents.{contents_of};
ghost use Rattle.ell_tree.specs.PassParts.{IsFirst, IsLeftPart, IsRightPart, IsUnion};
ghost use Rattle.ell_tree.specs.Promises.{HasEnough, HasEnoughForOwn, IsOthersDoing, IsOthersDoingForOwn, IsQuiet, IsWithin, MayDo, SpendsCards};
ghost use Rattle.ell_runs.specs.Depths.{deepest};

use crate::computing::compute;
use crate::cursor::About;
use crate::operations::{NotDone, change, find};
use crate::reading::{cards_left, look, look_about};
use crate::removing::remove_if;
use crate::scanning::{Pair, Scanned, last_below, next_from, scan};
use ell_cards::{CardFault, CardTable, Memory, Pass, SplitFault, StepGate};
use ell_ops::{KEY_MAX, NoMemory, Op};
use std::marker::Model;

/// A map from keys to values that many threads share, each through a pass of its own. A pass finds, inserts and deletes
/// the keys that it owns, which no other pass does, and the shared ones, if the tree has any, as every pass does.
///
/// How many steps a call makes at most is told by two numbers of its tree. `cards` is the number of the last card: the
/// number of cards that the tree was asked for, plus one for each of its start keys. `depth` is the most internal nodes
/// above an internal node: in a flat tree (`TreeKind::Flat`) 64 if there were no start keys, and 84 at most with a
/// million of them; in any other tree, `cards`.
#[derive(Drop)]
pub struct Tree<M: Memory> {
    pub(crate) table: CardTable<M>,
    pub(crate) alloc: M::Alloc,
}

impl<M: Memory> Model for Tree<M> {
    ghost Value = { TreeModel };

    ghost view = { λ t. t.table };
}

impl<M: Memory> Tree<M> {
    /// Splits a pass, so that two threads can work: the left part gets these of its keys, strictly ascending, and the
    /// right part gets the rest, and a part of the share. Both keep its label. `TooManyPasses` is returned if some keys
    /// are shared and its share may not be split, and where cards come back also if no place is found for one more pass;
    /// otherwise `NoMemory` if an allocation fails. Either way the pass comes back as it was.
    pub fn split(
        &self,
        pass: Pass<M>,
        left_keys: &[u64],
    ) -> Result<(Pass<M>, Pass<M>), (Pass<M>, SplitFault)>
        requires may { IsIdlePassOf self.now pass }
        requires ascending { IsStrictlyIncreasing left_keys.now }
        requires owned { All (λ k. Owns pass k) left_keys.now }
        // The left part has these keys as they were, and keeps the counts, with one step more.
        ensures left { IfOk result (λ parts. IsLeftPart left_keys.now pass parts.0) }
        // The right part has the other keys and a piece of the share, knows the same milestones, and counts anew.
        ensures right { IfOk result (λ parts. IsRightPart left_keys.now pass parts.1) }
        // Both parts have seen of the tree's history what the pass has. The left part keeps the calls that the pass has, and
        // the right part has none.
        ensures sees { IfOk result (λ parts. (parts.0.sight ≡ pass.sight) × (parts.1.sight ≡ given_sight pass.sight)) }
        // Where no card comes back, `TooManyPasses` is returned exactly if the tree shares keys and the share is the
        // least one, and otherwise only `NoMemory`. Where cards come back, it is returned in that case too, and may be
        // in others. After either error the pass comes back as it was.
        ensures may { OnOk result (MayPart pass.view) }
        ensures refused { IfErr result (λ refused. refused.0 ≡ pass) }
        ensures why { IfErr result (λ refused. SplitRefuses self.now.plan.slots pass.view refused.1) }
    {
        self.table.split(pass, left_keys)
    }

    /// Joins two passes into one, with the keys of both and the label of the left one. If an allocation fails, both
    /// come back as they were.
    pub fn join(
        &self,
        left: Pass<M>,
        right: Pass<M>,
    ) -> Result<Pass<M>, (Pass<M>, Pass<M>, NoMemory)>
        requires left { IsIdlePassOf self.now left }
        requires right { IsIdlePassOf self.now right }
        // The pass has the keys and the shares of both, and knows no fewer milestones. In a row it counts one step more
        // than the greater of the two counts, and in all one more than their sum.
        ensures joined { IfOk result (IsUnion left right) }
        // It has seen the longer one of the beginnings of the tree's history that they have seen, and has the calls of both.
        ensures sees { IfOk result (λ both. both.sight ≡ joined_sight left.sight right.sight) }
        // If an allocation fails, both come back as they were.
        ensures refused { IfErr result (λ refused. (refused.0 ≡ left) × (refused.1 ≡ right)) }
    {
        self.table.join(left, right)
    }

    /// Gives a pass up. In a tree whose cards come back (`TreeKind::Reusing`), a pass that is given up between its calls
    /// makes room for another, which a later split finds. In any other tree nothing happens. Its keys and its share
    /// stay with nobody, so that a tree that needs them can no longer be closed.
    pub fn release(&self, pass: Pass<M>)
        requires own { pass.table ≡ self.now.id }
    {
        self.table.release(pass);
    }

    /// Returns the value of any key up to `KEY_MAX`, whichever pass owns it, if the key is present: the value that it
    /// had in one state of the tree between the first step of the look and its last, whatever other passes did in the
    /// meantime (`so`). A pass without keys may look too. The call writes nothing, helps no other call and waits for
    /// none. Two looks at two keys are of two states. The gate is told of each step, as `Look`, and of neither a begin
    /// nor an end.
    pub fn look<G: StepGate>(&self, pass: &mut Pass<M>, key: u64, gate: &G) -> Option<u64>
        requires may { IsIdlePassOf self.now pass.old }
        requires real { key ≤ greatest_key }
        // The answer is what the tree had for the key in one state since the look began, in every run.
        ensures so { IsFoundIn self.now pass.new.view key result }
        // The look began behind all of the tree's history that the pass had seen, and the answer has a place in an
        // order of the calls of what it has seen now, behind each call that had ended when the look began.
        ensures sees { SeesThere self.now key result pass.old pass.new }
        ensures one { pass.new.view.looks ≡ pass.old.view.looks + 1 }
        // For a key of the pass, it is what the pass has.
        ensures mine { Owns pass.old key → result ≡ present_in pass.old key }
        ensures only { OnlyLooksOnce self.now pass.old pass.new }
        ensures cards { TakesNoCard pass.old pass.new }
    {
        look(self.table.told_to(gate), pass, key)
    }

    /// Ends the looks and scans of a pass. In a tree whose cards come back, call this after them: until then, or until
    /// the pass begins and ends an operation, no card comes back that its looks might have read. It is one step, of
    /// which the gate is told as `Look`. In any other tree nothing happens.
    pub fn end_looks<G: StepGate>(&self, pass: &mut Pass<M>, gate: &G)
        requires may { IsIdlePassOf self.now pass.old }
        // The pass knows no node any more that a look has told it; or, where no card comes back, it is as it was.
        ensures ends { EndsLooks self.now.plan.slots pass.old pass.new }
        // It is not pinned: no card is held back for it.
        ensures unpinned { pass.new.memory.is_pinned ≡ false }
        // What the pass knew before is what a run of the tree led to.
        ensures known { self.now.plan.slots ≢ None → IsKnownInRun self.now.plan pass.old.view }
    {
        if self.table.reuses_cards() {
            self.table.told_to(gate).end_look(pass);
        } else {
            self.table.pins_are_in_reusing_trees(pass);
        }
    }

    /// Returns what is around a key, whichever passes own the keys there: for ONE state of the tree between the first
    /// step of the look and its last, it tells of all keys of a stretch that contains the key, those that are at least
    /// `low` and below `high`. Of these, the one in `found` was present, with this value, and no other; or none was. So
    /// a caller that asks again about `high` reaches every key in ascending order, and one that asks again about
    /// `low - 1`, in descending order. Steps, cards and gate are as for `look`.
    pub fn look_about<G: StepGate>(&self, pass: &mut Pass<M>, key: u64, gate: &G) -> About
        requires may { IsIdlePassOf self.now pass.old }
        requires real { key ≤ greatest_key }
        // The answer is what the tree had for all keys of the stretch in one state since the look began, in every run:
        // one of them, with its value, or none. The stretch contains the key.
        ensures so { IsFoundAboutIn self.now pass.new.view result }
        // What the pass has seen of the history is as after `look`, and the answer has one place for the whole stretch.
        ensures sees { SeesAround self.now result pass.old pass.new }
        ensures about { IsAbout key result }
        ensures one { pass.new.view.looks ≡ pass.old.view.looks + 1 }
        ensures mine { TellsItsOwn pass.old result.low result.high (value_there result.found) }
        ensures only { OnlyLooksOnce self.now pass.old pass.new }
        ensures cards { TakesNoCard pass.old pass.new }
    {
        look_about(self.table.told_to(gate), pass, key)
    }

    /// Writes the pairs of the keys that are at least `from` and below `upto`, whichever pass owns them, in strictly
    /// ascending order, into `room`, as far as there is room. Returns how many pairs it has written, and, if there may
    /// be more, the key at which to continue. The rest of `room` is left as it is. Each key of the range, as far as the
    /// scan got, is answered as by a look at it in one state of the tree between the first step of the scan and its
    /// last (`so`): what was present all along is written, what was absent all along is not, and each pair was there.
    /// Two keys may be of two states: a scan is not a snapshot. It writes nothing to the tree, helps no other call and
    /// waits for none. It takes about the steps of a walk over the part of the tree that has these keys. The gate is
    /// told of each step, as `Look`.
    pub fn scan<G: StepGate>(
        &self,
        pass: &mut Pass<M>,
        from: u64,
        upto: u64,
        room: &mut [Pair],
        gate: &G,
    ) -> Scanned
        requires may { IsIdlePassOf self.now pass.old }
        requires real { upto ≤ greatest_key + 1 }
        // Each key of the range, as far as the scan got, is answered as by a look at it, in some state since the scan
        // began: two keys may be of two states.
        ensures so { AreFoundIn self.now pass.new.view from (end_of upto result) (contents_of (written room.new result)) }
        // If the scan came by a key, what the pass has seen of the history is as after `look`, and each key has its
        // place.
        ensures sees { SeesScan self.now from (end_of upto result) (contents_of (written room.new result)) pass.old pass.new }
        // The pairs are of keys of the range, in strictly ascending order.
        ensures ordered { AreInOrder from (end_of upto result) (written room.new result) }
        // The scan reached the end of the range, or the room is full and `next` is the key at which to continue. The
        // rest of the room is unchanged.
        ensures count { result.count ≤ length room.old }
        ensures next { IfSome result.next (λ next. (from ≤ next) × (next < upto) × (result.count ≡ length room.old)) }
        ensures rest { drop result.count room.new ≡ drop result.count room.old }
        ensures one { pass.new.view.looks ≡ pass.old.view.looks + 1 }
        ensures mine { TellsItsOwn pass.old from (end_of upto result) (contents_of (written room.new result)) }
        ensures only { OnlyScans self.now pass.old pass.new }
        ensures cards { TakesNoCard pass.old pass.new }
    {
        scan(self.table.told_to(gate), pass, from, upto, room)
    }

    /// Returns the least present key that is at least `key`, with its value: it was present in one state of the tree
    /// during the call, and each key before it was absent in one. Steps, cards and gate are as for `scan`.
    pub fn next_at_least<G: StepGate>(
        &self,
        pass: &mut Pass<M>,
        key: u64,
        gate: &G,
    ) -> Option<(u64, u64)>
        requires may { IsIdlePassOf self.now pass.old }
        requires real { key ≤ greatest_key }
        // The answer is the least present key that is at least this one, with its value: it was present in one state
        // since the call began, and each key before it was absent in one.
        ensures so { IsNextIn self.now pass.new.view key result }
        ensures sees { SeesNext self.now key result pass.old pass.new }
        ensures one { pass.new.view.looks ≡ pass.old.view.looks + 1 }
        ensures only { OnlyScans self.now pass.old pass.new }
        ensures cards { TakesNoCard pass.old pass.new }
    {
        next_from(self.table.told_to(gate), pass, key)
    }

    /// Returns the least present key above `key`, with its value, as `next_at_least` does.
    pub fn next_after<G: StepGate>(
        &self,
        pass: &mut Pass<M>,
        key: u64,
        gate: &G,
    ) -> Option<(u64, u64)>
        requires may { IsIdlePassOf self.now pass.old }
        requires real { key ≤ greatest_key }
        // The answer is as that of `next_at_least`, for the keys above this one.
        ensures so { IsNextIn self.now pass.new.view (key + 1) result }
        // What the pass has seen of the history is as after `scan`, if there is such a key.
        ensures sees { key < greatest_key → SeesNext self.now (key + 1) result pass.old pass.new }
        ensures one { pass.new.view.looks ≡ pass.old.view.looks + 1 }
        ensures only { OnlyScans self.now pass.old pass.new }
        ensures cards { TakesNoCard pass.old pass.new }
    {
        next_from(self.table.told_to(gate), pass, key + 1)
    }

    /// Returns the least present key, with its value, as `next_at_least` does.
    pub fn first<G: StepGate>(&self, pass: &mut Pass<M>, gate: &G) -> Option<(u64, u64)>
        requires may { IsIdlePassOf self.now pass.old }
        // The answer is as that of `next_at_least`, for all keys.
        ensures so { IsNextIn self.now pass.new.view 0 result }
        ensures sees { SeesNext self.now 0 result pass.old pass.new }
        ensures one { pass.new.view.looks ≡ pass.old.view.looks + 1 }
        ensures only { OnlyScans self.now pass.old pass.new }
        ensures cards { TakesNoCard pass.old pass.new }
    {
        next_from(self.table.told_to(gate), pass, 0)
    }

    /// Returns the greatest present key that is at most `key`, with its value: it was present in one state of the tree
    /// during the call, and each key after it was absent in one. Steps, cards and gate are as for `scan`.
    pub fn last_at_most<G: StepGate>(
        &self,
        pass: &mut Pass<M>,
        key: u64,
        gate: &G,
    ) -> Option<(u64, u64)>
        requires may { IsIdlePassOf self.now pass.old }
        requires real { key ≤ greatest_key }
        // The answer is the greatest present key that is at most this one, with its value: it was present in one state
        // since the call began, and each key after it was absent in one.
        ensures so { IsLastIn self.now pass.new.view (key + 1) result }
        ensures sees { SeesLast self.now (key + 1) result pass.old pass.new }
        ensures one { pass.new.view.looks ≡ pass.old.view.looks + 1 }
        ensures only { OnlyScans self.now pass.old pass.new }
        ensures cards { TakesNoCard pass.old pass.new }
    {
        last_below(self.table.told_to(gate), pass, key + 1)
    }

    /// Returns the greatest present key below `key`, with its value, as `last_at_most` does.
    pub fn last_before<G: StepGate>(
        &self,
        pass: &mut Pass<M>,
        key: u64,
        gate: &G,
    ) -> Option<(u64, u64)>
        requires may { IsIdlePassOf self.now pass.old }
        requires real { key ≤ greatest_key }
        // The answer is as that of `last_at_most`, for the keys below this one.
        ensures so { IsLastIn self.now pass.new.view key result }
        // What the pass has seen of the history is as after `scan`, if there is such a key.
        ensures sees { 0 < key → SeesLast self.now key result pass.old pass.new }
        ensures one { pass.new.view.looks ≡ pass.old.view.looks + 1 }
        ensures only { OnlyScans self.now pass.old pass.new }
        ensures cards { TakesNoCard pass.old pass.new }
    {
        last_below(self.table.told_to(gate), pass, key)
    }

    /// Returns the greatest present key, with its value, as `last_at_most` does.
    pub fn last<G: StepGate>(&self, pass: &mut Pass<M>, gate: &G) -> Option<(u64, u64)>
        requires may { IsIdlePassOf self.now pass.old }
        // The answer is as that of `last_at_most`, for all keys.
        ensures so { IsLastIn self.now pass.new.view (greatest_key + 1) result }
        ensures sees { SeesLast self.now (greatest_key + 1) result pass.old pass.new }
        ensures one { pass.new.view.looks ≡ pass.old.view.looks + 1 }
        ensures only { OnlyScans self.now pass.old pass.new }
        ensures cards { TakesNoCard pass.old pass.new }
    {
        last_below(self.table.told_to(gate), pass, KEY_MAX + 1)
    }

    /// Returns how many cards are not given out yet, 0 if all are, in one step: the number at that step, while other
    /// passes went on. No more than that are ever left afterwards. The gate is told of the step, as `Look`.
    pub fn cards_left<G: StepGate>(&self, pass: &mut Pass<M>, gate: &G) -> u64
        requires own { pass.old.table ≡ self.now.id }
        // Returns how many cards its one load of the claim word found not given out. No more than that are left later.
        ensures reads { ReadsCardsLeft self.now.plan.last_card pass.old pass.new result }
        ensures most { AreLeftAtMost self.now pass.new.view result }
        ensures limit { result ≤ self.now.plan.last_card }
        // The pass keeps its tree and its map.
        ensures table { pass.new.table ≡ pass.old.table }
        ensures worker { pass.new.view.worker ≡ pass.old.view.worker }
        ensures taken { TakesNoCard pass.old pass.new }
    {
        cards_left(self.table.told_to(gate), pass)
    }

    /// Returns the value of a key of the pass, or of a shared one, if the key is present. The call helps no other call,
    /// nothing is in its way, and it takes no card and at most `3 * depth + 7` steps.
    pub fn find<G: StepGate>(&self, pass: &mut Pass<M>, key: u64, gate: &G) -> Option<u64>
        requires may { MayDo self.now key pass.old }
        // On a key of the pass, the answer is the value that the pass has. On any key, it is that of one thread at one
        // point of the call, in every run. The pass is idle, and keeps its keys and its share.
        ensures answers { Answers self.now (Find key) (found result) pass.old pass.new }
        ensures sees { SeesAnswer (Find key) pass.old pass.new (Ok (found result)) }
        ensures quiet { IsQuiet self.now pass.old pass.new }
        // It makes at most `3 * depth + 7` steps.
        ensures steps { Took pass.old pass.new (find_steps (deepest self.now.plan)) }
        ensures cards { TakesNoCard pass.old pass.new }
    {
        find(self.table.told_to(gate), pass, key)
    }

    /// Adds a key of the pass, or a shared one, with its value. Returns whether the key was absent. A key that is
    /// present keeps its value. The call makes at least one try and at most `tries`. It returns `Busy` if something was
    /// in the way of every try, and `Spent` if a try that would add the key finds no card: after either, the call has
    /// changed nothing, and nothing of it is under way. However it ends, whatever was in the way of a try is over by
    /// then: a card that another pass took first, or a change of a neighbor, which was helped to its end if no other
    /// call had ended it.
    ///
    /// Each try that ends without an answer shows the pass a card given out, or come to its end, that it did not know
    /// of, and no card does either twice. So all calls of a pass together take at most `7 * depth + 28` steps each, and
    /// `2 * cards * (7 * depth + 27)` more, in every schedule.
    pub fn insert<G: StepGate>(
        &self,
        pass: &mut Pass<M>,
        key: u64,
        value: u64,
        tries: u32,
        gate: &G,
    ) -> Result<bool, NotDone>
        requires may { MayDo self.now key pass.old }
        requires tries { 1 ≤ tries }
        ensures ends { Ends self.now tries (Insert key value) pass.old pass.new (replied result) }
        ensures sees { SeesAnswer (Insert key value) pass.old pass.new (replied result) }
        ensures others { result ≡ Err Busy → IsOthersDoing self.now tries pass.old pass.new }
        ensures steps { IsWithin self.now tries pass.old pass.new }
        ensures cards { self.now.plan.slots ≡ None → SpendsCards key tries pass.old pass.new result }
        ensures enough { HasEnough self.now tries result }
    {
        let steps = self.table.told_to(gate);
        Ok(change(steps, pass, Op::Insert(key, value), tries)?.is_some())
    }

    /// Gives a key of the pass, or a shared one, another value, if it has the value `was`, in one atomic step. Returns
    /// the value that it had, if it was present, so it was swapped exactly if that is `was`. A key that is absent, or
    /// has another value, is left unchanged. Tries, steps, cards and errors are as for `insert`.
    pub fn swap<G: StepGate>(
        &self,
        pass: &mut Pass<M>,
        key: u64,
        was: u64,
        value: u64,
        tries: u32,
        gate: &G,
    ) -> Result<Option<u64>, NotDone>
        requires may { MayDo self.now key pass.old }
        requires tries { 1 ≤ tries }
        // The answer is the value that the key has, which becomes the new one exactly if it is `was`: on a key of the
        // pass in the pass's map, and on any key as of one thread at one point of the call, in every run. A call
        // without an answer ends as an insert does, and what was in its way is over.
        ensures ends { Ends self.now tries (Swap key was value) pass.old pass.new (found_or_not_done result) }
        ensures sees { SeesAnswer (Swap key was value) pass.old pass.new (found_or_not_done result) }
        ensures others { result ≡ Err Busy → IsOthersDoing self.now tries pass.old pass.new }
        ensures steps { IsWithin self.now tries pass.old pass.new }
        ensures cards { self.now.plan.slots ≡ None →
            SpendsCards key tries pass.old pass.new (whether_swapped was result) }
        ensures enough { HasEnough self.now tries result }
    {
        let steps = self.table.told_to(gate);
        Ok(change(steps, pass, Op::Swap(key, was, value), tries)?)
    }

    /// Gives a key of the pass, or a shared one, this value, whether it was present or not, in one atomic step. Returns
    /// the value that it had, if it was present. The call reads the key, and then makes at least one try and at most
    /// `tries`. A try ends without success if something was in its way, as for `insert`, or if another pass has changed
    /// the key since it was read; the key is then read again. The call returns `Busy` if all tries end this way, and
    /// `Spent` if a try finds no card, as for `insert`: after either, the call has changed nothing, and nothing of it
    /// is under way.
    ///
    /// No other pass changes anything about a key of the pass. On a shared key, each try that finds it changed is the
    /// success of another call.
    pub fn put<G: StepGate>(
        &self,
        pass: &mut Pass<M>,
        key: u64,
        value: u64,
        tries: u32,
        gate: &G,
    ) -> Result<Option<u64>, NotDone>
        requires may { MayDo self.now key pass.old }
        requires tries { 1 ≤ tries }
        ensures puts { IfOk result (PutsValue self.now key value pass.old pass.new) }
        ensures sees { SeesPut key value pass.old pass.new result }
        ensures not_done { IfErr result (IsNotDone self.now key pass.old pass.new) }
        ensures tried { result ≡ Err Busy → AreTried tries pass.old pass.new }
        ensures others { IsOthersDoingForOwn self.now key tries pass.old pass.new result }
        // It makes at most `3 * depth + 7` steps, and `10 * depth + 35` for each try. It counts at most `tries` tries.
        ensures steps { TookIn self.now.plan pass.old pass.new (update_steps_in self.now.plan tries) }
        ensures counted { CountsTries tries pass.old pass.new }
        ensures cards { self.now.plan.slots ≡ None →
            SpendsCards key tries pass.old pass.new (whether_put result) }
        ensures enough { HasEnoughForOwn self.now key tries pass.old result }
    {
        let done = compute(self.table.told_to(gate), pass, key, |_| Some(value), tries)?;
        Ok(done.was)
    }

    /// Gives a key of the pass, or a shared one, the value that `f` makes of the one that it has, in one atomic step.
    /// Returns the value that it had. A key that is absent stays absent. `f` is called again for each value that is
    /// found; no other value has been there between the one that it was last called with and what it made of that.
    /// Tries, steps, cards and errors are as for `put`.
    pub fn update<G: StepGate, F: Fn(u64) -> u64>(
        &self,
        pass: &mut Pass<M>,
        key: u64,
        f: F,
        tries: u32,
        gate: &G,
    ) -> Result<Option<u64>, NotDone>
        requires may { MayDo self.now key pass.old }
        requires tries { 1 ≤ tries }
        requires f { F.IsAlwaysCallable f }
        ensures updates { IfOk result (UpdatesValue self.now key (F.post f) pass.old pass.new) }
        ensures sees { SeesUpdate key (F.post f) pass.old pass.new result }
        ensures not_done { IfErr result (IsNotDone self.now key pass.old pass.new) }
        ensures tried { result ≡ Err Busy → AreTried tries pass.old pass.new }
        ensures others { IsOthersDoingForOwn self.now key tries pass.old pass.new result }
        // It makes at most `3 * depth + 7` steps, and `10 * depth + 35` for each try. It counts at most `tries` tries.
        ensures steps { TookIn self.now.plan pass.old pass.new (update_steps_in self.now.plan tries) }
        ensures counted { CountsTries tries pass.old pass.new }
        ensures cards { self.now.plan.slots ≡ None → SpendsCards key tries pass.old pass.new (whether result) }
        ensures enough { HasEnoughForOwn self.now key tries pass.old result }
    {
        let made = |there: Option<u64>| match there {
            Some(value) => Some(f(value)),
            None => None,
        };
        let done = compute(self.table.told_to(gate), pass, key, made, tries)?;
        Ok(done.was)
    }

    /// Adds to the value of a key of the pass, or of a shared one, in one atomic step. Returns the value that it had. A
    /// sum above `u64::MAX` wraps around. A key that is absent stays absent. Tries, steps, cards and errors are as for
    /// `put`.
    pub fn fetch_add<G: StepGate>(
        &self,
        pass: &mut Pass<M>,
        key: u64,
        addend: u64,
        tries: u32,
        gate: &G,
    ) -> Result<Option<u64>, NotDone>
        requires may { MayDo self.now key pass.old }
        requires tries { 1 ≤ tries }
        // The key had the value that is returned, and has the sum modulo 2^64 instead, by one step; an absent key stays
        // absent. As for `put`, this holds in the pass's map, and as of one thread.
        ensures adds { IfOk result (UpdatesValue self.now key (IsSum addend) pass.old pass.new) }
        ensures sees { SeesUpdate key (IsSum addend) pass.old pass.new result }
        ensures not_done { IfErr result (IsNotDone self.now key pass.old pass.new) }
        ensures tried { result ≡ Err Busy → AreTried tries pass.old pass.new }
        ensures others { IsOthersDoingForOwn self.now key tries pass.old pass.new result }
        // It makes at most `3 * depth + 7` steps, and `10 * depth + 35` for each try. It counts at most `tries` tries.
        ensures steps { TookIn self.now.plan pass.old pass.new (update_steps_in self.now.plan tries) }
        ensures counted { CountsTries tries pass.old pass.new }
        ensures cards { self.now.plan.slots ≡ None → SpendsCards key tries pass.old pass.new (whether result) }
        ensures enough { HasEnoughForOwn self.now key tries pass.old result }
    {
        self.update(
            pass,
            key,
            |value: u64| value.wrapping_add(addend),
            tries,
            gate,
        )
    }

    /// Deletes a key of the pass, or a shared one, with its value. Returns whether the key was present. Tries, steps,
    /// cards and errors are as for `insert`.
    pub fn delete<G: StepGate>(
        &self,
        pass: &mut Pass<M>,
        key: u64,
        tries: u32,
        gate: &G,
    ) -> Result<bool, NotDone>
        requires may { MayDo self.now key pass.old }
        requires tries { 1 ≤ tries }
        ensures ends { Ends self.now tries (Delete key) pass.old pass.new (replied result) }
        ensures sees { SeesDelete key pass.old pass.new result }
        ensures others { result ≡ Err Busy → IsOthersDoing self.now tries pass.old pass.new }
        ensures steps { IsWithin self.now tries pass.old pass.new }
        ensures cards { self.now.plan.slots ≡ None → SpendsCards key tries pass.old pass.new result }
        ensures enough { HasEnough self.now tries result }
    {
        Ok(self.take(pass, key, tries, gate)?.is_some())
    }

    /// Deletes a key of the pass, or a shared one, and returns the value that it took, if the key was present. No other
    /// call took that value: at the point of the call the key had exactly this value, and it has none afterwards.
    /// Tries, steps, cards and errors are as for `delete`.
    pub fn take<G: StepGate>(
        &self,
        pass: &mut Pass<M>,
        key: u64,
        tries: u32,
        gate: &G,
    ) -> Result<Option<u64>, NotDone>
        requires may { MayDo self.now key pass.old }
        requires tries { 1 ≤ tries }
        ensures ends { Ends self.now tries (Delete key) pass.old pass.new (replied (whether result)) }
        ensures sees { SeesTake key pass.old pass.new result }
        ensures took { IfOk result (TakesValue self.now key pass.old pass.new) }
        ensures others { result ≡ Err Busy → IsOthersDoing self.now tries pass.old pass.new }
        ensures steps { IsWithin self.now tries pass.old pass.new }
        ensures cards { self.now.plan.slots ≡ None → SpendsCards key tries pass.old pass.new (whether result) }
        ensures enough { HasEnough self.now tries result }
    {
        Ok(change(self.table.told_to(gate), pass, Op::Delete(key), tries)?)
    }

    /// Deletes a key of the pass, or a shared one, if it has the value `was`, in one atomic step. Returns the value that
    /// the key had, if it was present, so it was removed exactly if that is `was`. A key that has another value is left
    /// unchanged. The step takes just this value, however often other passes have changed the key before it. Tries,
    /// steps, cards and errors are as for `put`.
    pub fn remove_if<G: StepGate>(
        &self,
        pass: &mut Pass<M>,
        key: u64,
        was: u64,
        tries: u32,
        gate: &G,
    ) -> Result<Option<u64>, NotDone>
        requires may { MayDo self.now key pass.old }
        requires tries { 1 ≤ tries }
        ensures removes { IfOk result (RemovesIf self.now key was pass.old pass.new) }
        ensures sees { SeesRemove key was pass.old pass.new result }
        ensures not_done { IfErr result (IsNotDone self.now key pass.old pass.new) }
        ensures tried { result ≡ Err Busy → AreTriedOrRead tries pass.old pass.new }
        ensures others { IsOthersDoingForOwn self.now key tries pass.old pass.new result }
        // It makes at most `3 * depth + 7` steps, and `10 * depth + 35` for each try. It counts at most `tries` tries.
        ensures steps { TookIn self.now.plan pass.old pass.new (update_steps_in self.now.plan tries) }
        ensures counted { CountsTries tries pass.old pass.new }
        ensures cards { self.now.plan.slots ≡ None →
            SpendsCards key tries pass.old pass.new (whether_swapped was result) }
        ensures enough { HasEnoughForOwn self.now key tries pass.old result }
    {
        Ok(remove_if(self.table.told_to(gate), pass, key, was, tries)?)
    }

    /// A law, the contract of a function that does nothing: a pass of the tree knows of at most two milestones of each
    /// card, whatever it did.
    pub fn known_milestones_are_few(&self, pass: &Pass<M>)
        requires own { pass.now.table ≡ self.now.id }
        // A pass knows of at most `2 * cards` milestones.
        ensures { milestones_known self.now.plan.last_card pass.now.view ≤ 2 * self.now.plan.last_card }
    {
        self.table.claims_stay_inside(pass);
    }
}
