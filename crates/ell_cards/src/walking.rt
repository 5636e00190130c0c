//! The step calls by which a pass begins, searches and ends its operation. Each is one atomic step. A search makes two or three at
//! each node, so those calls leave it to their caller to count the step ([`Pass::count`]).
ghost use Rattle.std.specs.Prelude.{◌≡◌, ◌≤◌, ◌<◌, ◌+◌, ℕ, Some};
ghost use Rattle.ell_core.specs.state.Machine.{ledger_of, worker_of};
ghost use Rattle.ell_runs.specs.Depths.{IsShallow, deepest};
ghost use Rattle.ell_word.specs.Link.{linked, IsLink};
ghost use Rattle.ell_layout.specs.Words.{IsLeaf};
ghost use Rattle.ell_core.specs.statements.Effects.{AnswersAsMap};
ghost use Rattle.ell_core.specs.acts.Searching.{MayStop};
ghost use Rattle.ell_runs.specs.declared.view.Told.TheVariants.{Met};
ghost use Rattle.ell_cards.specs.Models.{AnswersBy, BeginsBy, EndsBy, LooksBy, Sees, Steps};
ghost use Rattle.ell_runs.specs.Views.{Does, IsTold, InTable, EndWasUnknown, IsFree};
ghost use Rattle.ell_runs.specs.Plans.{flat_from};
ghost use Rattle.ell_runs.specs.Changes.{after_begin, after_again, after_leave, after_answer, after_rest, after_upd};
ghost use Rattle.ell_runs.specs.declared.call.Call.TheVariants as call;
ghost use Rattle.ell_runs.specs.Guards.{MayBegin, MayAnswer, MayRead, MayGoDown, MayLookDown};
ghost use Rattle.ell_runs.specs.Calls.{after, TellsKey, TellsLedgerValue};
ghost use Rattle.ell_ops.specs.declared.op.Op.{Op};
ghost use Rattle.ell_runs.specs.Seeing.{SeesBegin, SeesEnd, SeesLook};
ghost use Rattle.ell_cards.specs.Stepping.{LetsGo};
ghost use Rattle.ell_cards.specs.InRuns.{IsKnownInRun};
ghost use Rattle.ell_runs.specs.Looking.{KeysAreFixed, ReadsItsOwn, MissesItsOwn};

use crate::gate::StepGate;
use crate::memory::Memory;
use crate::pass::Pass;
use crate::places::{child_address, key_address, root_key, update_address, value_address};
use crate::steps::TableSteps;
use ell_ops::{Op, Reply};
use ell_runs::{Call, Glance, Stretch};
use ell_word::{Link, Update, unpack};
use std::marker::Brand;

impl<M: Memory, G: StepGate> TableSteps<'_, M, G> {
    /// Takes an operation on a key of the pass in hand, and stands at the root.
    #[inline(always)]
    pub fn begin(self, pass: &mut Pass<M>, op: Op)
        requires own { pass.old.table ≡ self.table.now.id }
        requires may { MayBegin pass.old.view op }
        // It makes one step and counts it. The pass then knows exactly what this call tells, is pinned if cards come
        // back, and counts slots that it could not take from here on.
        ensures step { BeginsBy self.entry.table.now.plan.slots pass.old pass.new
            (after_begin (Some op) pass.old.view) }
        // It has seen its table's history up to this step, and so behind all that it had seen before.
        ensures begins { SeesBegin op pass.old.sight pass.new.sight }
    {
        self.see_pinned(pass, Call::Begin(op), root_key());
        pass.count(1);
    }

    /// Gives a try up and starts the search anew: what its search has read in the way of the operation was a hindrance. Condition: the
    /// card in hand, if it is flagged, is known backed.
    #[inline(always)]
    pub fn again(self, pass: &mut Pass<M>)
        requires own { pass.old.table ≡ self.table.now.id }
        requires may { MayStop (worker_of pass.old.view.worker) }
        // Where cards come back, the pass has retired all that its card in hand made dead.
        requires retired { LetsGo self.table.now.plan pass.old }
        // It makes one step and counts it. The pass then knows exactly what this call tells.
        ensures step { Steps pass.old pass.new (after_again pass.old.view) }
    {
        self.load(pass, Call::Again, root_key());
    }

    /// Ends a try and gives the operation up without an answer. Hindrances and the condition are those of `again`.
    #[inline(always)]
    pub fn leave(self, pass: &mut Pass<M>)
        requires own { pass.old.table ≡ self.table.now.id }
        requires may { MayStop (worker_of pass.old.view.worker) }
        // Where cards come back, the pass has retired all that its card in hand made dead.
        requires retired { LetsGo self.table.now.plan pass.old }
        // It makes one step and counts it. The pass then knows exactly what this call tells, and is not pinned.
        ensures step { EndsBy pass.old pass.new (after_leave pass.old.view) }
        // The claims that the pass has tried were of cards of the table.
        ensures least { pass.old.view.next_at_least ≤ self.entry.table.now.plan.last_card + 1 }
    {
        self.load(pass, Call::Leave, root_key());
        self.table.unpin(pass);
    }

    /// Answers the operation in hand, by a reply and, if it is a delete that took a value, by that. What is said is the
    /// map's answer on the pass's ledger, which becomes the map after it.
    #[inline(always)]
    pub fn answer(self, pass: &mut Pass<M>, said: Reply, took: Option<u64>)
        requires own { pass.old.table ≡ self.table.now.id }
        requires may { MayAnswer pass.old.view said took }
        // Where cards come back, the pass has retired all that its card in hand made dead.
        requires retired { LetsGo self.table.now.plan pass.old }
        // It makes one step and counts it. The pass then knows exactly what this call tells, and is not pinned.
        ensures step { AnswersBy pass.old pass.new (after_answer said took pass.old.view) }
        // It has seen its table's history up to this step, by which a call of the pass has ended that it began no earlier
        // than the operation that it had begun last.
        ensures ends { (op : Op) → Does pass.old.view op → SeesEnd op said took pass.old.sight pass.new.sight }
        // The claims that the pass has tried were of cards of the table.
        ensures least { pass.old.view.next_at_least ≤ self.entry.table.now.plan.last_card + 1 }
        // The answer on a key that the pass owns is that of the ledger, which becomes what the operation makes of it.
        // An answer on a shared key leaves the ledger unchanged.
        ensures reply { AnswersAsMap (worker_of pass.old.view.worker) (ledger_of pass.new.view.worker.ledger) said }
    {
        self.load_marked(pass, Call::Answer(said, took), root_key());
        self.table.unpin(pass);
    }

    /// Reads the update word of the internal node where the pass stands.
    #[inline(always)]
    pub fn upd(self, pass: &mut Pass<M>, node: u64) -> Update
        requires own { pass.old.table ≡ self.table.now.id }
        requires may { MayRead pass.old.view node }
        // It makes one step, which the caller has to count. The pass then knows exactly what this call tells.
        ensures step { Sees pass.old pass.new (after_upd node result pass.old.view) }
        // The word is of a card of the table.
        ensures card { result.card ≤ self.entry.table.now.plan.last_card }
        // A flag or a mark is of a card whose end the pass did not know when its search began.
        ensures unknown { EndWasUnknown pass.old.view result.state result.card }
    {
        self.table.names(pass);
        unpack(self.see(pass, Call::Upd(node), update_address(node)))
    }

    /// Goes down from the internal node where the pass stands to the child on its key's side, a node of the table, a
    /// step deeper. Returns the child with its tag.
    #[inline(always)]
    pub fn down(self, pass: &mut Pass<M>, node: u64, right: bool) -> Link
        requires own { pass.old.table ≡ self.table.now.id }
        requires may { MayGoDown pass.old.view node right }
        // It makes one step, which the caller has to count. The pass then knows exactly what this call tells.
        ensures step { Sees pass.old pass.new (after (call.Down node right) (linked result) pass.old.view) }
        // The child is no deeper than a node of the table may be, and is one of the table; the node and the tag have a word.
        ensures shallow { IsShallow (deepest self.entry.table.now.plan) pass.new.view result.node }
        ensures there { InTable self.entry.table.now.plan.last_card result.node }
        ensures word { IsLink result }
    {
        self.table.names(pass);
        Link::of(self.see(pass, Call::Down(node, right), child_address(node, right)))
    }

    /// Reads the claim word: the number of the next card, one more than the number of the last card if all are claimed.
    #[inline(always)]
    pub fn next(self, pass: &mut Pass<M>) -> u64
        requires own { pass.old.table ≡ self.table.now.id }
        // It makes one step and counts it. The pass then knows exactly what this call tells.
        ensures step { Steps pass.old pass.new (after call.Next result pass.old.view) }
        // The claim word is at least 1, at most one past the last card, and past each claim that the pass has tried.
        ensures some { 1 ≤ result }
        ensures room { result ≤ self.entry.table.now.plan.last_card + 1 }
        ensures least { pass.old.view.next_at_least ≤ result }
    {
        self.load(pass, Call::Next, 0)
    }

    /// Begins a look at the root's left child, a node of the table: the root's key is above every real one, so that all
    /// real keys go there. Returns the child with its tag.
    #[inline(always)]
    pub fn look(self, pass: &mut Pass<M>) -> Link
        requires own { pass.old.table ≡ self.table.now.id }
        requires free { IsFree pass.old.view }
        // It makes one step, which the caller has to count. The pass then knows exactly what this call tells, and is
        // pinned if cards come back.
        ensures step { LooksBy self.entry.table.now.plan.slots pass.old pass.new
            (after call.Look (linked result) pass.old.view) }
        // It has seen its table's history up to this step, and so behind all that it had seen before.
        ensures looks { SeesLook pass.old.sight pass.new.sight }
        // The child is below the root, no deeper than a node of the table may be, and is one of the table; the node and
        // the tag have a word.
        ensures below { 0 < result.node }
        ensures shallow { IsShallow (deepest self.entry.table.now.plan) pass.new.view result.node }
        ensures there { InTable self.entry.table.now.plan.last_card result.node }
        ensures word { IsLink result }
    {
        self.table.names(pass);
        Link::of(self.see_pinned(pass, Call::Look, child_address(0, false)))
    }

    /// Goes down in a look from an internal node to which it has come, now or earlier, to the child on a side, by keys
    /// that go to this side: a node of the table, a step deeper. Returns the child with its tag.
    #[inline(always)]
    pub fn look_down(self, pass: &mut Pass<M>, from: Glance, keys: Stretch, right: bool) -> Link
        requires own { pass.old.table ≡ self.table.now.id }
        requires may { MayLookDown (flat_from self.table.now.plan) pass.old.view from keys right }
        // It makes one step, which the caller has to count. The pass then knows exactly what this call tells.
        ensures step { Sees pass.old pass.new (after (call.LookDown from keys right) (linked result) pass.old.view) }
        // The child is below the root, no deeper than a node of the table may be, and is one of the table; the node and
        // the tag have a word.
        ensures below { 0 < result.node }
        ensures shallow { IsShallow (deepest self.entry.table.now.plan) pass.new.view result.node }
        ensures there { InTable self.entry.table.now.plan.last_card result.node }
        ensures word { IsLink result }
    {
        self.table.names(pass);
        let word = child_address(from.node, right);
        Link::of(self.see(pass, Call::LookDown(from, keys, right), word))
    }

    /// Ends a look: the pass forgets what it told, and where it had come to. Where cards come back, it is unpinned by
    /// that.
    #[inline(always)]
    pub fn end_look(self, pass: &mut Pass<M>)
        requires own { pass.old.table ≡ self.table.now.id }
        requires free { IsFree pass.old.view }
        // It makes one step and counts it. The pass then knows exactly what this call tells, and is not pinned.
        ensures step { EndsBy pass.old pass.new (after_rest pass.old.view) }
        // What the pass knew before is what turns have led to.
        ensures known { IsKnownInRun self.entry.table.now.plan pass.old.view }
    {
        self.forget(pass);
        self.table.unpin(pass);
    }

    // The step call by which a pass forgets what a look told it, and where it had come to.
    #[inline(always)]
    fn forget(self, pass: &mut Pass<M>)
        requires own { pass.old.table ≡ self.table.now.id }
        requires free { IsFree pass.old.view }
        ensures step { Steps pass.old pass.new (after_rest pass.old.view) }
        ensures known { IsKnownInRun self.entry.table.now.plan pass.old.view }
    {
        self.table
            .load_as::<Brand, G>(pass, Call::Rest, root_key(), self.gate);
        pass.count(1);
    }

    /// Reads the key of a node that the pass has met. For the leaf where the pass stands, it is the operation's key
    /// exactly if the pass has that key present, and then the leaf has a grandparent; if the pass stands at an internal
    /// node whose block lacks the operation's key, the pass has that key absent. If a look for a key of the pass's
    /// own has come to its end by that, it has found what the pass has there. The key of a node never changes, so the
    /// pass was told no two different keys of one node (`fixed`).
    #[inline(always)]
    pub fn key_of(self, pass: &mut Pass<M>, node: u64) -> u64
        requires own { pass.old.table ≡ self.table.now.id }
        requires met { IsTold pass.old.view (Met node) }
        // It makes one step, which the caller has to count. The pass then knows exactly what this call tells.
        ensures step { Sees pass.old pass.new (after (call.KeyOf node) result pass.old.view) }
        // The key of a leaf is the operation's own key exactly if the ledger has that key present. The leaf then has a
        // grandparent. Of an internal node whose block lacks that key, the ledger has it absent. The key of an internal
        // node with a block is in that.
        ensures leaf { TellsKey (flat_from self.entry.table.now.plan) pass.old.view node result }
        // What a look has found of a key that the pass owns is what the ledger has, and a key of its own that it has
        // found missing is one that the ledger has absent.
        ensures looked { ReadsItsOwn pass.new.view }
        ensures missed { MissesItsOwn (flat_from self.entry.table.now.plan) pass.new.view }
        // The pass was told no two different keys of one node.
        ensures fixed { KeysAreFixed pass.new.view }
        // It was told no greater depth of a node than a node of the table may have.
        ensures shallow { (x : ℕ) → IsShallow (deepest self.entry.table.now.plan) pass.new.view x }
    {
        self.table.names(pass);
        self.see(pass, Call::KeyOf(node), key_address(node))
    }

    /// Reads the value of a leaf that the pass has met. For the leaf where the pass stands, whose key is known to be
    /// the operation's, it is the value that the pass has there; so it is for the leaf to which a look for a key of the
    /// pass's own has come.
    #[inline(always)]
    pub fn value_of(self, pass: &mut Pass<M>, leaf: u64) -> u64
        requires own { pass.old.table ≡ self.table.now.id }
        requires met { IsTold pass.old.view (Met leaf) }
        requires outer { IsLeaf leaf }
        // It makes one step, which the caller has to count. The pass then knows exactly what this call tells.
        ensures step { Sees pass.old pass.new (after (call.ValueOf leaf) result pass.old.view) }
        // The value of the operation's own key is that of the ledger.
        ensures value { TellsLedgerValue pass.old.view leaf result }
        // What a look has found of a key that the pass owns is what the ledger has, and a key of its own that it has
        // found missing is one that the ledger has absent.
        ensures looked { ReadsItsOwn pass.new.view }
        ensures missed { MissesItsOwn (flat_from self.entry.table.now.plan) pass.new.view }
        // The pass was told no two different keys of one node.
        ensures fixed { KeysAreFixed pass.new.view }
    {
        self.table.names(pass);
        self.see(pass, Call::ValueOf(leaf), value_address(leaf))
    }
}
