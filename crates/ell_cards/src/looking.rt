//! The loads by which a look comes to its answer.
ghost use Rattle.std.specs.Prelude.{◌≡◌, ℕ};
ghost use Rattle.ell_layout.specs.Words.{IsLeaf};
ghost use Rattle.ell_runs.specs.declared.call.Call.TheVariants as call;
ghost use Rattle.ell_runs.specs.declared.view.Told.TheVariants.{Met};
ghost use Rattle.ell_cards.specs.Addresses.{place_of};
ghost use Rattle.ell_runs.specs.Calls.{atomic_of, Load, after, May, Tells, TellsKey};
ghost use Rattle.ell_runs.specs.Depths.{IsShallow, deepest};
ghost use Rattle.ell_runs.specs.LookPlaces.{FindsHavePlaces, SeesMoreInLook};
ghost use Rattle.ell_cards.specs.Models.{SeesInLook};
ghost use Rattle.ell_runs.specs.Looking.{KeysAreFixed, ReadsItsOwn, MissesItsOwn};
ghost use Rattle.ell_runs.specs.Views.{IsTold};
ghost use Rattle.ell_runs.specs.Plans.{flat_from};
ghost use Rattle.ell_runs.specs.Seeing.{IsCalm};
ghost use Rattle.ell_cards.specs.Stepping.{IsQuiet, MayInTable, MayTell, KeepsPass, SeesOnBy};

use crate::gate::{StepGate, kind_of};
use crate::memory::Memory;
use crate::pass::Pass;
use crate::places::{key_address, value_address};
use crate::rule::{Looked, TellingAll};
use crate::steps::TableSteps;
use crate::table::CardTable;
use ell_runs::Call;
use std::marker::Brand;

impl<M: Memory> CardTable<M> {
    // Loads a word by a step of a look that is not counted, by which the pass sees all of the table's history.
    #[inline(always)]
    fn load_looked_as<J: TellingAll, G: StepGate>(
        &self,
        pass: &mut Pass<M>,
        call: Call,
        word: usize,
        gate: &G,
    ) -> u64
        requires own { pass.old.table ≡ self.now.id }
        requires may { May self.now.plan call pass.old.view }
        requires quiet { IsQuiet call }
        requires calm { IsCalm call }
        requires word { word ≡ place_of call }
        requires kept { MayInTable self.now.plan pass.old call }
        requires atomic { atomic_of call ≡ Load }
        requires tells { MayTell self.now.plan call pass.old.view J.then }
        requires keeps { KeepsPass self.now.plan pass.old.view J.then }
        requires plan { J.plan ≡ self.now.plan }
        ensures told { J.then result pass.new.view }
        ensures step { SeesOnBy pass.old pass.new }
        ensures more { SeesMoreInLook pass.old.sight pass.new.sight }
        ensures places { FindsHavePlaces self.now.plan pass.new.view pass.new.sight }
    {
        gate.before(pass.label, kind_of(call));
        self.table.load::<Looked<J>>(&mut pass.seat, word)
    }
}

impl<M: Memory, G: StepGate> TableSteps<'_, M, G> {
    // A step call of a look, which loads its word, and leaves the step to be counted by its caller.
    #[inline(always)]
    fn see_looked(self, pass: &mut Pass<M>, call: Call, word: usize) -> u64
        requires own { pass.old.table ≡ self.table.now.id }
        requires may { May self.table.now.plan call pass.old.view }
        requires quiet { IsQuiet call }
        requires calm { IsCalm call }
        requires word { word ≡ place_of call }
        requires kept { MayInTable self.table.now.plan pass.old call }
        requires atomic { atomic_of call ≡ Load }
        ensures step { SeesInLook pass.old pass.new (after call result pass.old.view) }
        ensures places { FindsHavePlaces self.entry.table.now.plan pass.new.view pass.new.sight }
        ensures tells { Tells self.entry.table.now.plan call pass.old.view result }
        ensures looked { ReadsItsOwn pass.new.view }
        ensures missed { MissesItsOwn (flat_from self.entry.table.now.plan) pass.new.view }
        ensures fixed { KeysAreFixed pass.new.view }
        ensures shallow { (x : ℕ) → IsShallow (deepest self.entry.table.now.plan) pass.new.view x }
    {
        self.table
            .load_looked_as::<Brand, G>(pass, call, word, self.gate)
    }

    /// Reads the key of a node that the pass has met, in a look, as `key_of` does: the pass then has seen all that was
    /// done with the table up to now, and knows where in it stands what the look has found.
    #[inline(always)]
    pub fn look_key(self, pass: &mut Pass<M>, node: u64) -> u64
        requires own { pass.old.table ≡ self.table.now.id }
        requires met { IsTold pass.old.view (Met node) }
        // It makes one step, which the caller has to count. The pass then knows exactly what this call tells, and has
        // seen more of the history.
        ensures step { SeesInLook pass.old pass.new (after (call.KeyOf node) result pass.old.view) }
        // The key of an internal node with a block is in that, and of the node where the pass stands the call tells
        // more.
        ensures node { TellsKey (flat_from self.entry.table.now.plan) pass.old.view node result }
        // All that the look has found has its place in one order of the calls that the pass has seen.
        ensures places { FindsHavePlaces self.entry.table.now.plan pass.new.view pass.new.sight }
        // What a look has found of a key that the pass owns is what the ledger has, and a key of its own that it has
        // found missing is one that the ledger has absent.
        ensures looked { ReadsItsOwn pass.new.view }
        ensures missed { MissesItsOwn (flat_from self.entry.table.now.plan) pass.new.view }
        // The pass was told no two different keys of one node.
        ensures fixed { KeysAreFixed pass.new.view }
        // It was told no greater depth of a node than a node of the table may have.
        ensures shallow { (x : ℕ) → IsShallow (deepest self.entry.table.now.plan) pass.new.view x }
    {
        self.table.names(pass);
        self.see_looked(pass, Call::KeyOf(node), key_address(node))
    }

    /// Reads the value of a leaf that the pass has met, in a look, as `value_of` does, and tells of the history what
    /// `look_key` does.
    #[inline(always)]
    pub fn look_value(self, pass: &mut Pass<M>, leaf: u64) -> u64
        requires own { pass.old.table ≡ self.table.now.id }
        requires met { IsTold pass.old.view (Met leaf) }
        requires outer { IsLeaf leaf }
        // It makes one step, which the caller has to count. The pass then knows exactly what this call tells, and has
        // seen more of the history.
        ensures step { SeesInLook pass.old pass.new (after (call.ValueOf leaf) result pass.old.view) }
        // All that the look has found has its place in one order of the calls that the pass has seen.
        ensures places { FindsHavePlaces self.entry.table.now.plan pass.new.view pass.new.sight }
        // What a look has found of a key that the pass owns is what the ledger has, and a key of its own that it has
        // found missing is one that the ledger has absent.
        ensures looked { ReadsItsOwn pass.new.view }
        ensures missed { MissesItsOwn (flat_from self.entry.table.now.plan) pass.new.view }
        // The pass was told no two different keys of one node.
        ensures fixed { KeysAreFixed pass.new.view }
    {
        self.table.names(pass);
        self.see_looked(pass, Call::ValueOf(leaf), value_address(leaf))
    }
}
