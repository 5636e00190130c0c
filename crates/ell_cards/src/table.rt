//! The table, and the atomic steps of its passes on words, each told to a gate just before it is made.
ghost use Rattle.std.specs.Prelude.{◌==◌, ◌≡◌, ◌≢◌, ℕ, ◌<◌, ◌≤◌, ◌+◌, None, Some, true};
ghost use prog.Atomic.{either};
ghost use Rattle.ell_core.specs.declared.fact.Fact.{Fact};
ghost use Rattle.ell_core.specs.state.Facts.{card_of_fact};
ghost use Rattle.ell_word.specs.Node.{greatest_card, greatest_number};
ghost use Rattle.ell_word.specs.Link.{greatest_tag};
ghost use Rattle.ell_runs.specs.declared.view.Told.TheVariants.{Expects};
ghost use Rattle.ell_runs.specs.Plans.{flat_from};
ghost use Rattle.ell_runs.specs.Views.{IsTold, Knows};
ghost use Rattle.ell_cards.specs.Apart.{NamesLowBits};
ghost use Rattle.ell_runs.specs.Naming.{IsNamed};
ghost use Rattle.ell_cards.specs.InSlots.{IsPlaced};
ghost use Rattle.ell_runs.specs.Depths.{deepest};
ghost use Rattle.ell_cards.specs.Addresses.{place_of};
ghost use Rattle.ell_runs.specs.Calls.{atomic_of, Load, Store, Exchange, May};
ghost use Rattle.ell_cards.specs.declared.view.Participant.{Participant};
ghost use Rattle.ell_cards.specs.Epochs.{after_flagging};
ghost use Rattle.ell_cards.specs.Refinement.{FlagsNone, FlagsCard};
ghost use Rattle.ell_runs.specs.declared.call.Call.TheVariants as call;
ghost use Rattle.ell_runs.specs.Seeing.{HasSeenAll, HasSeenMore, IsCalm, Marks};
ghost use Rattle.ell_cards.specs.Shown.{StoresWord};
ghost use Rattle.ell_cards.specs.Skipping.{MayStepOn};
ghost use Rattle.ell_cards.specs.SlotWords.{slot_of};
ghost use Rattle.ell_cards.specs.Stepping.{PinsBy, Exchanges, IsQuiet, MayInTable, MayTell, KeepsPass, SeesBy, SeesOnBy, StepsBy};

use crate::gate::{StepGate, StepKind, kind_of};
use crate::memory::Memory;
use crate::pass::{Pass, one_more};
use crate::rule::{All, By, Marked, Marking, Noted, Noting, Telling, TellingAll};
use ell_runs::{Call, Slots};
use std::marker::Model;

/// A table of cards, whose words many passes share.
#[derive(Drop)]
pub struct CardTable<M: Memory> {
    pub(crate) table: M,
    pub(crate) alloc: M::Alloc,
    pub(crate) last_card: u64,
    pub(crate) shared: bool,
    pub(crate) first_block: u64,
    pub(crate) slots: Option<Slots>,
}

impl<M: Memory> Model for CardTable<M> {
    ghost use Rattle.ell_cards.specs.Models.{TableModel};
    ghost use Rattle.ell_cards.specs.Inside.{FitsPlan};

    ghost Value = { TableModel };

    ghost view = { λ t. record { id = M.table_id t.table; plan = M.key t.table } };

    ghost invariant = { λ t. FitsPlan (M.key t.table) (M.table_id t.table) t };
}

impl<M: Memory> CardTable<M> {
    /// A law, the contract of a function that does nothing: whatever a pass did, each card that its claims have shown to be given out is
    /// one of the table.
    #[inline(always)]
    pub fn claims_stay_inside(&self, pass: &Pass<M>)
        requires own { pass.now.table ≡ self.now.id }
        // The claims that the pass has tried were of cards of the table.
        ensures { pass.now.view.next_at_least ≤ self.now.plan.last_card + 1 }
    {
        self.names(pass);
    }

    /// A law, as the one before: each card that a pass knows something of is one of the table.
    #[inline(always)]
    pub fn facts_stay_inside(&self, pass: &Pass<M>)
        requires own { pass.now.table ≡ self.now.id }
        // All that the pass knows is of cards of the table.
        ensures cards { (fact : Fact) → Knows pass.now.view fact → card_of_fact fact ≤ self.now.plan.last_card }
        ensures room { self.now.plan.last_card ≤ greatest_number }
        // Of each node it knows what words hold of the node's number: the low 38 bits.
        ensures short { NamesLowBits pass.now.view }
        // No internal node of the table is deeper than this.
        ensures deep { deepest self.now.plan ≤ greatest_number + 64 }
        // Where cards do not come back, the last card is at most `CARD_MAX`, and no internal node is more than 64
        // deeper than that.
        ensures few { self.now.plan.slots ≡ None → self.now.plan.last_card ≤ greatest_card }
        ensures shallow { self.now.plan.slots ≡ None → deepest self.now.plan ≤ greatest_card + 64 }
    {
        self.names(pass);
    }

    // A law, as the ones before: the tree of a table whose cards come back is flat.
    #[inline(always)]
    pub(crate) fn reusing_trees_are_flat(&self)
        ensures { self.now.plan.slots ≢ None → self.now.plan.flat ≡ true }
    {
        let _ = &self.table;
    }

    // What the pass names is in the table, and lies in slots that have words; and each tag that it was told has a word.
    #[inline(always)]
    pub(crate) fn names(&self, pass: &Pass<M>)
        requires own { pass.now.table ≡ self.now.id }
        ensures named { IsNamed self.now.plan.last_card pass.now.view }
        ensures placed { IsPlaced greatest_card pass.now.view }
        ensures short { NamesLowBits pass.now.view }
        ensures slot { (c : ℕ) → pass.now.memory.slot ≡ Some c → slot_of c ≤ greatest_card }
        ensures tags { (c tag : ℕ) → IsTold pass.now.view (Expects c tag) → tag ≤ greatest_tag }
        ensures room { self.now.plan.last_card ≤ greatest_number }
        ensures deep { deepest self.now.plan ≤ greatest_number + 64 }
        ensures few { self.now.plan.slots ≡ None → self.now.plan.last_card ≤ greatest_card }
        ensures shallow { self.now.plan.slots ≡ None → deepest self.now.plan ≤ greatest_card + 64 }
    {
        let _ = &self.table;
        let _ = &pass.seat;
    }

    // Loads a word, a step that is not counted.
    #[inline(always)]
    pub(crate) fn load_as<J: Telling, G: StepGate>(
        &self,
        pass: &mut Pass<M>,
        call: Call,
        word: usize,
        gate: &G,
    ) -> u64
        requires own { pass.old.table ≡ self.now.id }
        requires may { May self.now.plan call pass.old.view }
        requires quiet { IsQuiet call }
        requires calm { IsCalm call }
        requires word { word ≡ place_of call }
        requires kept { MayInTable self.now.plan pass.old call }
        requires atomic { atomic_of call ≡ Load }
        requires tells { MayTell self.now.plan call pass.old.view J.then }
        requires keeps { KeepsPass self.now.plan pass.old.view J.then }
        ensures told { J.then result pass.new.view }
        ensures step { SeesBy pass.old pass.new }
    {
        gate.before(pass.label, kind_of(call));
        self.table.load::<By<J>>(&mut pass.seat, word)
    }

    // Loads a word by a step that may answer an operation, and is not counted.
    #[inline(always)]
    pub(crate) fn load_marked_as<J: Marking, G: StepGate>(
        &self,
        pass: &mut Pass<M>,
        call: Call,
        word: usize,
        gate: &G,
    ) -> u64
        requires own { pass.old.table ≡ self.now.id }
        requires may { May self.now.plan call pass.old.view }
        requires quiet { IsQuiet call }
        requires word { word ≡ place_of call }
        requires kept { MayInTable self.now.plan pass.old call }
        requires atomic { atomic_of call ≡ Load }
        requires tells { MayTell self.now.plan call pass.old.view J.then }
        requires keeps { KeepsPass self.now.plan pass.old.view J.then }
        requires marks { J.call ≡ call }
        ensures told { J.then result pass.new.view }
        ensures step { SeesOnBy pass.old pass.new }
        ensures marks { Marks call pass.old.view pass.old.sight pass.new.sight }
    {
        gate.before(pass.label, kind_of(call));
        self.table.load::<Marked<J>>(&mut pass.seat, word)
    }

    // Loads the claim word by a step that is not counted, by which the pass sees all of the table's history.
    pub(crate) fn load_all_as<J: TellingAll>(&self, pass: &mut Pass<M>) -> u64
        requires own { pass.old.table ≡ self.now.id }
        requires tells { MayTell self.now.plan call.Next pass.old.view J.then }
        requires keeps { KeepsPass self.now.plan pass.old.view J.then }
        requires plan { J.plan ≡ self.now.plan }
        ensures told { J.then result pass.new.view }
        ensures step { SeesOnBy pass.old pass.new }
        ensures more { HasSeenMore pass.old.sight pass.new.sight }
        ensures all { HasSeenAll self.now.plan pass.old.view pass.new.sight }
        ensures begun { pass.new.sight.begun ≡ pass.old.sight.begun }
    {
        self.table.load::<All<J>>(&mut pass.seat, 0)
    }

    // Loads a word, a step that is not counted, after the pass was pinned if cards come back and it was not. The gate
    // is told before that.
    #[inline(always)]
    pub(crate) fn load_pinned_as<J: Marking, G: StepGate>(
        &self,
        pass: &mut Pass<M>,
        call: Call,
        word: usize,
        gate: &G,
    ) -> u64
        requires own { pass.old.table ≡ self.now.id }
        requires may { May self.now.plan call pass.old.view }
        requires word { word ≡ place_of call }
        requires kept { MayInTable self.now.plan pass.old call }
        requires atomic { atomic_of call ≡ Load }
        requires tells { MayTell self.now.plan call pass.old.view J.then }
        requires keeps { KeepsPass self.now.plan pass.old.view J.then }
        requires marks { J.call ≡ call }
        ensures told { J.then result pass.new.view }
        ensures step { PinsBy self.now.plan.slots call pass.old pass.new }
    {
        gate.before(pass.label, kind_of(call));
        self.pin(&mut pass.standing, &mut pass.seat);
        self.table.load::<Marked<J>>(&mut pass.seat, word)
    }

    // Stores a word.
    #[inline(always)]
    pub(crate) fn store_as<J: Telling, G: StepGate>(
        &self,
        pass: &mut Pass<M>,
        call: Call,
        word: usize,
        value: u64,
        gate: &G,
    )
        requires own { pass.old.table ≡ self.now.id }
        requires may { May self.now.plan call pass.old.view }
        requires quiet { IsQuiet call }
        requires word { word ≡ place_of call }
        requires kept { MayInTable self.now.plan pass.old call }
        requires atomic { atomic_of call ≡ Store value }
        requires stores { StoresWord call }
        requires tells { MayTell self.now.plan call pass.old.view (λ n. J.then value) }
        requires keeps { KeepsPass self.now.plan pass.old.view J.then }
        ensures told { J.then value pass.new.view }
        ensures step { StepsBy pass.old pass.new }
    {
        gate.before(pass.label, kind_of(call));
        self.table.store::<By<J>>(&mut pass.seat, word, value);
        pass.steps = one_more(pass.steps);
    }

    // Exchanges a word.
    #[inline(always)]
    pub(crate) fn exchange_as<J: Telling, G: StepGate>(
        &self,
        pass: &mut Pass<M>,
        call: Call,
        word: usize,
        expected: u64,
        value: u64,
        gate: &G,
    ) -> u64
        requires own { pass.old.table ≡ self.now.id }
        requires may { May self.now.plan call pass.old.view }
        requires quiet { IsQuiet call }
        requires unflagging { FlagsNone call }
        requires word { word ≡ place_of call }
        requires kept { MayInTable self.now.plan pass.old call }
        requires exchanges { Exchanges self.now.plan call expected value }
        requires tells { MayTell self.now.plan call pass.old.view J.then }
        requires keeps { KeepsPass self.now.plan pass.old.view J.then }
        ensures told { J.then result pass.new.view }
        ensures step { StepsBy pass.old pass.new }
    {
        gate.before(pass.label, kind_of(call));
        let found = self
            .table
            .compare_exchange::<By<J>>(&mut pass.seat, word, expected, value);
        pass.steps = one_more(pass.steps);
        found
    }

    // Sets the flag of the card in hand, and sets its slot free if the flag is lost, as the card is discarded then.
    #[inline(always)]
    pub(crate) fn flag_as<J: Noting, G: StepGate>(
        &self,
        pass: &mut Pass<M>,
        card: u64,
        call: Call,
        word: usize,
        expected: u64,
        value: u64,
        gate: &G,
    ) -> u64
        requires own { pass.old.table ≡ self.now.id }
        requires may { May self.now.plan call pass.old.view }
        requires quiet { IsQuiet call }
        requires word { word ≡ place_of call }
        requires kept { MayInTable self.now.plan pass.old call }
        requires flags { FlagsCard call card }
        requires atomic { atomic_of call ≡ Exchange expected value }
        requires tells { MayTell self.now.plan call pass.old.view J.then }
        requires keeps { KeepsPass self.now.plan pass.old.view J.then }
        requires notes { (n : ℕ) (p : Participant) →
            J.notes n p ≡ after_flagging self.now.plan.slots (n == expected) card p }
        ensures told { J.then result pass.new.view }
        ensures step { StepsBy pass.old pass.new }
    {
        gate.before(pass.label, kind_of(call));
        let found = self
            .table
            .compare_exchange::<Noted<J>>(&mut pass.seat, word, expected, value);
        pass.steps = one_more(pass.steps);
        self.free_discarded(&mut pass.seat, card, found != expected);
        found
    }

    // Exchanges the claim word, if a card is still the next one, for the number of a later one: a step that the rule allows,
    // though it may be that of many step calls. The key of the card's node is there for what the step tells alone.
    #[inline(always)]
    pub(crate) fn exchange_claim<J: Telling, G: StepGate>(
        &self,
        pass: &mut Pass<M>,
        card: u64,
        node_key: u64,
        next: u64,
        gate: &G,
    ) -> u64
        requires own { pass.old.table ≡ self.now.id }
        requires rule { MayStepOn self.now.plan pass.old 0 (λ n. either (n == card) next n) J.then }
        requires keeps { KeepsPass self.now.plan pass.old.view J.then }
        ensures told { J.then result pass.new.view }
        ensures step { StepsBy pass.old pass.new }
    {
        let _ = node_key;
        gate.before(pass.label, StepKind::Exchange(ell_core::Exchange::Claim));
        let found = self
            .table
            .compare_exchange::<By<J>>(&mut pass.seat, 0, card, next);
        pass.steps = one_more(pass.steps);
        found
    }
}
