//! The steps of a table, each told to a gate just before it is made.
ghost use Rattle.std.specs.Prelude.{◌≡◌, ◌≢◌, ℕ, ◌<◌, ◌≤◌, ◌+◌, ◌%◌, None, Some};
ghost use Rattle.ell_word.specs.Node.{greatest_card};
ghost use Rattle.ell_word.specs.Link.{IsLink, linked, tag_unit};
ghost use Rattle.ell_runs.specs.Plans.{flat_from};
ghost use Rattle.ell_cards.specs.Models.{Sees, Steps, StepsOn};
ghost use Rattle.ell_runs.specs.Changes.{after_fill};
ghost use Rattle.ell_runs.specs.Naming.{IsNamed};
ghost use Rattle.ell_runs.specs.Guards.{MayFill};
ghost use Rattle.ell_runs.specs.Depths.{IsShallow, deepest};
ghost use Rattle.ell_cards.specs.Addresses.{place_of, slot_address};
ghost use Rattle.ell_runs.specs.Calls.{atomic_of, next_link, Load, Exchange, after, May, Tells};
ghost use Rattle.ell_runs.specs.Looking.{KeysAreFixed, ReadsItsOwn, MissesItsOwn};
ghost use Rattle.ell_cards.specs.Refinement.{FlagsNone, FlagsCard};
ghost use Rattle.ell_runs.specs.Seeing.{IsCalm, Marks};
ghost use Rattle.ell_cards.specs.Shown.{IsNoClaim, cut_word, shown_word};
ghost use Rattle.ell_cards.specs.Stepping.{Pins, IsQuiet, MayInTable};

use crate::gate::{StepGate, StepKind};
use crate::memory::Memory;
use crate::pass::Pass;
use crate::table::CardTable;
use ell_layout::Field;
use ell_runs::Call;
use ell_word::{GENERATION_SIZE, Link, child_word};
use std::alloc::AllocError;
use std::marker::Brand;

/// A table, and the gate that is told of each step which a pass makes on it by this, just before the step.
pub struct TableSteps<'a, M: Memory, G> {
    /// The table.
    pub table: &'a CardTable<M>,
    pub(crate) gate: &'a G,
}

impl<'a, M: Memory, G> Clone for TableSteps<'a, M, G> {
    fn clone(&self) -> Result<TableSteps<'a, M, G>, AllocError> {
        Ok(*self)
    }
}

impl<'a, M: Memory, G> Copy for TableSteps<'a, M, G> {}

impl<M: Memory> CardTable<M> {
    /// Returns the steps of the table, which this gate is told of.
    #[inline(always)]
    pub fn told_to<'a, G>(&'a self, gate: &'a G) -> TableSteps<'a, M, G>
        // They are steps of this table.
        ensures { result.table.now ≡ self.now }
    {
        TableSteps { table: self, gate }
    }
}

impl<M: Memory, G: StepGate> TableSteps<'_, M, G> {
    /// Tells the gate that a find, an insert, a delete or a swap of a pass starts. This is no step.
    #[inline(always)]
    pub fn start(self, pass: &Pass<M>) {
        self.gate.before(pass.label, StepKind::Begin);
    }

    /// Tells the gate that such a call is about to return, and whether it returns an answer. This is no step.
    #[inline(always)]
    pub fn end(self, pass: &Pass<M>, answered: bool) {
        self.gate.after(pass.label, answered);
    }

    /// A step call that loads its word, and leaves the step to be counted by its caller.
    #[inline(always)]
    pub(crate) fn see(self, pass: &mut Pass<M>, call: Call, word: usize) -> u64
        requires own { pass.old.table ≡ self.table.now.id }
        requires may { May self.table.now.plan call pass.old.view }
        requires quiet { IsQuiet call }
        requires calm { IsCalm call }
        requires word { word ≡ place_of call }
        requires kept { MayInTable self.table.now.plan pass.old call }
        requires atomic { atomic_of call ≡ Load }
        ensures step { Sees pass.old pass.new (after call result pass.old.view) }
        ensures tells { Tells self.entry.table.now.plan call pass.old.view result }
        ensures looked { ReadsItsOwn pass.new.view }
        ensures missed { MissesItsOwn (flat_from self.entry.table.now.plan) pass.new.view }
        ensures fixed { KeysAreFixed pass.new.view }
        ensures named { IsNamed self.entry.table.now.plan.last_card pass.new.view }
        ensures shallow { (x : ℕ) → IsShallow (deepest self.entry.table.now.plan) pass.new.view x }
    {
        self.table.load_as::<Brand, G>(pass, call, word, self.gate)
    }

    /// A step call that loads its word.
    #[inline(always)]
    pub(crate) fn load(self, pass: &mut Pass<M>, call: Call, word: usize) -> u64
        requires own { pass.old.table ≡ self.table.now.id }
        requires may { May self.table.now.plan call pass.old.view }
        requires quiet { IsQuiet call }
        requires calm { IsCalm call }
        requires word { word ≡ place_of call }
        requires kept { MayInTable self.table.now.plan pass.old call }
        requires atomic { atomic_of call ≡ Load }
        ensures step { Steps pass.old pass.new (after call result pass.old.view) }
        ensures tells { Tells self.entry.table.now.plan call pass.old.view result }
        ensures named { IsNamed self.entry.table.now.plan.last_card pass.new.view }
        ensures shallow { (x : ℕ) → IsShallow (deepest self.entry.table.now.plan) pass.new.view x }
    {
        let found = self.see(pass, call, word);
        pass.count(1);
        found
    }

    /// A step call that may answer an operation, which loads its word.
    #[inline(always)]
    pub(crate) fn load_marked(self, pass: &mut Pass<M>, call: Call, word: usize) -> u64
        requires own { pass.old.table ≡ self.table.now.id }
        requires may { May self.table.now.plan call pass.old.view }
        requires quiet { IsQuiet call }
        requires word { word ≡ place_of call }
        requires kept { MayInTable self.table.now.plan pass.old call }
        requires atomic { atomic_of call ≡ Load }
        ensures step { StepsOn pass.old pass.new (after call result pass.old.view) }
        ensures marks { Marks call pass.old.view pass.old.sight pass.new.sight }
        ensures tells { Tells self.entry.table.now.plan call pass.old.view result }
    {
        let found = self
            .table
            .load_marked_as::<Brand, G>(pass, call, word, self.gate);
        pass.count(1);
        found
    }

    /// A step call that loads its word, as `see`, when the pass is pinned: where cards come back, and it is not pinned,
    /// it is pinned first, by a load of the epoch and a store to its announcement, which are not counted.
    #[inline(always)]
    pub(crate) fn see_pinned(self, pass: &mut Pass<M>, call: Call, word: usize) -> u64
        requires own { pass.old.table ≡ self.table.now.id }
        requires may { May self.table.now.plan call pass.old.view }
        requires word { word ≡ place_of call }
        requires kept { MayInTable self.table.now.plan pass.old call }
        requires atomic { atomic_of call ≡ Load }
        ensures step { Pins self.entry.table.now.plan.slots pass.old pass.new (after call result pass.old.view) }
        ensures marks { Marks call pass.old.view pass.old.sight pass.new.sight }
        ensures tells { Tells self.entry.table.now.plan call pass.old.view result }
        ensures shallow { (x : ℕ) → IsShallow (deepest self.entry.table.now.plan) pass.new.view x }
    {
        self.table
            .load_pinned_as::<Brand, G>(pass, call, word, self.gate)
    }

    /// The step call that stores a word of the card in hand.
    #[inline(always)]
    pub(crate) fn store(self, pass: &mut Pass<M>, card: u64, field: Field, word: usize, value: u64)
        requires own { pass.old.table ≡ self.table.now.id }
        requires may { MayFill pass.old.view card }
        requires slot { self.table.now.plan.slots ≢ None → pass.old.memory.slot ≡ Some card }
        requires fits { shown_word field value ≡ value }
        requires word { word ≡ slot_address card field }
        ensures step { Steps pass.old pass.new (after_fill field value pass.old.view) }
    {
        self.table.store_as::<Brand, G>(
            pass,
            Call::Fill(card, field, value),
            word,
            value,
            self.gate,
        )
    }

    /// A step call that exchanges its word, which is not the claim word, if it has the expected value, and returns what it
    /// found.
    #[inline(always)]
    pub(crate) fn exchange(
        self,
        pass: &mut Pass<M>,
        call: Call,
        word: usize,
        expected: u64,
        value: u64,
    ) -> u64
        requires own { pass.old.table ≡ self.table.now.id }
        requires may { May self.table.now.plan call pass.old.view }
        requires plain { IsNoClaim call }
        requires unflagging { FlagsNone call }
        requires word { word ≡ place_of call }
        requires kept { MayInTable self.table.now.plan pass.old call }
        requires atomic { atomic_of call ≡ Exchange expected value }
        ensures step { Steps pass.old pass.new (after call result pass.old.view) }
        ensures tells { Tells self.entry.table.now.plan call pass.old.view result }
    {
        self.table
            .exchange_as::<Brand, G>(pass, call, word, expected, value, self.gate)
    }

    /// A step call that sets the flag of the card in hand, if the word has the expected value, and returns what it
    /// found. If that fails, the card is discarded, and in a table whose cards come back its slot is set free, by steps
    /// that are not counted.
    #[inline(always)]
    pub(crate) fn flag(
        self,
        pass: &mut Pass<M>,
        card: u64,
        call: Call,
        word: usize,
        expected: u64,
        value: u64,
    ) -> u64
        requires own { pass.old.table ≡ self.table.now.id }
        requires may { May self.table.now.plan call pass.old.view }
        requires word { word ≡ place_of call }
        requires kept { MayInTable self.table.now.plan pass.old call }
        requires flags { FlagsCard call card }
        requires atomic { atomic_of call ≡ Exchange expected value }
        ensures step { Steps pass.old pass.new (after call result pass.old.view) }
        ensures tells { Tells self.entry.table.now.plan call pass.old.view result }
    {
        self.table
            .flag_as::<Brand, G>(pass, card, call, word, expected, value, self.gate)
    }

    /// A step call that exchanges the child word of a link, if it has that still, for that of another node with the next tag,
    /// and returns what it found.
    #[inline(always)]
    pub(crate) fn exchange_child(
        self,
        pass: &mut Pass<M>,
        call: Call,
        word: usize,
        old: Link,
        node: u64,
    ) -> u64
        requires own { pass.old.table ≡ self.table.now.id }
        requires may { May self.table.now.plan call pass.old.view }
        requires plain { IsNoClaim call }
        requires word { word ≡ place_of call }
        requires kept { MayInTable self.table.now.plan pass.old call }
        requires unflagging { FlagsNone call }
        requires link { IsLink old }
        requires fits { self.table.now.plan.slots ≡ None → node < tag_unit }
        requires few { self.table.now.plan.slots ≡ None → old.tag ≤ greatest_card }
        requires atomic { atomic_of call ≡ Exchange (linked old) (linked (next_link old node)) }
        ensures step { Steps pass.old pass.new (after call result pass.old.view) }
    {
        self.table.exchange_as::<Brand, G>(
            pass,
            call,
            word,
            old.word(),
            next_word(old, node),
            self.gate,
        )
    }
}

// The word of the child word that follows one: the low bits of another node, and the next tag, after the last one the
// first.
#[inline(always)]
fn next_word(old: Link, node: u64) -> u64
    requires old { IsLink old }
    ensures { result ≡ cut_word (linked (next_link old node)) }
{
    let next = Link {
        node: child_word(node),
        tag: (old.tag + 1) % GENERATION_SIZE,
    };
    next.word()
}
