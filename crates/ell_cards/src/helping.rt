//! The step calls by which a pass finishes an operation, its own or another's, of whose card it knows how far it has come. Each
//! is one atomic step.
ghost use Rattle.std.specs.Prelude.{◌≡◌, ◌≢◌, ◌≤◌, ◌<◌, is_ok, IfErr};
ghost use Rattle.ell_word.specs.Word.{packed, unpacked};
ghost use Rattle.ell_word.specs.Link.{linked, IsLink};
ghost use Rattle.ell_word.specs.declared.link.Link.{Link};
ghost use Rattle.ell_core.specs.declared.exchange.Exchange.TheVariants as exchange;
ghost use Rattle.ell_core.specs.declared.fact.Fact.TheVariants.{IChanged, Marked, Unmarkable, Cut};
ghost use Rattle.ell_runs.specs.Depths.{IsShallow, deepest};
ghost use Rattle.ell_layout.specs.declared.field.Field.TheVariants.{Gp, P};
ghost use Rattle.ell_layout.specs.Cards.{says_by};
ghost use Rattle.ell_cards.specs.Models.{Steps};
ghost use Rattle.ell_runs.specs.Views.{InTable};
ghost use Rattle.ell_runs.specs.Changes.{after_mark, if_won, exchanged, found_update, found_word};
ghost use Rattle.ell_runs.specs.declared.call.Call.TheVariants as call;
ghost use Rattle.ell_runs.specs.Guards.{KnowsPlace, MayAsk, MayDChild, MayIChild, MayMark};
ghost use Rattle.ell_runs.specs.Calls.{after, TellsNode};
ghost use Rattle.ell_cards.specs.Stepping.{StepsBySome};

use crate::gate::StepGate;
use crate::memory::Memory;
use crate::outcomes::update_outcome;
use crate::pass::Pass;
use crate::places::{child_address, field_address, update_address};
use crate::steps::TableSteps;
use ell_layout::{Field, brought_node, update_word};
use ell_runs::Call;
use ell_word::{Link, State, Update};

impl<M: Memory, G: StepGate> TableSteps<'_, M, G> {
    /// Reads a word of a card that the pass knows flagged or marked: parent or leaf; of a delete's card also the
    /// grandparent, or the word that was read; and of another one a key. Nodes are of the table, ever deeper. The
    /// leaf's word has the tag that the card expects with it.
    #[inline(always)]
    pub fn info(self, pass: &mut Pass<M>, card: u64, field: Field) -> u64
        requires own { pass.old.table ≡ self.table.now.id }
        requires may { MayAsk pass.old.view card field }
        // It makes one step and counts it. The pass then knows exactly what this call tells.
        ensures step { Steps pass.old pass.new (after (call.Info card field) result pass.old.view) }
        // A node that the card names is one of the table, and no deeper than such a node may be: grandparent, parent,
        // leaf.
        ensures node { TellsNode self.entry.table.now.plan.last_card field result }
        ensures shallow { IsShallow (deepest self.entry.table.now.plan) pass.new.view (says_by field result) }
    {
        self.table.names(pass);
        self.load(pass, Call::Info(card, field), field_address(card, field))
    }

    /// Reads a child of the parent of a card that the pass knows marked. It never changes.
    #[inline(always)]
    pub fn frozen_child(self, pass: &mut Pass<M>, card: u64, parent: u64, right: bool) -> Link
        requires own { pass.old.table ≡ self.table.now.id }
        requires may { KnowsPlace pass.old.view (Marked card) card P parent }
        // It makes one step and counts it. The pass then knows exactly what this call tells.
        ensures step { Steps pass.old pass.new (after (call.FrozenChild card parent right) (linked result) pass.old.view) }
        // The child is no deeper than a node of the table may be, and is one of the table; the node and the tag have a
        // word.
        ensures shallow { IsShallow (deepest self.entry.table.now.plan) pass.new.view result.node }
        ensures there { InTable self.entry.table.now.plan.last_card result.node }
        ensures word { IsLink result }
    {
        self.table.names(pass);
        let call = Call::FrozenChild(card, parent, right);
        Link::of(self.load(pass, call, child_address(parent, right)))
    }

    /// Exchanges the child word of an insert's parent, from the leaf with the tag that the card expects to the node
    /// that the card brings, with the next tag. That node is the card's right leaf if it replaces a leaf, else its
    /// internal node. Whether the exchange succeeds or fails, the pass then knows that the card is changed.
    #[inline(always)]
    pub fn ichild(
        self,
        pass: &mut Pass<M>,
        card: u64,
        parent: u64,
        leaf: Link,
        replaces: bool,
        right: bool,
    )
        requires own { pass.old.table ≡ self.table.now.id }
        requires may { MayIChild pass.old.view card parent leaf replaces right }
        // It makes one step and counts it. The pass then knows what this call tells by the word that it found.
        ensures step { StepsBySome pass.old pass.new (call.IChild card parent leaf replaces right) }
    {
        self.table.names(pass);
        let call = Call::IChild(card, parent, leaf, replaces, right);
        let word = child_address(parent, right);
        let node = brought_node(card, replaces);
        self.exchange_child(pass, call, word, leaf, node);
    }

    /// Takes an insert's flag away. Whether that succeeds or fails, the pass then knows that the card is over.
    #[inline(always)]
    pub fn iunflag(self, pass: &mut Pass<M>, card: u64, parent: u64)
        requires own { pass.old.table ≡ self.table.now.id }
        requires may { KnowsPlace pass.old.view (IChanged card) card P parent }
        // It makes one step and counts it. The pass then knows what this call tells by the word that it found.
        ensures step { StepsBySome pass.old pass.new (call.IUnflag card parent) }
    {
        self.table.names(pass);
        let flag = update_word(State::IFlag, card);
        let clean = update_word(State::Clean, card);
        let call = Call::IUnflag(card, parent);
        self.exchange(pass, call, update_address(parent), flag, clean);
    }

    /// Marks the parent of a delete: exchanges the word that its search read there for the card's mark. If that fails,
    /// the error is the update that was found: the card's own mark, or another one, and then the card can no longer be
    /// marked.
    #[inline(always)]
    pub fn mark(self, pass: &mut Pass<M>, card: u64, parent: u64, was: u64) -> Result<(), Update>
        requires own { pass.old.table ≡ self.table.now.id }
        requires may { MayMark pass.old.view card parent was }
        // It makes one step and counts it. The pass then knows exactly what this call tells.
        ensures step { Steps pass.old pass.new (exchanged (if_won (is_ok result) exchange.Mark card)
            (found_word was result) (after_mark (is_ok result) card parent (found_update (unpacked was) result)
            pass.old.view)) }
        // If the exchange is lost, it found a word other than the expected one, of a card of the table.
        ensures lost { IfErr result (λ found. packed found ≢ was) }
        ensures card { IfErr result (λ found. found.card ≤ self.entry.table.now.plan.last_card) }
    {
        self.table.names(pass);
        let call = Call::Mark(card, parent, was);
        let mark = update_word(State::Mark, card);
        let found = self.exchange(pass, call, update_address(parent), was, mark);
        update_outcome(was, found)
    }

    /// Exchanges the child word of a delete's grandparent, from the parent with the tag that the card expects to the
    /// sibling of the leaf, with the next tag. Whether it succeeds or fails, the pass then knows that the card is cut.
    #[inline(always)]
    pub fn dchild(
        self,
        pass: &mut Pass<M>,
        card: u64,
        grandparent: u64,
        parent: Link,
        sibling: u64,
        right: bool,
    )
        requires own { pass.old.table ≡ self.table.now.id }
        requires may { MayDChild pass.old.view card grandparent parent sibling right }
        // It makes one step and counts it. The pass then knows what this call tells by the word that it found.
        ensures step { StepsBySome pass.old pass.new (call.DChild card grandparent parent sibling right) }
    {
        self.table.names(pass);
        let call = Call::DChild(card, grandparent, parent, sibling, right);
        let word = child_address(grandparent, right);
        self.exchange_child(pass, call, word, parent, sibling);
    }

    /// Takes a delete's flag away after its child exchange. Whether that succeeds or fails, the pass then knows that
    /// the card is over.
    #[inline(always)]
    pub fn dunflag(self, pass: &mut Pass<M>, card: u64, grandparent: u64)
        requires own { pass.old.table ≡ self.table.now.id }
        requires may { KnowsPlace pass.old.view (Cut card) card Gp grandparent }
        // It makes one step and counts it. The pass then knows what this call tells by the word that it found.
        ensures step { StepsBySome pass.old pass.new (call.DUnflag card grandparent) }
    {
        self.table.names(pass);
        let flag = update_word(State::DFlag, card);
        let clean = update_word(State::Clean, card);
        let call = Call::DUnflag(card, grandparent);
        self.exchange(pass, call, update_address(grandparent), flag, clean);
    }

    /// Takes a delete's flag away after its lost mark. Whether that succeeds or fails, the pass then knows that the card
    /// is backed.
    #[inline(always)]
    pub fn backtrack(self, pass: &mut Pass<M>, card: u64, grandparent: u64)
        requires own { pass.old.table ≡ self.table.now.id }
        requires may { KnowsPlace pass.old.view (Unmarkable card) card Gp grandparent }
        // It makes one step and counts it. The pass then knows what this call tells by the word that it found.
        ensures step { StepsBySome pass.old pass.new (call.Backtrack card grandparent) }
    {
        self.table.names(pass);
        let flag = update_word(State::DFlag, card);
        let clean = update_word(State::Clean, card);
        let call = Call::Backtrack(card, grandparent);
        self.exchange(pass, call, update_address(grandparent), flag, clean);
    }
}
