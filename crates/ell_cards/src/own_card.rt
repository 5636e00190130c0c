//! The step calls by which a pass takes a card, fills it and sets its flag. Each is one atomic step.
ghost use Rattle.std.specs.Prelude.{◌≡◌, ◌≢◌, ◌≤◌, true, is_ok, IfErr, None, Some};
ghost use Rattle.ell_core.specs.declared.fact.Fact.TheVariants.{IFlagged, DFlagged};
ghost use Rattle.ell_word.specs.Word.{packed};
ghost use Rattle.ell_core.specs.declared.exchange.Exchange.TheVariants as exchange;
ghost use Rattle.ell_cards.specs.Models.{Steps};
ghost use Rattle.ell_runs.specs.Plans.{flat_from, new_node};
ghost use Rattle.ell_runs.specs.Changes.{after_fill, after_flag, if_won, exchanged, found_update, found_word};
ghost use Rattle.ell_cards.specs.Skipping.{IsFresh, IsRow, after_claimed_row};
ghost use Rattle.ell_cards.specs.Shown.{shown_word};
ghost use Rattle.ell_runs.specs.declared.call.Call.TheVariants as call;
ghost use Rattle.ell_runs.specs.Sayings.{delete_says, put_says};
ghost use Rattle.ell_cards.specs.Stepping.{IsWholeIn, MayInTable};
ghost use Rattle.ell_runs.specs.Guards.{MayClaim, MayFill, MayIFlag, MayDFlag};

use crate::gate::StepGate;
use crate::memory::Memory;
use crate::outcomes::update_outcome;
use crate::pass::Pass;
use crate::places::{field_address, update_address};
use crate::steps::TableSteps;
use ell_layout::{Field, update_word};
use ell_runs::Call;
use ell_word::{State, Update, pack};
use std::marker::Brand;

impl<M: Memory, G: StepGate> TableSteps<'_, M, G> {
    /// Takes all numbers from the card that `next` read in this try to a later one at once, if the card is still the
    /// next one. Returns `true` if it did: then each of them was discarded but the last one, which is in hand, as after
    /// so many claims in a row with `next` between two of them. Where each card has words of its own, it takes the one
    /// card. The node of an insert's or a swap's card gets this key: the greater one of its two keys, in a flat tree
    /// their branch. In a flat tree the pass may have a card in hand that has not won its flag, which it discards if it
    /// takes these.
    #[inline(always)]
    pub(crate) fn claim_row(self, pass: &mut Pass<M>, first: u64, last: u64, node_key: u64) -> bool
        requires own { pass.old.table ≡ self.table.now.id }
        requires may { MayClaim (flat_from self.table.now.plan) pass.old.view first
            (new_node self.table.now.plan node_key) }
        // A card in hand that it discards is none whose slot it has taken.
        requires kept { MayInTable self.table.now.plan pass.old
            (call.Claim first (new_node self.table.now.plan node_key)) }
        requires row { IsRow self.table.now.plan first last }
        // It makes one step and counts it. The pass then knows exactly what these claims tell.
        ensures step { Steps pass.old pass.new
            (after_claimed_row result first last (new_node self.entry.table.now.plan node_key) pass.old.view) }
        // If it took the cards, it has not taken the last one's slot yet.
        ensures fresh { IsFresh self.entry.table.now.plan pass.old.memory.slot result last }
    {
        self.table.names(pass);
        self.table.reusing_trees_are_flat();
        self.table
            .exchange_claim::<Brand, G>(pass, first, node_key, last + 1, self.gate)
            == first
    }

    /// Stores a word of the card in hand, which is not flagged: for the grandparent or the parent the low 38 bits of a
    /// node, as the pass knows them. If the table's cards come back, the pass has taken the card's slot.
    #[inline(always)]
    pub fn fill(self, pass: &mut Pass<M>, card: u64, field: Field, value: u64)
        requires own { pass.old.table ≡ self.table.now.id }
        requires may { MayFill pass.old.view card }
        requires slot { self.table.now.plan.slots ≢ None → pass.old.memory.slot ≡ Some card }
        requires fits { shown_word field value ≡ value }
        // It makes one step and counts it. The pass then knows exactly what this call tells.
        ensures step { Steps pass.old pass.new (after_fill field value pass.old.view) }
    {
        self.table.names(pass);
        self.store(pass, card, field, field_address(card, field), value);
    }

    /// Flags the parent for the insert whose card is in hand, filled: exchanges the update that was read there for the
    /// card's flag. If that fails, the error is the update that was found, and the card is discarded. If the table's
    /// cards come back, each word that the card says was stored; and if the flag fails, the card's slot is set free, by
    /// steps that are not counted.
    #[inline(always)]
    pub fn iflag(
        self,
        pass: &mut Pass<M>,
        card: u64,
        parent: u64,
        from: Update,
    ) -> Result<(), Update>
        requires own { pass.old.table ≡ self.table.now.id }
        requires may { MayIFlag pass.old.view card parent from }
        requires whole { self.table.now.plan.slots ≢ None → IsWholeIn pass.old card put_says }
        // It makes one step and counts it. The pass then knows exactly what this call tells.
        ensures step { Steps pass.old pass.new (exchanged (if_won (is_ok result) exchange.IFlag card)
            (found_word (packed from) result) (after_flag (is_ok result) (IFlagged card) parent
            (found_update from result) pass.old.view)) }
        // If the exchange is lost, it found a word other than the expected one, of a card of the table.
        ensures lost { IfErr result (λ found. found ≢ from) }
        ensures card { IfErr result (λ found. found.card ≤ self.entry.table.now.plan.last_card) }
    {
        self.table.names(pass);
        let expected = pack(from);
        let flag = update_word(State::IFlag, card);
        let call = Call::IFlag(card, parent, from);
        let word = update_address(parent);
        let found = self.flag(pass, card, call, word, expected, flag);
        update_outcome(expected, found)
    }

    /// Flags the grandparent for the delete whose card is in hand, filled: exchanges the update that was read there for
    /// the card's flag. If that fails, the error is the update that was found, and the card is discarded. If the
    /// table's cards come back, each word that the card says was stored; and if the flag fails, the card's slot is set
    /// free, by steps that are not counted.
    #[inline(always)]
    pub fn dflag(
        self,
        pass: &mut Pass<M>,
        card: u64,
        grandparent: u64,
        from: Update,
    ) -> Result<(), Update>
        requires own { pass.old.table ≡ self.table.now.id }
        requires may { MayDFlag pass.old.view card grandparent from }
        requires whole { self.table.now.plan.slots ≢ None → IsWholeIn pass.old card delete_says }
        // It makes one step and counts it. The pass then knows exactly what this call tells.
        ensures step { Steps pass.old pass.new (exchanged (if_won (is_ok result) exchange.DFlag card)
            (found_word (packed from) result) (after_flag (is_ok result) (DFlagged card) grandparent
            (found_update from result) pass.old.view)) }
        // If the exchange is lost, it found a word other than the expected one, of a card of the table.
        ensures lost { IfErr result (λ found. found ≢ from) }
        ensures card { IfErr result (λ found. found.card ≤ self.entry.table.now.plan.last_card) }
    {
        self.table.names(pass);
        let expected = pack(from);
        let flag = update_word(State::DFlag, card);
        let call = Call::DFlag(card, grandparent, from);
        let word = update_address(grandparent);
        let found = self.flag(pass, card, call, word, expected, flag);
        update_outcome(expected, found)
    }
}
