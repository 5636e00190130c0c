//! Taking a card: a pass claims the next one, and where cards lie in slots, the next one whose slot it could take, with
//! all numbers before it, which it discards; and it takes that one's slot.
ghost use Rattle.std.specs.Prelude.{◌≡◌, ◌≤◌, IfSome, None, Some, if◌then◌else◌, true};
ghost use Rattle.ell_cards.specs.Claiming.{AsksForCard, ComesOf, ComesOfOne, CouldTake, HoldsDiscardable, MayAskForCard, claim_steps, with_slot};
ghost use Rattle.ell_cards.specs.Models.{LooksAround};
ghost use Rattle.ell_cards.specs.SlotWords.{could_take, has_slot_in};
ghost use Rattle.ell_runs.specs.Guards.{MayFill};
ghost use Rattle.ell_runs.specs.Plans.{new_node};

use crate::gate::StepGate;
use crate::memory::Memory;
use crate::pass::Pass;
use crate::slot_words::{
    generation_of, is_for_all, is_free_before, next_with_slot, numbers_per_look, slot_of,
};
use crate::steps::TableSteps;
use crate::table::CardTable;
use ell_runs::Slots;
use std::marker::Brand;

/// What came of asking for a card.
#[derive(Clone, Copy)]
pub enum Claimed {
    /// This card is in hand, with its slot if cards lie in slots.
    Card(u64),
    /// All cards are given out, or no slot was found that could be taken.
    NoneLeft,
    /// Another pass took the one that was next.
    Lost,
}

/// A card whose slot a pass could take, by the slot's word as it was read.
#[derive(Clone, Copy)]
pub(crate) struct Free {
    pub card: u64,
    pub word: u64,
}

impl<M: Memory, G: StepGate> TableSteps<'_, M, G> {
    /// Takes the next card for the operation in hand, if one is left and no other pass takes it first: for a delete, or
    /// for another change, whose card's node gets this key. Where cards lie in slots, it takes the next one whose slot
    /// it could take, with all numbers before it, and goes on to one behind if another pass has taken that slot
    /// meanwhile, until it has asked for each. The last two slots of a table are for deletes alone, so some are left to
    /// them even if keys fill all others. Its steps on the words of slots are not counted.
    pub fn take_card(self, pass: &mut Pass<M>, for_delete: bool, node_key: u64) -> Claimed
        requires own { pass.old.table ≡ self.table.now.id }
        requires no_card { pass.old.view.worker.card ≡ None }
        requires stands { MayAskForCard self.table.now.plan pass.old.view node_key }
        // It makes so many steps at most, and counts them. What the pass knows of the tree and of the history is as it
        // was, but for cards.
        ensures asks { AsksForCard self.entry.table.now.plan (new_node self.entry.table.now.plan node_key)
            (claim_steps self.entry.table.now.plan.slots) pass.old pass.new }
        // A card is in hand, to be filled; or none is left; or another pass was first.
        ensures claimed { ComesOf self.entry.table.now.plan (new_node self.entry.table.now.plan node_key) pass.old
            pass.new result }
    {
        let table = self.table;
        let Some(slots) = table.slots else {
            return self.claim_next(pass, node_key);
        };
        for _ in 0..slots.last + 2 {
            if let Some(claimed) = self.claim_free(pass, slots, for_delete, node_key) {
                return claimed;
            }
        }
        // Others took each of these slots first.
        Claimed::NoneLeft
    }

    // Claims the next card, if one is left, in a table whose cards do not come back.
    fn claim_next(self, pass: &mut Pass<M>, node_key: u64) -> Claimed
        requires own { pass.old.table ≡ self.table.now.id }
        requires plain { self.table.now.plan.slots ≡ None }
        requires no_card { pass.old.view.worker.card ≡ None }
        requires stands { MayAskForCard self.table.now.plan pass.old.view node_key }
        ensures asks { AsksForCard self.entry.table.now.plan (new_node self.entry.table.now.plan node_key) 2 pass.old
            pass.new }
        ensures claimed { ComesOf self.entry.table.now.plan (new_node self.entry.table.now.plan node_key) pass.old
            pass.new result }
    {
        let card = self.next(pass);
        if card > self.table.last_card() {
            return Claimed::NoneLeft;
        }
        if self.claim_row(pass, card, card, node_key) {
            Claimed::Card(card)
        } else {
            Claimed::Lost
        }
    }

    // Claims the next card whose slot the pass could take, if one is left, with all numbers before it, and takes its
    // slot. Returns `None` if that is in use by now: the card is in hand, and may be discarded.
    fn claim_free(
        self,
        pass: &mut Pass<M>,
        slots: Slots,
        for_delete: bool,
        node_key: u64,
    ) -> Option<Claimed>
        requires own { pass.old.table ≡ self.table.now.id }
        requires slots { self.table.now.plan.slots ≡ Some slots }
        requires hand { HoldsDiscardable pass.old }
        requires stands { MayAskForCard self.table.now.plan pass.old.view node_key }
        ensures asks { AsksForCard self.entry.table.now.plan (new_node self.entry.table.now.plan node_key) 2 pass.old
            pass.new }
        ensures comes { ComesOfOne self.entry.table.now.plan (new_node self.entry.table.now.plan node_key) pass.old
            pass.new result }
    {
        self.table.reusing_trees_are_flat();
        let first = self.next(pass);
        if first > self.table.last_card() {
            return Some(Claimed::NoneLeft);
        }
        let Some(free) = self.table.find_free(pass, slots, first, for_delete) else {
            return Some(Claimed::NoneLeft);
        };
        if !self.claim_row(pass, first, free.card, node_key) {
            return Some(Claimed::Lost);
        }
        self.table.look_now_and_then(pass, slots, free.card);
        if self.table.take_free(pass, slots, free) {
            Some(Claimed::Card(free.card))
        } else {
            None
        }
    }
}

impl<M: Memory> CardTable<M> {
    // Returns the least number of a card, from this card on, whose slot the pass could take as it read the slots'
    // words: at most one round of them, and one more if there was none, and the announcements then tell of a greater
    // safe epoch. Returns `None` if there is none, or none that the table has.
    fn find_free(
        &self,
        pass: &mut Pass<M>,
        slots: Slots,
        card: u64,
        for_delete: bool,
    ) -> Option<Free>
        requires own { pass.old.table ≡ self.now.id }
        requires slots { self.now.plan.slots ≡ Some slots }
        requires room { card ≤ self.now.plan.last_card }
        ensures same { LooksAround pass.old pass.new }
        ensures found { IfSome result (λ f. (card ≤ f.card) × (f.card ≤ self.now.plan.last_card)
            × CouldTake slots pass.new.memory.safe_epoch f) }
    {
        self.look_first(pass);
        let before = pass.standing.safe_epoch;
        if let Some(found) = self.seek_free(pass, slots, card, for_delete) {
            return Some(found);
        }
        if before < self.safe_epoch(pass) {
            self.seek_free(pass, slots, card, for_delete)
        } else {
            None
        }
    }

    // Returns the least number of a card, from this card on, whose slot the pass could take for a delete, or for
    // another change. It reads the word of each slot once at most.
    fn seek_free(
        &self,
        pass: &mut Pass<M>,
        slots: Slots,
        card: u64,
        for_delete: bool,
    ) -> Option<Free>
        requires own { pass.old.table ≡ self.now.id }
        requires slots { self.now.plan.slots ≡ Some slots }
        requires room { card ≤ self.now.plan.last_card }
        ensures same { pass.new ≡ pass.old }
        ensures found { IfSome result (λ f. (card ≤ f.card) × (f.card ≤ self.now.plan.last_card)
            × CouldTake slots pass.new.memory.safe_epoch f) }
    {
        let _ = &self.table;
        let mut next = next_with_slot(slots, card);
        for read in 0..slots.last + 1 {
            if self.last_card < next {
                return None;
            }
            if let Some(free) = self.read_free(pass, slots, next, for_delete) {
                pass.standing.numbers = pass.standing.numbers.saturating_add(read);
                return Some(free);
            }
            next = next_with_slot(slots, next + 1);
        }
        None
    }

    // Reads the word of the slot of a card by a search for a delete or another change. Returns both if the pass could
    // take the slot for that change: it was set free with a retire epoch below the pass's safe epoch, and it is for
    // deletes alone only if the change is one.
    fn read_free(
        &self,
        pass: &mut Pass<M>,
        slots: Slots,
        card: u64,
        for_delete: bool,
    ) -> Option<Free>
        requires own { pass.old.table ≡ self.now.id }
        requires slots { self.now.plan.slots ≡ Some slots }
        requires slot { has_slot_in slots.last card ≡ true }
        ensures same { pass.new ≡ pass.old }
        ensures free { IfSome result (λ f. (f.card ≡ card) × (could_take f.word pass.old.memory.safe_epoch ≡ true)) }
    {
        let word = self.read_slot(&mut pass.seat, slots, slot_of(card));
        if is_free_before(word, pass.standing.safe_epoch)
            && (for_delete || is_for_all(slots, slot_of(card)))
        {
            Some(Free { card, word })
        } else {
            None
        }
    }

    // Counts the number of a card whose slot the pass is to take, and advances the epoch and looks at all announcements
    // once in so many numbers that it went by. It does so for each of the next takings where it went by many at once,
    // as few slots are free, and for each slot that is for deletes alone: then the slots that these changes set free
    // have different retire epochs, of which the next change can take the oldest.
    fn look_now_and_then(&self, pass: &mut Pass<M>, slots: Slots, card: u64)
        requires own { pass.old.table ≡ self.now.id }
        ensures same { LooksAround pass.old pass.new }
        ensures more { pass.old.memory.safe_epoch ≤ pass.new.memory.safe_epoch }
    {
        let numbers = pass.standing.numbers.saturating_add(1);
        let per_look = numbers_per_look(slots);
        if numbers < per_look && is_for_all(slots, slot_of(card)) {
            pass.standing.numbers = numbers;
            return;
        }
        pass.standing.numbers = numbers.saturating_sub(per_look).min(slots.last);
        self.safe_epoch(pass);
    }

    // Takes the slot of the card in hand, if its word is the one that was read: as the retire epoch in that was below
    // the pass's safe epoch, and the slot is free still, nobody knows of the card that lay there. Returns `true` if it
    // was.
    fn take_free(&self, pass: &mut Pass<M>, slots: Slots, free: Free) -> bool
        requires own { pass.old.table ≡ self.now.id }
        requires slots { self.now.plan.slots ≡ Some slots }
        requires hand { MayFill pass.old.view free.card }
        requires free { CouldTake slots pass.old.memory.safe_epoch free }
        ensures took { pass.new ≡ (if result then with_slot free.card pass.old else pass.old) }
    {
        let _ = &self.table;
        let address = self.slot_address(slots, slot_of(free.card));
        let taken = 8 * generation_of(free.card) + 7;
        self.epoch_exchange::<Brand>(&mut pass.seat, address, free.word, taken) == free.word
    }
}
