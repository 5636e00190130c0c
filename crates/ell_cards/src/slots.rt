//! Slots: a card lies in one, and is of one of the generations there. The word of a slot has the generation of its
//! card, and says which of the three nodes of the card are retired. Once all three are, the slot is set free: the word
//! then has an epoch as its retire epoch, and a pass takes the slot for another card once that is safe. The numbers of
//! a later generation that child words do not tell from the first have no slots. The steps are not counted.
ghost use Rattle.std.specs.Prelude.{◌≡◌, ◌<◌, ◌≤◌, ℕ, Some};
ghost use Rattle.ell_cards.specs.Ages.{MayGetRetireEpoch};
ghost use Rattle.ell_cards.specs.Frames.{IsSeatOf, IsSeatWithSlots, KeepsSafeEpoch, LeavesTree, StandsStill};
ghost use Rattle.ell_cards.specs.Epochs.{epoch_word, LostIs, after_freeing, after_read, after_retire_epoch, last_epoch, slot_word};
ghost use Rattle.ell_cards.specs.SlotWords.{card_by, slot_of};
ghost use Rattle.ell_cards.specs.Stepping.{MayGoOn};

use crate::memory::{Memory, Seat};
use crate::rule::ParticipantTelling;
use crate::slot_words::{generation_of, slot_of, slot_word};
use crate::table::CardTable;
use ell_runs::Slots;
use std::marker::Brand;

impl<M: Memory> CardTable<M> {
    /// Returns the address of the word of a slot, which is one of the table.
    #[inline(always)]
    pub(crate) fn slot_address(&self, slots: Slots, slot: u64) -> usize
        requires slots { self.now.plan.slots ≡ Some slots }
        requires slot { slot ≤ slots.last }
        ensures word { result ≡ slot_word slots slot }
        ensures inside { result < self.now.id.words }
    {
        let _ = &self.table;
        slot_word(slots, slot)
    }

    /// Reads the word of a slot.
    #[inline(always)]
    pub(crate) fn read_slot(&self, seat: &mut Seat<M>, slots: Slots, slot: u64) -> u64
        requires seat { IsSeatWithSlots self.now slots seat.old }
        requires slot { slot ≤ slots.last }
        ensures read { seat.new.me.0.participant ≡ after_read slot result seat.old.me.0.participant }
        ensures leaves { LeavesTree seat.old seat.new }
    {
        self.epoch_load::<Brand>(seat, self.slot_address(slots, slot))
    }

    // Loads the epoch for a card, and tells what its caller picked.
    #[inline(always)]
    fn load_retire_epoch<J: ParticipantTelling>(
        &self,
        seat: &mut Seat<M>,
        slots: Slots,
        slot: u64,
        word: u64,
    ) -> u64
        requires seat { IsSeatWithSlots self.now slots seat.old }
        requires rule { MayGoOn self.now.plan seat.old.me.0 (epoch_word slots) (λ n. n) J.then }
        ensures told { J.then result seat.new.me.0.participant }
        ensures leaves { LeavesTree seat.old seat.new }
    {
        let _ = (slot, word);
        self.epoch_load::<J>(seat, self.epoch_address(slots))
    }

    /// Reads the epoch for the card that lies in a slot by this word: whose nodes the pass knows to be dead, or which
    /// it has discarded. A card whose slot the pass has taken has a slot of the table.
    pub(crate) fn retire_epoch(&self, seat: &mut Seat<M>, slots: Slots, slot: u64, word: u64) -> u64
        requires seat { IsSeatWithSlots self.now slots seat.old }
        requires dead { MayGetRetireEpoch seat.old.me.0 (card_by slot word) }
        ensures retire_epoch { seat.new.me.0.participant ≡
            after_retire_epoch (card_by slot word) result seat.old.me.0.participant }
        ensures low { result ≤ last_epoch }
        ensures inside { (c : ℕ) → seat.old.me.0.participant.slot ≡ Some c → slot_of c ≤ slots.last }
        ensures leaves { LeavesTree seat.old seat.new }
    {
        self.load_retire_epoch::<Brand>(seat, slots, slot, word)
    }

    // Sets the slot free of a card that the pass has discarded: nobody else knows of the card, so no node is retired by
    // the slot's word.
    fn set_free(&self, seat: &mut Seat<M>, slots: Slots, card: u64)
        requires seat { IsSeatWithSlots self.now slots seat.old }
        requires lost { seat.old.me.0.participant.lost ≡ Some card }
        requires taken { seat.old.me.0.participant.slot ≡ Some card }
        ensures participant { (epoch : ℕ) ×
            (seat.new.me.0.participant ≡ after_freeing (after_retire_epoch card epoch seat.old.me.0.participant)) }
        ensures leaves { LeavesTree seat.old seat.new }
    {
        let word = 8 * generation_of(card) + 7;
        let epoch = self.retire_epoch(seat, slots, slot_of(card), word);
        let address = self.slot_address(slots, slot_of(card));
        self.epoch_exchange::<Brand>(seat, address, word, 8 * epoch);
    }

    /// Sets the slot of a card free if the pass has discarded the card, as it lost the card's flag. It does nothing if
    /// the table's cards do not come back.
    pub(crate) fn free_discarded(&self, seat: &mut Seat<M>, card: u64, lost: bool)
        requires seat { IsSeatOf self.now seat.old }
        requires lost { LostIs self.now.plan.slots lost card seat.old.me.0.participant }
        ensures still { StandsStill (after_freeing seat.old.me.0.participant) seat.new.me.0.participant }
        ensures keeps { KeepsSafeEpoch seat.old.me.0.participant seat.new.me.0.participant }
        ensures retired { seat.new.me.0.participant.retired ≡ seat.old.me.0.participant.retired }
        ensures leaves { LeavesTree seat.old seat.new }
    {
        let Some(slots) = self.slots else {
            return;
        };
        if lost {
            self.set_free(seat, slots, card);
        }
    }
}
