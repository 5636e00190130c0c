//! The words of slots, and which slot a card has, and of which generation it is: a slot's word in use has the
//! generation of its card and the nodes of that which are not known to be dead, and a free slot's word the retire epoch
//! with which it was set free.
ghost use Rattle.std.specs.Prelude.{◌==◌, ◌≡◌, ◌+◌, ◌*◌, ◌<◌, ◌≤◌, ◌%◌, ◌||◌, nat_le, ℕ, true};
ghost use Rattle.ell_word.specs.Node.{card, greatest_card, greatest_number, generation_size};
ghost use Rattle.ell_cards.specs.Epochs.{epoch_word, slot_word, spread};
ghost use Rattle.ell_cards.specs.SlotWords.{could_take, has_slot_in, has_slots, slot_of, retire_epoch_in, generation_in, generation_of};

use crate::epochs::epoch_word;
use ell_runs::Slots;
use ell_word::GENERATION_SIZE;

/// How many generations child words tell apart: of two generations that are a multiple of this apart, they hold the
/// same.
const GENERATIONS_TOLD_APART: u64 = 1_024;

/// How many slots are left to deletes: the last ones of the table, which a pass takes for no other change.
const LEFT_TO_DELETES: u64 = 2;

/// The word of a slot that is free from the start, with the retire epoch 0.
pub(crate) const FREE_FROM_START: u64 = 0;

/// The word of a slot that is in use from the start.
pub(crate) const USED_FROM_START: u64 = 7;

/// Returns the slot in which a card lies.
#[inline(always)]
pub(crate) fn slot_of(card: u64) -> u64
    ensures { result ≡ slot_of card }
{
    card % GENERATION_SIZE
}

/// Returns the generation of a card in its slot.
#[inline(always)]
pub(crate) fn generation_of(card: u64) -> u64
    ensures { result ≡ generation_of card }
{
    card / GENERATION_SIZE
}

// Returns whether a generation is the first one, or one that child words tell from the first: only such a generation
// has slots.
#[inline(always)]
fn has_slots(generation: u64) -> bool
    ensures { result ≡ has_slots generation }
{
    generation == 0 || generation % GENERATIONS_TOLD_APART != 0
}

/// Returns the generation of the card in a slot in use, by the slot's word.
#[inline(always)]
pub(crate) fn generation_in(word: u64) -> u64
    ensures { result ≡ generation_in word }
{
    word / 8
}

// Returns the retire epoch with which a slot was set free, by the word of a free slot.
#[inline(always)]
fn retire_epoch_in(word: u64) -> u64
    ensures { result ≡ retire_epoch_in word }
{
    word / 8
}

/// Returns whether a slot was set free with a retire epoch below a safe epoch, by the slot's word.
#[inline(always)]
pub(crate) fn is_free_before(word: u64, safe_epoch: u64) -> bool
    ensures { result ≡ could_take word safe_epoch }
{
    word % 8 == 0 && retire_epoch_in(word) < safe_epoch
}

// Returns where a slot has its word among those of the slots. Passes that claim cards one after the other take slots
// that come one after the other, whose words stand eight words apart, so that they are not in one line of the cache.
#[inline(always)]
fn spread(slot: u64) -> u64
    ensures { result ≡ spread slot }
{
    64 * (slot / 64) + 8 * (slot % 8) + slot / 8 % 8
}

/// Returns how many numbers that have slots a pass goes by until it looks at all announcements again: few enough that
/// the epoch advances several times while each slot is passed once, and at most 128, so that a look at an announcement
/// is seldom.
#[inline(always)]
pub(crate) fn numbers_per_look(slots: Slots) -> u64 {
    (slots.last / 8).clamp(1, 128)
}

/// Returns whether a slot is for each change, as all are but the last ones, which are left to deletes.
#[inline(always)]
pub(crate) fn is_for_all(slots: Slots, slot: u64) -> bool
    requires slot { slot < generation_size }
    ensures { result ≡ nat_le (slot + 2) slots.last }
{
    slot + LEFT_TO_DELETES <= slots.last
}

/// Returns whether a card has a slot: it is one of the table, and the card's generation is the first one, or one that
/// child words tell from the first.
#[inline(always)]
pub(crate) fn has_slot(slots: Slots, card: u64) -> bool
    ensures has { result ≡ has_slot_in slots.last card }
    ensures inside { result ≡ true → slot_of card ≤ slots.last }
{
    slot_of(card) <= slots.last && has_slots(generation_of(card))
}

/// Returns the least number of a card that has a slot, from this card on: the first one of the next generation that has
/// slots, if the card has none.
#[inline(always)]
pub(crate) fn next_with_slot(slots: Slots, card: u64) -> u64
    requires { card ≤ greatest_number + 1 }
    ensures from { card ≤ result }
    ensures slot { has_slot_in slots.last result ≡ true }
    ensures first { (c : ℕ) → card ≤ c → has_slot_in slots.last c ≡ true → result ≤ c }
{
    if has_slot(slots, card) {
        return card;
    }
    let next = generation_of(card) + 1;
    if has_slots(next) {
        GENERATION_SIZE * next
    } else {
        GENERATION_SIZE * (next + 1)
    }
}

/// Returns the address of the word of a slot: behind the announcements.
#[inline(always)]
pub(crate) fn slot_word(slots: Slots, slot: u64) -> usize
    requires last { slots.last ≤ greatest_card }
    requires few { slots.announcements ≤ greatest_card }
    requires slot { slot ≤ slots.last }
    ensures { result ≡ slot_word slots slot }
{
    epoch_word(slots) + 9 + 8 * slots.announcements as usize + spread(slot) as usize
}
