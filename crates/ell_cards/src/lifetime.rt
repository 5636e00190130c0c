//! How a table begins, and how its passes part and come together.
ghost use Rattle.std.specs.Prelude.{is_some, ℕ, slice_index, ◌≡◌, ◌≢◌, ◌≤◌, ◌<◌, ◌+◌, ◌*◌, ◌↔◌, if◌then◌else◌, IsTrue, [], filter, not, max, true, length, None, IfOk, IfErr, OnOk, IfSome};
ghost use Rattle.std.specs.List.{All};
ghost use Rattle.std.specs.List.Sorted.{IsStrictlyIncreasing};
ghost use Rattle.std.specs.Map.{keys_of};
ghost use Rattle.ell_ops.specs.Meaning.{greatest_key};
ghost use Rattle.ell_ops.specs.KeySet.{set_of};
ghost use Rattle.ell_word.specs.Node.{greatest_card, greatest_number, most_start};
ghost use Rattle.ell_core.specs.state.Opening.{last_card};
ghost use Rattle.ell_core.specs.state.Machine.{ledger_of};
ghost use Rattle.ell_layout.specs.Layout.{table_size};
ghost use Rattle.ell_layout.specs.Start.{words_at_start};
ghost use Rattle.ell_layout.specs.Words.{has_block, words_of};
ghost use Rattle.ell_runs.specs.Plans.{flat_from};
ghost use Rattle.ell_cards.specs.Models.{Steps, StepsOut, IsCardCount, RefusesCards, SplitRefuses, one_more};
ghost use Rattle.ell_runs.specs.Views.{IsFree, MayPart};
ghost use Rattle.ell_runs.specs.Changes.{left_view, right_view, joined_view};
ghost use Rattle.ell_cards.specs.Inside.{IsNewTable};
ghost use Rattle.ell_cards.specs.Stepping.{MaySplit, MayHave, PartsShare};
ghost use Rattle.ell_cards.specs.Epochs.{AreWholeWords, slot_word, slots_size, whole_size, words_of_free_slots};
ghost use Rattle.ell_cards.specs.Shown.{IsWord};
ghost use Rattle.ell_runs.specs.Sights.{joined_sight};
ghost use Rattle.ell_cards.specs.SlotWords.{taken_word};
ghost use Rattle.ell_runs.specs.Starts.{MayStart};
ghost use Rattle.ell_cards.specs.Models.{OpensBy};
ghost use Rattle.ell_cards.specs.Kinds.{HasRoomForPasses, MayStartWith, opened_plan};
ghost use Rattle.ell_cards.specs.Whole.{IsWhole, first_known};
ghost use Rattle.atomic_table.specs.Table.{opening};

use crate::epochs::{announcement_word, epoch_word, last_slot, slots_size};
use crate::fault::{CardFault, SplitFault};
use crate::fixed::FixedMemory;
use crate::kind::TreeKind;
use crate::memory::{Memory, Seat, join_seat};
use crate::pass::{Pass, Standing};
use crate::rule::{Joined, PartedBy, SplitBy};
use crate::share::{Share, WHOLE_SHARE};
use crate::slot_words::{FREE_FROM_START, USED_FROM_START, slot_word};
use crate::table::CardTable;
use crate::view::Plan;
use atomic_table::Table;
use ell_layout::{table_size, write_opening};
use ell_ops::{NoMemory, united_keys};
use ell_runs::Slots;
use ell_word::{CARDS_MAX, card_of, is_internal};
use std::alloc::{AllocError, Allocator};
use std::marker::Brand;

impl<A: Allocator + Copy> CardTable<FixedMemory<A>> {
    /// Creates a table of a tree of this kind that has these start keys with their values, balanced, with this many
    /// cards to be claimed, 1 to `CARDS_MAX`, and one pass that owns these keys: those of them that are start keys
    /// are present, the others absent. The tree of the start keys has a card for each of them, so the number of the
    /// last card is the number of cards asked for plus that of the start keys. The last card of a tree whose cards come
    /// back has the number `NUMBER_MAX`, but only the cards asked for and those of the start keys have words and may be
    /// claimed. `BadCards` is returned exactly if the number of cards asked for is not 1 to `CARDS_MAX`, and
    /// `NoMemory` if an allocation fails. Conditions: the keys are strictly ascending, and at most `KEY_MAX`; the
    /// start keys are strictly ascending, at most `START_MAX`, and each is among the keys or shared; and the kind has
    /// room for 1 to 1,000,000 passes, if cards come back.
    pub fn reserve(
        alloc: A,
        kind: TreeKind,
        start: &[(u64, u64)],
        keys: &[u64],
        cards: u64,
    ) -> Result<(CardTable<FixedMemory<A>>, Pass<FixedMemory<A>>), CardFault>
        requires ascending { IsStrictlyIncreasing keys.now }
        requires real { All (λ k. k ≤ greatest_key) keys.now }
        requires start_ascending { IsStrictlyIncreasing (keys_of start.now) }
        requires given { MayStartWith kind keys.now (keys_of start.now) }
        requires few { length start.now ≤ most_start }
        requires passes { HasRoomForPasses kind }
        // It succeeds only with 1 to 1,000,000 cards.
        ensures cards { OnOk result (IsCardCount cards) }
        // The table has the plan by which such a tree opens, and the pass knows what a first pass does: it owns the
        // keys, of which the start keys are present, has made no step, and has the safe epoch 0.
        ensures opened { IfOk result (OpensBy (opened_plan kind start.now keys.now cards)) }
        // `BadCards` is returned exactly if the number of cards is not 1 to 1,000,000; the only other error is
        // `NoMemory`.
        ensures refused { IfErr result (RefusesCards cards) }
    {
        if !is_card_count(cards) {
            return Err(CardFault::BadCards);
        }
        let room = cards + start.len() as u64;
        let plan = Plan {
            keys: copied(alloc, keys)?,
            start: copied(alloc, start)?,
            last_card: kind.last_number(room),
            shared: kind.shares_others(),
            flat: kind.is_flat(),
            slots: kind.slots(room),
        };
        Ok(CardTable::open(alloc, plan)?)
    }

    // A table with this plan, and its first pass.
    fn open(
        alloc: A,
        plan: Plan<A>,
    ) -> Result<(CardTable<FixedMemory<A>>, Pass<FixedMemory<A>>), AllocError>
        requires cards { plan.last_card ≤ greatest_number }
        requires few { length plan.start < greatest_card }
        requires may { MayStart plan }
        ensures opened { IfOk result (OpensBy plan) }
    {
        let (table, seat) = opened(alloc, &plan)?;
        let first_block = first_block(&plan);
        let Plan {
            keys,
            start: _,
            last_card,
            shared,
            flat: _,
            slots,
        } = plan;
        let pass = Pass {
            keys,
            label: 0,
            steps: 0,
            share: Share {
                units: WHOLE_SHARE,
                counts: shared,
            },
            standing: Standing::first(slots),
            seat,
        };
        let table = CardTable {
            table,
            alloc,
            last_card,
            shared,
            first_block,
            slots,
        };
        Ok((table, pass))
    }
}

impl<M: Memory> CardTable<M> {
    /// Returns the number of the last card. Where cards do not come back it is how many cards there are besides card 0,
    /// including those of the start keys, at most `CARD_MAX`. Of a table whose cards come back it is `NUMBER_MAX`, the
    /// greatest number that a card may have, and fewer cards have words.
    pub fn last_card(&self) -> u64
        // Returns the number of the last card.
        ensures cards { result ≡ self.now.plan.last_card }
        // It is at most `NUMBER_MAX`, and where cards do not come back at most `CARD_MAX`.
        ensures limit { result ≤ greatest_number }
        ensures few { self.now.plan.slots ≡ None → result ≤ greatest_card }
    {
        self.last_card
    }

    /// Returns `true` if the table's cards come back, so that cards lie in slots.
    #[inline(always)]
    pub fn reuses_cards(&self) -> bool
        // Returns `true` exactly if cards come back.
        ensures { result ≡ is_some self.now.plan.slots }
    {
        self.slots.is_some()
    }

    /// Returns `true` if the tree is flat.
    #[inline(always)]
    pub fn is_flat(&self) -> bool
        // Returns `true` exactly if there is a first card with a block.
        ensures { IsTrue result ↔ (0 < flat_from self.now.plan) }
    {
        0 < self.first_block
    }

    /// Returns `true` if a node has a block: in a flat tree each leaf, and each that is not of the opening tree, and in any
    /// other tree none.
    #[inline(always)]
    #[tactic(auto, unfolding(ell_layout::specs::Words::has_block))]
    pub fn has_block(&self, node: u64) -> bool
        // Returns `true` exactly if a node of the table with this number has a block.
        ensures { result ≡ has_block (flat_from self.now.plan) node }
    {
        0 < self.first_block && (self.first_block <= card_of(node) || !is_internal(node))
    }

    /// Returns how many pairs of the tree to have room for if a pass owns this many keys: this many are enough if no
    /// key is shared, and two for each card, including card 0, are always enough.
    pub fn most_pairs(&self, owned: usize) -> usize
        // Returns how many pairs the tree can have if the pass owns this many keys, and no other pass owns any.
        ensures { result ≡ (if self.now.plan.shared then 2 * self.now.plan.last_card + 2 else owned) }
    {
        if self.shared {
            2 * self.last_card as usize + 2
        } else {
            owned
        }
    }

    /// Parts a pass with nothing in hand: the left part gets these keys of its own, ascending, and the right part gets
    /// the rest, a part of the share and, if the table's cards come back, an announcement: it looks for a free one
    /// behind the one that the pass found last, and at each once. `TooManyPasses` is returned if the pass may not be
    /// parted, and in a table whose cards come back also if no announcement was found free; `NoMemory` is returned if
    /// an allocation fails. Either way the pass is as it was.
    pub fn split(
        &self,
        pass: Pass<M>,
        left_keys: &[u64],
    ) -> Result<(Pass<M>, Pass<M>), (Pass<M>, SplitFault)>
        requires own { pass.table ≡ self.now.id }
        requires free { IsFree pass.view }
        requires ascending { IsStrictlyIncreasing left_keys.now }
        requires owned { All (λ k. ledger_of pass.view.worker.ledger k ≢ None) left_keys.now }
        // The left part gets these keys, as they were, and keeps the safe epoch, the slot, and what the pass knows of
        // the history.
        ensures left { IfOk result (λ parts. Steps pass parts.0 (left_view left_keys.now pass.view)) }
        // The right part gets the other keys, and a piece of the share, and has the safe epoch 0, no slot, and no
        // calls; it has seen of the history what the pass has.
        ensures right { IfOk result (λ parts. StepsOut pass parts.1 (right_view left_keys.now pass.view)) }
        // Where cards do not come back, `TooManyPasses` is returned exactly if the tree shares keys and the share is
        // the least one; the only other error is `NoMemory`. The pass is then returned as it was.
        ensures may { OnOk result (MayPart pass.view) }
        ensures refused { IfErr result (λ refused. refused.0 ≡ pass) }
        ensures why { IfErr result (λ refused. SplitRefuses self.now.plan.slots pass.view refused.1) }
    {
        if !pass.may_part() {
            return Err((pass, SplitFault::TooManyPasses));
        }
        let Ok((left, right)) = parted(self.alloc, pass.keys.as_slice(), left_keys) else {
            return Err((pass, SplitFault::NoMemory));
        };
        match self.split_as::<Brand>(pass, left, right) {
            Ok(parts) => Ok(parts),
            Err(pass) => Err((pass, SplitFault::TooManyPasses)),
        }
    }

    // Parts a pass: one part has these keys, and the other those, and an announcement, if the table's cards come back.
    // If no announcement is left, the pass is as it was.
    fn split_as<J: SplitBy>(
        &self,
        pass: Pass<M>,
        left: Vec<u64, M::Alloc>,
        right: Vec<u64, M::Alloc>,
    ) -> Result<(Pass<M>, Pass<M>), Pass<M>>
        requires own { pass.table ≡ self.now.id }
        requires may { MaySplit pass.view }
        requires left { MayHave pass.view left.items (left_view J.keys pass.view) }
        requires right { MayHave pass.view right.items (right_view J.keys pass.view) }
        requires shares { PartsShare pass.view (left_view J.keys pass.view) (right_view J.keys pass.view) }
        ensures left { IfOk result (λ parts. Steps pass parts.0 (left_view J.keys pass.view)) }
        ensures right { IfOk result (λ parts. StepsOut pass parts.1 (right_view J.keys pass.view)) }
        ensures refused { IfErr result (λ p. (p ≡ pass) × (self.now.plan.slots ≢ None)) }
    {
        let Pass {
            keys,
            label,
            steps,
            share,
            mut standing,
            mut seat,
        } = pass;
        let announcement = self.find_announcement(&mut seat, standing.found);
        if self.slots.is_some() && announcement.is_none() {
            return Err(Pass {
                keys,
                label,
                steps,
                share,
                standing,
                seat,
            });
        }
        let other = self.table.split_seat::<PartedBy<J>>(&mut seat);
        let steps = steps.saturating_add(1);
        let (kept, given) = share.parted();
        let apart = standing.parted(announcement);
        let left = Pass {
            keys: left,
            label,
            steps,
            share: kept,
            standing,
            seat,
        };
        let right = Pass {
            keys: right,
            label,
            steps,
            share: given,
            standing: apart,
            seat: other,
        };
        Ok((left, right))
    }

    /// Joins two passes with nothing in hand into one, which gets the keys of both, and the left one's label. If an
    /// allocation fails, both are as they were.
    pub fn join(
        &self,
        left: Pass<M>,
        right: Pass<M>,
    ) -> Result<Pass<M>, (Pass<M>, Pass<M>, NoMemory)>
        requires left { left.table ≡ self.now.id }
        requires right { right.table ≡ self.now.id }
        requires left_free { IsFree left.view }
        requires right_free { IsFree right.view }
        // The pass is the left one, with the keys and the shares of both; it has seen the longer one of the beginnings of
        // the history that they have seen, and has the calls of both. Its count of steps in a row is one more than the
        // greater of the two counts.
        ensures joined { IfOk result (λ both. both ≡ record left {
          view = joined_view left.view right.view;
          steps = one_more (max left.steps right.steps);
          sight = joined_sight left.sight right.sight;
        }) }
        // If an allocation fails, both passes are returned as they were.
        ensures refused { IfErr result (λ refused. (refused.0 ≡ left) × (refused.1 ≡ right)) }
    {
        let Ok(keys) = united_keys(self.alloc, left.keys.as_slice(), right.keys.as_slice()) else {
            return Err((left, right, NoMemory));
        };
        let Pass {
            keys: _,
            label,
            steps,
            share,
            standing,
            mut seat,
        } = left;
        let Pass {
            keys: _,
            label: _,
            steps: others,
            share: added,
            standing: gone,
            seat: other,
        } = right;
        join_seat::<M, Joined>(&self.table, &mut seat, other);
        self.give_back(&mut seat, gone.announcement);
        let steps = steps.max(others).saturating_add(1);
        Ok(Pass {
            keys,
            label,
            steps,
            share: share.joined(added),
            standing,
            seat,
        })
    }

    /// Gives a pass up. If the table's cards come back, and the pass is in no operation and no look, its announcement
    /// is free from now on, so that a later split finds it. Where cards do not come back nothing happens. Its keys and
    /// its share stay with nobody.
    pub fn release(&self, pass: Pass<M>)
        requires own { pass.table ≡ self.now.id }
    {
        let Pass {
            keys: _,
            label: _,
            steps: _,
            share: _,
            standing,
            mut seat,
        } = pass;
        if standing.announces {
            return;
        }
        let (Some(slots), Some(announcement)) = (self.slots, standing.announcement) else {
            return;
        };
        // What it has set free may be taken by those that are pinned from now on, however few slots each pass takes.
        self.advance(&mut seat, slots);
        self.give_back_own(&mut seat, slots, announcement);
    }
}

/// Returns `true` if a table may have this many cards to be claimed.
pub fn is_card_count(cards: u64) -> bool
    // Returns `true` exactly if the number of cards is 1 to 1,000,000.
    ensures { IsTrue result ↔ IsCardCount cards }
{
    1 <= cards && cards <= CARDS_MAX
}

// The first card that is not of the opening tree, if the tree is to be flat, else 0.
fn first_block<A: Allocator + Copy>(plan: &Plan<A>) -> u64
    ensures { result ≡ flat_from plan.now }
{
    if plan.flat {
        plan.start.len() as u64 + 1
    } else {
        0
    }
}

// How many start keys there are.
fn start_count<A: Allocator + Copy>(plan: &Plan<A>) -> u64
    ensures { result ≡ length plan.now.start }
{
    plan.start.len() as u64
}

// The opening table. It copies the words, and their first list goes at once.
fn opened<A: Allocator + Copy>(
    alloc: A,
    plan: &Plan<A>,
) -> Result<(FixedMemory<A>, Seat<FixedMemory<A>>), AllocError>
    requires may { MayStart plan.now }
    ensures { IfOk result (λ made. IsNewTable (whole_size plan.now) made.0.table.shared.table_id made.1.table_id
        made.1.me (first_known plan.now) × (made.0.table.shared.key ≡ plan.now)) }
{
    let words = first_words(alloc, plan)?;
    let (table, seat) = Table::of_words(alloc, words.as_slice(), plan)?;
    Ok((FixedMemory { table }, Seat { seat }))
}

// All words of an opening table.
fn first_words<A: Allocator + Copy>(alloc: A, plan: &Plan<A>) -> Result<Vec<u64, A>, AllocError>
    requires may { MayStart plan.now }
    ensures whole { IfOk result (λ words. IsWhole plan.now (opening words.items [] (first_known plan.now))) }
    ensures size { IfOk result (λ words. length words.items ≡ whole_size plan.now) }
{
    let last = last_slot(plan.slots, plan.last_card);
    let room = match plan.slots {
        None => table_size(last),
        Some(slots) => slots_size(slots),
    };
    let cards = card_words(alloc, plan, last, room)?;
    are_words(cards.as_slice());
    let words = with_epochs(cards, plan.slots, start_count(plan))?;
    Ok(words)
}

// A law, the contract of a function that does nothing with what it reads: what memory has is a word.
fn are_words(words: &[u64])
    ensures { (i : ℕ) → IsWord (slice_index words.now i) }
{
    for word in words {
        let _word = *word;
    }
}

// The words of the cards of an opening table, up to this card, with room for so many words in all.
fn card_words<A: Allocator + Copy>(
    alloc: A,
    plan: &Plan<A>,
    last: u64,
    room: usize,
) -> Result<Vec<u64, A>, AllocError>
    requires room { length plan.now.start ≤ last }
    requires most { last ≤ greatest_card }
    requires few { length plan.now.start < greatest_card }
    ensures size { IfOk result (λ words. length words.items ≡ table_size last) }
    ensures are { IfOk result (λ words. words_of words.items ≡ words_at_start plan.now.flat plan.now.start) }
{
    let mut words = Vec::with_capacity(alloc, room)?;
    words.resize(table_size(last), 0)?;
    write_opening(words.as_mut_slice(), plan.start.as_slice(), last, plan.flat);
    Ok(words)
}

// These words, and behind them those of the epochs, if cards come back: the epoch is 1, nobody has an announcement but
// the first pass, and each slot is free but for the card of the root and those of so many start keys.
fn with_epochs<A: Allocator + Copy>(
    words: Vec<u64, A>,
    slots: Option<Slots>,
    given: u64,
) -> Result<Vec<u64, A>, AllocError>
    requires fit { IfSome slots (λ s. (given ≤ s.last) × (s.last ≤ greatest_card) × (s.announcements ≤ greatest_card)
        × (length words.items ≡ table_size s.last)) }
    ensures { IfOk result (λ all. AreWholeWords slots given words.items all.items) }
{
    let Some(slots) = slots else {
        return Ok(words);
    };
    let mut words = with_free_slots(words, slots)?;
    use_slots(words.as_mut_slice(), slots, given);
    Ok(words)
}

// These words, and behind them those of epochs, and of slots that are all free.
fn with_free_slots<A: Allocator + Copy>(
    words: Vec<u64, A>,
    slots: Slots,
) -> Result<Vec<u64, A>, AllocError>
    requires last { slots.last ≤ greatest_card }
    requires few { slots.announcements ≤ greatest_card }
    requires size { length words.items ≡ table_size slots.last }
    ensures { IfOk result (λ all. all.items ≡ words_of_free_slots slots words.items) }
{
    let mut words = words;
    words.resize(slot_word(slots, 0), 0)?;
    words.resize(slots_size(slots), FREE_FROM_START)?;
    words[epoch_word(slots)] = 1;
    words[announcement_word(slots, 0)] = 1;
    Ok(words)
}

// Marks the slots up to this one as in use.
fn use_slots(words: &mut [u64], slots: Slots, upto: u64)
    requires inside { upto ≤ slots.last }
    requires last { slots.last ≤ greatest_card }
    requires few { slots.announcements ≤ greatest_card }
    requires size { length words.old ≡ slots_size slots }
    ensures size { length words.new ≡ slots_size slots }
    ensures used { (slot : ℕ) → slot ≤ upto → slice_index words.new (slot_word slots slot) ≡ taken_word 0 }
    ensures same { (i : ℕ) → ((slot : ℕ) → slot ≤ upto → i ≢ slot_word slots slot)
        → slice_index words.new i ≡ slice_index words.old i }
{
    for slot in 0..upto + 1 {
        words[slot_word(slots, slot)] = USED_FROM_START;
    }
}

// A copy of some items.
fn copied<T: Copy, A: Allocator + Copy>(alloc: A, items: &[T]) -> Result<Vec<T, A>, AllocError>
    ensures { IfOk result (λ copy. copy.items ≡ items.now) }
{
    let mut copy = Vec::with_capacity(alloc, items.len())?;
    copy.extend_from_slice(items)?;
    Ok(copy)
}

// A copy of some of the keys, and the rest of the keys.
fn parted<A: Allocator + Copy>(
    alloc: A,
    keys: &[u64],
    some: &[u64],
) -> Result<(Vec<u64, A>, Vec<u64, A>), AllocError>
    requires ascending { IsStrictlyIncreasing keys.now }
    requires some_ascending { IsStrictlyIncreasing some.now }
    requires among { All (λ k. set_of keys.now k ≡ true) some.now }
    ensures some { IfOk result (λ parts. parts.0.items ≡ some.now) }
    ensures rest { IfOk result (λ parts. parts.1.items ≡ filter (λ k. not (set_of some.now k)) keys.now) }
{
    let copy = copied(alloc, some)?;
    let mut rest = Vec::with_capacity(alloc, keys.len() - some.len())?;
    let mut left = some;
    for key in keys {
        match left {
            [first, others @ ..] if first == key => left = others,
            _ => rest.push(*key)?,
        }
    }
    Ok((copy, rest))
}
