//! The end of a table.
ghost use Rattle.std.specs.Prelude.{◌≡◌, ◌≢◌, ◌≤◌, length, None, false, true};
ghost use Rattle.std.specs.List.{All};
ghost use Rattle.std.specs.Slots.{slots_items, slots_len, IsFull};
ghost use Rattle.ell_word.specs.Node.{card, greatest_card, IsNode};
ghost use Rattle.ell_layout.specs.Layout.{table_size};
ghost use Rattle.ell_layout.specs.Words.{word, words_of};
ghost use Rattle.ell_core.specs.state.Machine.{ledger_of};
ghost use Rattle.ell_runs.specs.Views.{IsFree, whole_share};
ghost use Rattle.ell_cards.specs.Models.{last_slot};
ghost use Rattle.ell_cards.specs.Closed.{ClosedModel, HistoryEnds, TableEnds};

use crate::epochs::last_slot;
use crate::fixed::FixedMemory;
use crate::memory::Seat;
use crate::pass::Pass;
use crate::table::CardTable;
use ell_core::TreeWords;
use ell_layout::{Field, child_field, key_field, value_field};
use ell_word::card_of;
use std::alloc::Allocator;
use std::marker::Model;

/// The words of a table that has ended.
pub struct Closed<A: Allocator + Copy> {
    closed: atomic_table::Closed<(), A>,
    last_card: u64,
}

impl<A: Allocator + Copy> Model for Closed<A> {
    ghost Value = { ClosedModel };

    ghost view = { λ c. record { words = slots_items c.closed.words; last_card = c.last_card } };

    ghost invariant = { λ c. IsFull c.closed.words
        × (slots_len c.closed.words ≡ length (slots_items c.closed.words))
        × (slots_len c.closed.slots ≡ 0)
        × (table_size c.last_card ≤ length (slots_items c.closed.words))
        × (c.last_card ≤ greatest_card) };
}

impl<A: Allocator + Copy> CardTable<FixedMemory<A>> {
    /// Ends the table with a pass that has nothing in hand, owns each of the keys that may have owners, and, if the
    /// other keys are shared, has the whole share. Nothing is said of what a table whose cards come back leaves.
    pub fn close(self, pass: Pass<FixedMemory<A>>) -> Closed<A>
        requires own { pass.table ≡ self.id }
        requires free { IsFree pass.view }
        requires whole { self.plan.shared ≡ true → pass.view.share ≡ whole_share }
        requires all { All (λ k. ledger_of pass.view.worker.ledger k ≢ None) self.plan.keys }
        // A run from the table's start led to the words. Of the keys that have owners, their tree has those that the
        // pass has present, with their values; its other keys are shared.
        ensures ends { self.plan.slots ≡ None → TableEnds self.plan pass.view result }
        // The pass knows all of the table's history, which goes on from what it had seen, and what its calls leave is
        // the tree of the words.
        ensures history { self.plan.slots ≡ None → HistoryEnds self.plan pass result }
        // The number of the last card stays the same; in a table whose cards come back it is the last one that has
        // words.
        ensures cards { result.last_card ≡ last_slot self.plan }
    {
        let CardTable {
            table,
            alloc: _,
            last_card,
            shared: _,
            first_block: _,
            slots,
        } = self;
        let Pass {
            keys: _,
            label: _,
            steps: _,
            share: _,
            standing: _,
            seat,
        } = pass;
        let FixedMemory { table } = table;
        let Seat { seat } = seat;
        Closed {
            closed: table.close_with(seat),
            last_card: last_slot(slots, last_card),
        }
    }
}

impl<A: Allocator + Copy> Closed<A> {
    /// Returns the number of the last card, at most `CARD_MAX`.
    pub fn last_card(&self) -> u64
        // Returns the number of the last card.
        ensures cards { result ≡ self.now.last_card }
        ensures limit { result ≤ greatest_card }
    {
        self.last_card
    }

    /// Returns what a field of a card says: of a child word, and of the leaf's, the node without its tag. Condition: the
    /// card is at most the last card.
    pub fn word(&self, card: u64, field: Field) -> u64
        requires { card ≤ self.now.last_card }
        // Returns what the card's field says.
        ensures { result ≡ word (words_of self.now.words) card field }
    {
        field.says(self.closed.word(field.address(card)))
    }
}

impl<A: Allocator + Copy> TreeWords for Closed<A> {
    ghost words = { λ c. words_of c.words };

    ghost can_read = { λ c node. (card node ≤ c.last_card) × IsNode node };

    fn key(&self, node: u64) -> u64 {
        self.word(card_of(node), key_field(node))
    }

    fn value(&self, leaf: u64) -> u64 {
        self.word(card_of(leaf), value_field(leaf))
    }

    fn child(&self, node: u64, right: bool) -> u64 {
        self.word(card_of(node), child_field(right))
    }
}

impl<A: Allocator + Copy> Drop for Closed<A> {
    fn drop(self) {
        let Closed {
            closed,
            last_card: _,
        } = self;
        closed.free();
    }
}
