//! Where the words of a node stand: at those of the slot in which its card lies.
ghost use Rattle.std.specs.Prelude.{◌≡◌, ◌≤◌, ◌%◌, false};
ghost use Rattle.ell_word.specs.Node.{greatest_card, card};
ghost use Rattle.ell_layout.specs.Words.{IsLeaf, child_field, key_field, value_field};
ghost use Rattle.ell_layout.specs.declared.field.Field.TheVariants as field;
ghost use Rattle.ell_cards.specs.Addresses.{slot_address};
ghost use Rattle.ell_cards.specs.SlotWords.{slot_of};

use crate::slot_words::slot_of;
use ell_layout::{Field, child_field, key_field, value_field};
use ell_word::card_of;

/// Returns the address of a field of a card.
#[inline(always)]
pub(crate) fn field_address(card: u64, field: Field) -> usize
    requires { slot_of card ≤ greatest_card }
    ensures { result ≡ slot_address card field }
{
    field.address(slot_of(card))
}

/// Returns the address of the update word of a node.
#[inline(always)]
pub(crate) fn update_address(node: u64) -> usize
    requires { slot_of (card node) ≤ greatest_card }
    ensures { result ≡ slot_address (card node) field.Update }
{
    field_address(card_of(node), Field::Update)
}

/// Returns the address of a child of a node.
#[inline(always)]
pub(crate) fn child_address(node: u64, right: bool) -> usize
    requires { slot_of (card node) ≤ greatest_card }
    ensures { result ≡ slot_address (card node) (child_field right) }
{
    field_address(card_of(node), child_field(right))
}

/// Returns the address of the key of a node.
#[inline(always)]
pub(crate) fn key_address(node: u64) -> usize
    requires { slot_of (card node) ≤ greatest_card }
    ensures { result ≡ slot_address (card node) (key_field (node % 4)) }
{
    field_address(card_of(node), key_field(node))
}

/// Returns the address of the value of a leaf.
#[inline(always)]
pub(crate) fn value_address(leaf: u64) -> usize
    requires card { slot_of (card leaf) ≤ greatest_card }
    requires outer { IsLeaf leaf }
    ensures { result ≡ slot_address (card leaf) (value_field (leaf % 4)) }
{
    field_address(card_of(leaf), value_field(leaf))
}

/// Returns the address of the key of the root: a word that never changes, in a line that each search reads.
#[inline(always)]
pub(crate) fn root_key() -> usize
    ensures { result ≡ slot_address 0 (key_field 0) }
{
    key_address(0)
}
