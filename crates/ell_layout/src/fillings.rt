//! What fills a card when it is claimed.
ghost use Rattle.std.specs.Prelude.{◌≡◌, ◌≤◌};
ghost use Rattle.ell_word.specs.Node.{greatest_number};
ghost use Rattle.ell_layout.specs.Cards.{brought_by, insert_filling, delete_filling, left_of_card, right_of_card};

use crate::field::{Field, update_word};
use ell_word::{State, internal_of, is_internal, left_leaf_of, right_leaf_of};

/// Returns the fields of an insert's card, for a key with its value at a leaf: an internal node with the greater key,
/// over two new leaves, the lesser key on the left, each with its value. Condition: the card is at most `NUMBER_MAX`.
pub fn insert_filling(
    card: u64,
    key: u64,
    value: u64,
    parent: u64,
    leaf: u64,
    leaf_key: u64,
    leaf_value: u64,
) -> [(Field, u64); 10]
    requires { card ≤ greatest_number }
    // Returns what fills the card of an insert or a swap.
    ensures { result ≡ insert_filling card key value parent leaf leaf_key leaf_value }
{
    let (left_value, right_value) = if key < leaf_key {
        (value, leaf_value)
    } else {
        (leaf_value, value)
    };
    [
        (Field::P, parent),
        (Field::L, leaf),
        (Field::Key, key.max(leaf_key)),
        (Field::Left, left_leaf_of(card)),
        (Field::Right, right_leaf_of(card)),
        (Field::Update, update_word(State::Clean, 0)),
        (Field::LeftLeafKey, key.min(leaf_key)),
        (Field::RightLeafKey, key.max(leaf_key)),
        (Field::LeftValue, left_value),
        (Field::RightValue, right_value),
    ]
}

/// Returns the children of the node of an insert's card for a key above a node of this key, left and right: its own
/// leaves, or an internal node, and in a flat tree any node, in place of the leaf with its key. Condition: the card is at
/// most `NUMBER_MAX`.
pub fn card_children(flat: bool, card: u64, key: u64, below: u64, below_key: u64) -> (u64, u64)
    requires { card ≤ greatest_number }
    // Returns the left child and the right one.
    ensures left { result.0 ≡ left_of_card flat card key below below_key }
    ensures right { result.1 ≡ right_of_card flat card key below below_key }
{
    let (left, right) = (left_leaf_of(card), right_leaf_of(card));
    if !is_internal(below) && !flat {
        (left, right)
    } else if key < below_key {
        (left, below)
    } else {
        (below, right)
    }
}

/// Returns the node that an insert's card brings to the parent: its right leaf if it replaces a leaf by that, as a card
/// does whose leaves have the same key, else its internal node. Condition: the card is at most `NUMBER_MAX`.
#[inline(always)]
pub fn brought_node(card: u64, replaces: bool) -> u64
    requires { card ≤ greatest_number }
    // Returns the node that the card brings into the tree: its right leaf if it replaces a leaf, else its internal node.
    ensures { result ≡ brought_by card replaces }
{
    if replaces {
        right_leaf_of(card)
    } else {
        internal_of(card)
    }
}

/// Returns the fields of a delete's card: what its search saw.
pub fn delete_filling(grandparent: u64, parent: u64, leaf: u64, was: u64) -> [(Field, u64); 4]
    // Returns what fills the card of a delete.
    ensures { result ≡ delete_filling grandparent parent leaf was }
{
    [
        (Field::Gp, grandparent),
        (Field::P, parent),
        (Field::L, leaf),
        (Field::Was, was),
    ]
}
