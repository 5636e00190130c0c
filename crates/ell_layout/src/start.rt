//! The words of the opening tree.
ghost use Rattle.std.specs.Prelude.{◌≡◌, ◌+◌, ◌<◌, ◌≤◌, length, replicate};
ghost use Rattle.ell_word.specs.Node.{greatest_card};
ghost use Rattle.ell_layout.specs.Layout.{table_size};
ghost use Rattle.ell_layout.specs.Words.{words_of};
ghost use Rattle.ell_layout.specs.Cards.{table_filled};
ghost use Rattle.ell_layout.specs.Start.{start_leaf, start_value, words_at_start, branch_filling};

use crate::branch::{Branch, branch_of};
use crate::field::{Field, update_word};
use ell_word::{INF1, INF2, State, right_leaf_of};

/// Writes the words of the opening tree over these start keys, ascending, with their values, into a table of zeros, and
/// whether the tree is flat: then each card after those of the opening tree has a block.
/// Conditions: the number of the last card is at least the number of start keys and at most `CARD_MAX`; there are fewer
/// start keys than `CARD_MAX`.
pub fn write_opening(words: &mut [u64], start: &[(u64, u64)], last: u64, flat: bool)
    requires zeros { words.old ≡ replicate (table_size last) 0 }
    requires room { length start.now ≤ last }
    requires most { last ≤ greatest_card }
    requires few { length start.now < greatest_card }
    // The words become those of the balanced tree over the start keys, which is flat or not.
    ensures { words_of words.new ≡ words_at_start flat start.now }
{
    let many = start.len() as u64;
    words[0] = many + 1;
    let root = Branch {
        card: 0,
        first: 0,
        left: many + 1,
        right: 1,
    };
    write_fields(
        words,
        0,
        &[
            (Field::Key, INF2),
            (Field::Left, root.left_child()),
            (Field::Right, right_leaf_of(0)),
            (Field::Update, update_word(State::Clean, 0)),
            (Field::LeftLeafKey, INF1),
            (Field::RightLeafKey, INF2),
        ],
    );
    for card in 1..many + 1 {
        write_branch(words, start, branch_of(many + 1, card));
    }
    if flat {
        words[1] = many + 1;
    }
}

// Writes the words of a card of the opening tree but the root's.
fn write_branch(words: &mut [u64], start: &[(u64, u64)], branch: Branch)
    requires inside { table_size branch.card ≤ length words.old }
    requires leaves { branch.first + branch.left ≤ length start.now + 1 }
    requires most { branch.card + branch.left ≤ greatest_card }
    requires card { branch.card < greatest_card }
    ensures { words_of words.new ≡ table_filled (words_of words.old) branch.card (branch_filling (start_leaf start.now)
        (start_value start.now) branch) }
{
    let middle = leaf_of(start, branch.first + branch.left);
    let left = if branch.left == 1 {
        leaf_of(start, branch.first)
    } else {
        (0, 0)
    };
    let right = if branch.right == 1 { middle } else { (0, 0) };
    write_fields(
        words,
        branch.card,
        &[
            (Field::Key, middle.0),
            (Field::Left, branch.left_child()),
            (Field::Right, branch.right_child()),
            (Field::Update, update_word(State::Clean, 0)),
            (Field::LeftLeafKey, left.0),
            (Field::RightLeafKey, right.0),
            (Field::LeftValue, left.1),
            (Field::RightValue, right.1),
        ],
    );
}

// The key of a leaf of the opening tree, with its value.
fn leaf_of(start: &[(u64, u64)], leaf: u64) -> (u64, u64)
    requires { leaf ≤ length start.now + 1 }
    ensures key { result.0 ≡ start_leaf start.now leaf }
    ensures value { result.1 ≡ start_value start.now leaf }
{
    match start.get(leaf as usize) {
        Some(pair) => *pair,
        None if leaf as usize == start.len() => (INF1, 0),
        None => (INF2, 0),
    }
}

// Writes these fields of a card, in order.
fn write_fields(words: &mut [u64], card: u64, fields: &[(Field, u64)])
    requires inside { table_size card ≤ length words.old }
    requires most { card ≤ greatest_card }
    ensures { words_of words.new ≡ table_filled (words_of words.old) card fields.now }
{
    for (field, value) in fields {
        words[field.address(card)] = *value;
    }
}
