//! The balanced tree over keys that are there at the start: which card has which of its nodes.
ghost use Rattle.std.specs.Prelude.{◌≡◌, ◌+◌, ◌<◌, ◌≤◌};
ghost use Rattle.ell_word.specs.Node.{greatest_number};
ghost use Rattle.ell_layout.specs.Branches.{halved, branch_of, left_child, right_child};

use ell_word::{internal_of, left_leaf_of, right_leaf_of};

/// The internal node of a card, over leaves of a row.
#[derive(Clone, Copy, PartialEq, Eq)]
pub struct Branch {
    pub card: u64,
    /// The place of its first leaf in the row, from 0 on.
    pub first: u64,
    /// How many leaves are on its left, and how many follow them on its right.
    pub left: u64,
    pub right: u64,
}

impl Branch {
    /// Returns the left child: the card's own left leaf, if there is one leaf on that side, or else the node of the
    /// next card.
    pub fn left_child(self) -> u64
        requires { self.card < greatest_number }
        // Returns the left child: the card's own left leaf if that side has one leaf, else the node of the next card.
        ensures { result ≡ left_child self }
    {
        if self.left == 1 {
            left_leaf_of(self.card)
        } else {
            internal_of(self.card + 1)
        }
    }

    /// Returns the right child: the card's own right leaf, if there is one leaf on that side, or else the node of the
    /// card after those on the left.
    pub fn right_child(self) -> u64
        requires { self.card + self.left ≤ greatest_number }
        // Returns the right child: the card's own right leaf if that side has one leaf, else the node of the first card
        // that stands there.
        ensures { result ≡ right_child self }
    {
        if self.right == 1 {
            right_leaf_of(self.card)
        } else {
            internal_of(self.card + self.left)
        }
    }
}

/// Returns the branch of a card of the balanced tree whose root, card 0, has this many leaves on its left and one on
/// its right. Each other branch has half of its leaves on its left, and one more on its right if their number is odd,
/// and the cards go down the left before they go down the right. Conditions: the card is less than the number of
/// leaves, and that number is at most `NUMBER_MAX`.
pub fn branch_of(leaves: u64, card: u64) -> Branch
    requires card { card < leaves }
    requires most { leaves ≤ greatest_number }
    // Returns the card's branch of the balanced tree.
    ensures { result ≡ branch_of leaves card }
{
    let mut branch = Branch {
        card: 0,
        first: 0,
        left: leaves,
        right: 1,
    };
    while branch.card != card {
        branch = if card < branch.card + branch.left {
            halved(branch.card + 1, branch.first, branch.left)
        } else {
            halved(
                branch.card + branch.left,
                branch.first + branch.left,
                branch.right,
            )
        };
    }
    branch
}

// The branch of a card over this many leaves from the first on, half of them on its left.
fn halved(card: u64, first: u64, size: u64) -> Branch
    ensures { result ≡ halved card first size }
{
    let left = size / 2;
    Branch {
        card,
        first,
        left,
        right: size - left,
    }
}
