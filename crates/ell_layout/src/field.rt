//! The twelve words of a card, and where they stand.
ghost use Rattle.std.specs.Prelude.{◌≡◌, ◌≤◌, ◌%◌, ℕ};
ghost use Rattle.ell_word.specs.Link.{linked};
ghost use Rattle.ell_word.specs.Node.{greatest_number, greatest_card, card, IsInternal, IsNode};
ghost use Rattle.ell_word.specs.Word.{packed};
ghost use Rattle.ell_layout.specs.Cards.{says_by};
ghost use Rattle.ell_layout.specs.Layout.{place, address, table_size};
ghost use Rattle.ell_layout.specs.Words.{table_word, Words, word, key_field, value_field, child_field, IsLeaf};

use ell_word::{Link, State, Update, pack};

/// A word of a card: the first eight belong to its internal node and its two leaves, the others to the record of the
/// operation that took it (Info, figure 7 of the paper).
#[derive(Clone, Copy, Debug, PartialEq, Eq)]
pub enum Field {
    /// The key of the internal node.
    Key,
    /// The left child of the internal node.
    Left,
    /// The right child of the internal node.
    Right,
    /// The update word of the internal node.
    Update,
    /// The key of the left leaf.
    LeftLeafKey,
    /// The key of the right leaf.
    RightLeafKey,
    /// The value of the left leaf.
    LeftValue,
    /// The value of the right leaf.
    RightValue,
    /// The grandparent of the leaf, for a delete.
    Gp,
    /// The parent of the leaf.
    P,
    /// The leaf where the search ended.
    L,
    /// The update word of the parent that the search read, for a delete.
    Was,
}

/// Where the words of the first card begin: after the claim word, and words that are not used. A large block of the C library's
/// begins 16 bytes behind a multiple of 64, so the claim word has a cache line of its own there, and no node stands in two.
const FIRST: u64 = 6;

/// How many cards are in a group.
const GROUP: u64 = 64;

/// How many words a card has in each part of its group: the internal nodes, the leaves, and the records.
const PART: u64 = 4;

/// How many words of a group come between its internal nodes and those of the next: its leaves and its records.
const OTHER_PARTS: u64 = 2 * PART * GROUP;

impl Field {
    /// The fields, in the order of their places.
    pub const ALL: [Field; 12] = [
        Field::Key,
        Field::Left,
        Field::Right,
        Field::Update,
        Field::LeftLeafKey,
        Field::RightLeafKey,
        Field::LeftValue,
        Field::RightValue,
        Field::Gp,
        Field::P,
        Field::L,
        Field::Was,
    ];

    // The place of the field among the words of its card.
    #[inline(always)]
    fn place(self) -> u64
        ensures { result ≡ place self }
    {
        match self {
            Field::Key => 0,
            Field::Left => 1,
            Field::Right => 2,
            Field::Update => 3,
            Field::LeftLeafKey => 4,
            Field::RightLeafKey => 5,
            Field::LeftValue => 6,
            Field::RightValue => 7,
            Field::Gp => 8,
            Field::P => 9,
            Field::L => 10,
            Field::Was => 11,
        }
    }

    /// Returns what the field says by the word that a table has there: of a child word, and of the leaf's, the node
    /// without its tag.
    #[inline(always)]
    pub fn says(self, word: u64) -> u64
        // Returns what the field says by this word.
        ensures { result ≡ says_by self word }
    {
        match self {
            Field::L | Field::Left | Field::Right => Link::of(word).node,
            _ => word,
        }
    }

    /// Returns the address of a card's field in the list of all words: the claim word comes first, then groups of 64
    /// cards, in each of which the internal nodes come first, then the leaves, then the records. So a search reads no
    /// line of records. Condition: the card is at most `CARD_MAX`.
    #[inline(always)]
    pub fn address(self, card: u64) -> usize
        requires { card ≤ greatest_card }
        // Returns where the card's field stands in the table.
        ensures { result ≡ address card self }
    {
        let node = FIRST + PART * card + OTHER_PARTS * (card / GROUP);
        let part = GROUP * PART * (self.place() / PART);
        (node + part + self.place() % PART) as usize
    }
}

/// Returns the field that has the key of a node, on the node's card.
#[inline(always)]
pub fn key_field(node: u64) -> Field
    // Returns the field that has the node's key.
    ensures field { result ≡ key_field (node % 4) }
    ensures word { (w : Words) → IsNode node → word w (card node) result ≡ w.key node }
{
    match node % 4 {
        0 => Field::Key,
        1 => Field::LeftLeafKey,
        _ => Field::RightLeafKey,
    }
}

/// Returns the field that has the value of a leaf, on the leaf's card.
#[inline(always)]
pub fn value_field(leaf: u64) -> Field
    // Returns the field that has the leaf's value.
    ensures field { result ≡ value_field (leaf % 4) }
    ensures word { (w : Words) → IsNode leaf → IsLeaf leaf → word w (card leaf) result ≡ w.value leaf }
{
    if leaf % 4 == 1 {
        Field::LeftValue
    } else {
        Field::RightValue
    }
}

/// Returns the field that has the child of an internal node on a side, on the node's card.
#[inline(always)]
pub fn child_field(right: bool) -> Field
    // Returns the field that has the child of an internal node on this side.
    ensures field { result ≡ child_field right }
    ensures word { (w : Words) (node : ℕ) → IsInternal node → word w (card node) result ≡ w.child node right }
    // A table has the child's word there, with its tag.
    ensures table { (w : Words) (node : ℕ) → IsInternal node → table_word w (card node) result ≡ linked (record {
      node = w.child node right;
      tag = w.tag node right;
    }) }
{
    if right { Field::Right } else { Field::Left }
}

/// Returns the update word that a card sets, in a state. Condition: the card is at most `NUMBER_MAX`.
pub fn update_word(state: State, card: u64) -> u64
    requires { card ≤ greatest_number }
    // Returns the update word of the state and the card.
    ensures { result ≡ packed (record { state = state; card = card }) }
{
    pack(Update { state, card })
}

/// Returns how many words a table has whose cards are card 0 and this many more. Condition: at most `CARD_MAX` more.
pub fn table_size(cards: u64) -> usize
    requires { cards ≤ greatest_card }
    // Returns how many words a table with this last card has.
    ensures { result ≡ table_size cards }
{
    Field::Was.address(cards) + 1
}
