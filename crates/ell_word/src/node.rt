//! Node numbers: each card has an internal node and two leaves, and leaves one of its four numbers unused.
ghost use Rattle.std.specs.Prelude.{◌≡◌, ◌≤◌, ◌↔◌, IsTrue};
ghost use Rattle.ell_word.specs.Node.{greatest_number, greatest_card, generation_size, most_cards, most_start, infinity1, infinity2, internal, left_leaf, right_leaf, IsInternal, card};

// How far apart the numbers of two cards' internal nodes are: a power of two, so that the card of a node is a shift away,
// which is asked at each node of a search.
const NUMBERS_PER_CARD: u64 = 4;

/// The greatest number that a card may have: four times it, and 3, is below 2^64.
pub const NUMBER_MAX: u64 = 4_611_686_018_427_387_903;

/// How many numbers of cards are a generation, 2^26: each slot of a table has one of them. A child word tells as many
/// tags apart.
pub const GENERATION_SIZE: u64 = 67_108_864;

/// The greatest number of the last card of a table whose cards do not come back, and of a card that has words.
pub const CARD_MAX: u64 = 67_108_861;

/// The greatest number of cards that a table gives out.
pub const CARDS_MAX: u64 = 1_000_000;

/// The greatest number of start keys.
pub const START_MAX: usize = 1_000_000;

/// The lesser of the two keys above all real keys: the greatest leaf of the root's left subtree has it.
pub const INF1: u64 = 18_446_744_073_709_551_614;

/// The greater of the two: the root and its right leaf have it.
pub const INF2: u64 = 18_446_744_073_709_551_615;

/// The constants are the numbers that the definitions have: `NUMBER_MAX` is 2^62 - 1, `GENERATION_SIZE` is 2^26,
/// `CARD_MAX` is 2^26 - 3, `CARDS_MAX` and `START_MAX` are 1,000,000, `INF1` is 2^64 - 2, and `INF2` is 2^64 - 1.
pub fn constants_are_as_defined()
    // `NUMBER_MAX` is 2^62 - 1, `GENERATION_SIZE` is 2^26, `CARD_MAX` is 2^26 - 3, `CARDS_MAX` and `START_MAX` are
    // 1,000,000.
    ensures number { NUMBER_MAX ≡ greatest_number }
    ensures generation { GENERATION_SIZE ≡ generation_size }
    ensures card { CARD_MAX ≡ greatest_card }
    ensures cards { CARDS_MAX ≡ most_cards }
    ensures start { START_MAX ≡ most_start }
    // `INF1` is 2^64 - 2, and `INF2` is 2^64 - 1.
    ensures lesser { INF1 ≡ infinity1 }
    ensures greater { INF2 ≡ infinity2 }
{}

/// Returns the internal node of a card.
pub fn internal_of(card: u64) -> u64
    requires { card ≤ greatest_number }
    // Returns the number of the card's internal node.
    ensures { result ≡ internal card }
{
    NUMBERS_PER_CARD * card
}

/// Returns the left leaf of a card.
pub fn left_leaf_of(card: u64) -> u64
    requires { card ≤ greatest_number }
    // Returns the number of the card's left leaf.
    ensures { result ≡ left_leaf card }
{
    internal_of(card) + 1
}

/// Returns the right leaf of a card.
pub fn right_leaf_of(card: u64) -> u64
    requires { card ≤ greatest_number }
    // Returns the number of the card's right leaf.
    ensures { result ≡ right_leaf card }
{
    internal_of(card) + 2
}

/// Returns `true` if a node is internal, not a leaf.
pub fn is_internal(node: u64) -> bool
    // Returns `true` exactly if the number is that of an internal node.
    ensures { IsTrue result ↔ IsInternal node }
{
    node % NUMBERS_PER_CARD == 0
}

/// Returns the card that a node stands on.
pub fn card_of(node: u64) -> u64
    // Returns the number of the node's card.
    ensures { result ≡ card node }
{
    node / NUMBERS_PER_CARD
}
