//! Some of the three nodes of a card.
ghost use Rattle.std.specs.Prelude.{◌≡◌, ◌%◌};
ghost use Rattle.ell_cards.specs.CardNodes.{all_nodes, all_are_retired, has_node, node_alone, nodes_of_both};
ghost use Rattle.ell_cards.specs.CardNodes.{RetiresToo, retiring_first, retiring_second, retiring_third};

/// Some of the three nodes of a card.
#[derive(Clone, Copy)]
pub struct CardNodes {
    /// Whether the card's internal node is one of them.
    pub internal: bool,
    /// Whether its left leaf is.
    pub left: bool,
    /// Whether its right leaf is.
    pub right: bool,
}

impl CardNodes {
    /// Returns all three.
    #[inline(always)]
    pub(crate) fn all() -> CardNodes
        ensures { result ≡ all_nodes }
    {
        CardNodes {
            internal: true,
            left: true,
            right: true,
        }
    }

    /// Returns this node alone, by its place on its card: none if the number is no node's.
    #[inline(always)]
    pub(crate) fn only(node: u64) -> CardNodes
        ensures { result ≡ node_alone (node % 4) }
    {
        CardNodes {
            internal: node % 4 == 0,
            left: node % 4 == 1,
            right: node % 4 == 2,
        }
    }

    /// Returns these and others.
    #[inline(always)]
    pub(crate) fn and(self, others: CardNodes) -> CardNodes
        ensures { result ≡ nodes_of_both self others }
    {
        CardNodes {
            internal: self.internal || others.internal,
            left: self.left || others.left,
            right: self.right || others.right,
        }
    }

    /// Returns whether they are all retired by the word of the card's slot.
    #[inline(always)]
    pub(crate) fn are_retired(self, word: u64) -> bool
        ensures { result ≡ all_are_retired self word }
    {
        (!self.internal || word % 2 == 0)
            && (!self.left || word / 2 % 2 == 0)
            && (!self.right || word / 4 % 2 == 0)
    }

    /// Returns another word for the slot, by which they are retired too.
    #[inline(always)]
    pub(crate) fn retired_in(self, word: u64) -> u64
        ensures { RetiresToo self word result }
    {
        let first = retiring_first(self.internal, word);
        let second = retiring_second(self.left, first);
        retiring_third(self.right, second)
    }
}

// Returns a word by which the internal node is retired too, or the word itself.
#[inline(always)]
fn retiring_first(too: bool, word: u64) -> u64
    ensures { result ≡ retiring_first too word }
{
    if too && word % 2 == 1 { word - 1 } else { word }
}

// Returns a word by which the left leaf is retired too, or the word itself.
#[inline(always)]
fn retiring_second(too: bool, word: u64) -> u64
    ensures { result ≡ retiring_second too word }
{
    if too && word / 2 % 2 == 1 {
        word - 2
    } else {
        word
    }
}

// Returns a word by which the right leaf is retired too, or the word itself.
#[inline(always)]
fn retiring_third(too: bool, word: u64) -> u64
    ensures { result ≡ retiring_third too word }
{
    if too && word / 4 % 2 == 1 {
        word - 4
    } else {
        word
    }
}
