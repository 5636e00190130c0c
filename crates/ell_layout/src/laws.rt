//! Laws of the words, and of the balanced tree over keys that are there at the start. Each is the contract of a function that does nothing.
ghost use Rattle.ell_layout.specs.Balanced.{BranchesAreHalves, TreeIsShallow, DepthsRise, DepthsAreFew, GreatestDepthIsSmall};
ghost use Rattle.ell_layout.specs.Laws.{SameAfterSameWrite, WordsAreListed, AddressesAreInside, AddressesAreApart, FilledListsAreFilled, FilledCardsSay, TablesClaim, ListsAreWritten, WordsAreWritten, NodesAreOnCards};

/// Each field of each card of a table has an address there, after that of the claim word, and no two share an address.
pub fn each_word_has_its_address()
    // Each field has an address in the table, and no two fields share one.
    ensures inside { AddressesAreInside }
    ensures apart { AddressesAreApart }
{}

/// If a list of words has at a field of a card what the machine has there, it still does after the same write to both,
/// at every address, and so after the same fields of a card were written in both. The machine that is made from a list
/// has the list's words. A field of a filled card has what was written to it last, or what it had.
pub fn same_words()
    // A list of words that matches the machine's words still matches them after the same write to both.
    ensures writes { SameAfterSameWrite }
    ensures listed { WordsAreListed }
    // It still matches them after a card is filled in both; each field of the card then has what was written to it
    // last.
    ensures filled { FilledListsAreFilled }
    ensures cards { FilledCardsSay }
    // A table whose next card is filled for an insert or a delete has claimed the card.
    ensures claims { TablesClaim }
{}

/// A write to a list of words, or to the machine's, is read at its own address and leaves all other words and the claim
/// word unchanged. The key, the value, the children and the update word of a node are words of its card.
pub fn writes_are_seen()
    // A write is read at its own address, and changes no other word.
    ensures lists { ListsAreWritten }
    ensures words { WordsAreWritten }
    ensures nodes { NodesAreOnCards }
{}

/// Each card of a balanced tree has a branch of its own, with leaves on both sides; the branches below it are those of the next card
/// and of the card as far behind it as there are leaves on its left, and have half of those leaves each.
pub fn branches_are_halves()
    // Each card of a balanced tree has leaves on both sides, and the branches below it are its halves.
    ensures { BranchesAreHalves }
{}

/// A balanced tree of at most 2 ^ n leaves has no card more than n steps below its root. Each branch is one step deeper
/// than the one above it, and none is deeper than the tree's greatest depth, which is at most n.
pub fn balanced_trees_are_shallow()
    // In a balanced tree of at most 2^n leaves no card is more than n steps below the root.
    ensures shallow { TreeIsShallow }
    // A branch is one step deeper than the one above it.
    ensures deeper { DepthsRise }
    // No card is deeper than the greatest depth of the tree.
    ensures few { DepthsAreFew }
    // The greatest depth of a tree of at most 2^n leaves is at most n.
    ensures small { GreatestDepthIsSmall }
{}
