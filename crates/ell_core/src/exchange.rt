//! The exchanges by which cards are given out and the tree is changed.

/// An exchange of one word for a card: the claim, which takes the card, and the eight steps of the paper's Figures 7 to 9.
#[derive(Clone, Copy, Debug, PartialEq, Eq)]
pub enum Exchange {
    /// Takes the next card.
    Claim,
    /// Flags a parent for an insert.
    IFlag,
    /// Changes a child for an insert.
    IChild,
    /// Takes an insert's flag away.
    IUnflag,
    /// Flags a grandparent for a delete.
    DFlag,
    /// Marks a parent for a delete.
    Mark,
    /// Changes a child for a delete.
    DChild,
    /// Takes a delete's flag away after its child change.
    DUnflag,
    /// Takes a delete's flag away after a lost mark.
    Backtrack,
}
