//! The step calls as data, so that a law can speak of all of them.
use crate::glance::{Glance, Stretch};
use ell_layout::Field;
use ell_ops::{Op, Reply};
use ell_word::{Link, Update};

/// What the internal node of an insert's or a swap's card is to be.
#[derive(Clone, Copy)]
pub struct NewNode {
    /// Its key.
    pub key: u64,
    /// Whether the tree is flat: then the node above which an insert goes is a child of it.
    pub flat: bool,
}

/// A step call of a pass, with its arguments. Each is one atomic step.
#[derive(Clone, Copy)]
pub enum Call {
    /// Takes an operation in hand.
    Begin(Op),
    /// Starts the search anew.
    Again,
    /// Gives the operation up.
    Leave,
    /// Answers the operation, by a reply and, if it is a delete that took a value, by that.
    Answer(Reply, Option<u64>),
    /// Reads the update word of a node.
    Upd(u64),
    /// Goes down from a node, to the right child or to the left one.
    Down(u64, bool),
    /// Reads the claim word.
    Next,
    /// Reads the key of a node.
    KeyOf(u64),
    /// Reads the value of a leaf.
    ValueOf(u64),
    /// Reads a word of a card.
    Info(u64, Field),
    /// Reads a child, the right one or the left one, of the parent of a card: card, parent, side.
    FrozenChild(u64, u64, bool),
    /// Begins a look: reads the root's left child.
    Look,
    /// Goes down in a look from a node to which it has come, by these keys, to the right child or to the left one.
    LookDown(Glance, Stretch, bool),
    /// Ends a look.
    Rest,
    /// Takes a card, and discards one in hand: card, what its node is to be if it is an insert's or a swap's.
    Claim(u64, NewNode),
    /// Stores a word of a card.
    Fill(u64, Field, u64),
    /// Flags the parent for an insert: card, parent, the update that was read there.
    IFlag(u64, u64, Update),
    /// Exchanges a child word for an insert, which adds a leaf or replaces one: card, parent, the node below it with the
    /// tag that is expected, whether the card replaces a leaf, side.
    IChild(u64, u64, Link, bool, bool),
    /// Takes an insert's flag away: card, parent.
    IUnflag(u64, u64),
    /// Flags the grandparent for a delete: card, grandparent, the update that was read there.
    DFlag(u64, u64, Update),
    /// Marks the parent of a delete: card, parent, the word that its search read there.
    Mark(u64, u64, u64),
    /// Exchanges a child word for a delete: card, grandparent, the parent with the tag that is expected, sibling, side.
    DChild(u64, u64, Link, u64, bool),
    /// Takes a delete's flag away after its child exchange: card, grandparent.
    DUnflag(u64, u64),
    /// Takes a delete's flag away after its lost mark: card, grandparent.
    Backtrack(u64, u64),
}
