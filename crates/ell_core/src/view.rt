//! A worker as contracts see it.
ghost use Rattle.std.specs.Prelude.{◌≡◌};
ghost use Rattle.ell_core.specs.state.Machine.{entry_of};

use crate::fact::Fact;
use ell_ops::Op;
use std::collections::LinkedList;

/// An internal node with the update word that was read there, and the tag of the child word that was read after it.
#[derive(Clone, Copy)]
pub struct Seen {
    pub node: u64,
    pub word: u64,
    pub tag: u64,
}

/// Where a worker's search stands.
#[derive(Clone, Copy)]
pub struct Search {
    /// The node where it stands, or `None` if it stands nowhere.
    pub node: Option<u64>,
    /// The update word that it has read there.
    pub read: Option<u64>,
    /// The node before, with what was read there.
    pub parent: Option<Seen>,
    /// The node before that, with what was read there.
    pub grandparent: Option<Seen>,
}

/// What a ledger says of a key that it has.
#[derive(Clone, Copy)]
pub enum Entry {
    /// The key is absent.
    Absent,
    /// The key is present, with this value.
    Present(u64),
}

impl Entry {
    /// Returns `Present` with the value, if there is one, else `Absent`.
    pub fn of(value: Option<u64>) -> Entry
        ensures { result ≡ entry_of value }
    {
        value.map_or(Entry::Absent, Entry::Present)
    }
}

/// What a worker has and knows, as contracts see it: the machine keeps a worker's ledger, the shared keys and its
/// knowledge as functions, and a view keeps them as lists. No value of this type is made.
#[derive(Drop)]
pub struct WorkerOf<L, S, K> {
    /// Which keys it owns, and what is said of each.
    pub ledger: L,
    /// Which keys are shared.
    pub shared: S,
    /// The operation in hand.
    pub operation: Option<Op>,
    pub search: Search,
    /// The card in hand.
    pub card: Option<u64>,
    /// Whether the card in hand has won its flag.
    pub flagged: bool,
    /// Which facts it knows.
    pub knows: K,
}

/// A worker of lists: its keys, strictly ascending, and what is said of each; the keys that may have an owner, if every
/// other key is shared, or nothing, if no key is; and the facts that it knows.
pub type WorkerView = WorkerOf<LinkedList<(u64, Entry)>, Option<LinkedList<u64>>, LinkedList<Fact>>;
