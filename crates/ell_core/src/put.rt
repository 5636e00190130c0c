//! What an insert or a swap puts into the tree.
ghost use Rattle.std.specs.Prelude.{◌≡◌, ◌↔◌, IsTrue};
ghost use Rattle.ell_core.specs.acts.Searching.{put_of, TakesPut};

use ell_ops::Op;

/// What an insert or a swap puts into the tree: a key with its value, in place of what stood there for this key.
#[derive(Clone, Copy, Debug, PartialEq, Eq)]
pub struct Put {
    pub key: u64,
    pub value: u64,
    /// The value that the key must have, or `None` if it must be absent.
    pub was: Option<u64>,
}

impl Put {
    /// Returns what an operation puts into the tree, or `None` if it only finds or deletes.
    pub fn of(op: Op) -> Option<Put>
        // Returns what an insert or a swap puts into the tree, or nothing for another operation.
        ensures { result ≡ put_of op }
    {
        match op {
            Op::Insert(key, value) => Some(Put {
                key,
                value,
                was: None,
            }),
            Op::Swap(key, was, value) => Some(Put {
                key,
                value,
                was: Some(was),
            }),
            Op::Find(_) | Op::Delete(_) => None,
        }
    }

    /// Returns `true` if it may be put where a search has ended at a leaf with this key and this value: at a leaf of
    /// another key, or, for a swap, at a leaf of its key that has the value.
    pub fn may_replace(&self, leaf_key: u64, leaf_value: u64) -> bool
        // Returns `true` exactly if it may be put at a leaf with this key and this value.
        ensures { IsTrue result ↔ TakesPut self.now leaf_key leaf_value }
    {
        match self.was {
            None => leaf_key != self.key,
            Some(was) => leaf_key == self.key && leaf_value == was,
        }
    }
}
