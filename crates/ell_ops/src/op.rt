//! One operation on keys with their values.
ghost use Rattle.std.specs.Prelude.{◌≡◌, ◌↔◌, IsTrue};

/// The greatest key, 2^64 - 3: the two numbers above it that 64 bits hold mark the ends of the tree.
pub const KEY_MAX: u64 = 18_446_744_073_709_551_613;

/// One operation on a map from keys to values.
#[derive(Clone, Copy, Debug, PartialEq, Eq)]
pub enum Op {
    /// Asks for the key's value, if the key is present.
    Find(u64),
    /// Adds the key with its value, and asks whether it was absent. A key that is present keeps its value.
    Insert(u64, u64),
    /// Removes the key, and asks whether it was present.
    Delete(u64),
    /// Asks for the key's value, if the key is present. If it is the first of the two values, it becomes the second.
    Swap(u64, u64, u64),
}

impl Op {
    ghost use Rattle.ell_ops.specs.Meaning.{key_of, Fits};

    /// Returns the key that the operation is on.
    pub fn key(&self) -> u64
        // Returns the operation's key.
        ensures { result ≡ key_of self.now }
    {
        match *self {
            Op::Find(key) | Op::Insert(key, _) | Op::Delete(key) | Op::Swap(key, _, _) => key,
        }
    }

    /// Returns `true` if the key is at most [`KEY_MAX`].
    pub fn fits(&self) -> bool
        // Returns `true` exactly if the operation's key is at most 2^64 - 3.
        ensures { IsTrue result ↔ Fits self.now }
    {
        self.key() <= KEY_MAX
    }
}
