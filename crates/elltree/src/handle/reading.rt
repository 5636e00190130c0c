//! What is read through a handle.
ghost use Rattle.std.specs.Prelude.{◌≡◌, ◌≤◌};
ghost use Rattle.elltree.specs.Calls.{Finds, LooksUp, ReadsCards, Scans, SeeksLast, SeeksNext};

use crate::handle::Handle;
use ell_tree::{KEY_MAX, NoGate, Pair, Scanned};

impl Handle {
    /// Returns the value of a key, if the key is present. No key above `KEY_MAX` is.
    pub fn find(&mut self, key: u64) -> Option<u64>
        // The answer is that of the tree's `find`, which nothing is in the way of, and which takes no card. It is the
        // handle's last call in the tree's history, and began behind all that the handle had seen of that; a key above
        // the greatest one adds no call.
        ensures { Finds key self.old self.new result }
    {
        if key > KEY_MAX {
            return None;
        }
        self.tree.find(&mut self.pass, key, &NoGate)
    }

    /// Returns the value of a key, if the key is present: the value that it had in one state of the tree between the
    /// first step of the look and its last. It waits for no other call. No key above `KEY_MAX` is present.
    pub fn look(&mut self, key: u64) -> Option<u64>
        // The answer is that of the tree's `look`: what the tree had for the key in one state since the look began.
        // Each key up to the greatest of which it tells has a place in one order of the calls that the handle has seen
        // by then.
        ensures { LooksUp key self.old self.new result }
    {
        if key > KEY_MAX {
            return None;
        }
        let there = self.tree.look(&mut self.pass, key, &NoGate);
        self.tree.end_looks(&mut self.pass, &NoGate);
        there
    }

    /// Writes the pairs of the keys that are at least `from` and below `upto`, in strictly ascending order, into `room`,
    /// as far as there is room. Returns how many pairs it has written, and, if there may be more, the key at which to
    /// continue. The rest of `room` is left as it is. No key is above `KEY_MAX`, so an `upto` above `KEY_MAX + 1` means
    /// `KEY_MAX + 1`, and a range that ends where it begins, or before, has no keys.
    pub fn scan(&mut self, from: u64, upto: u64, room: &mut [Pair]) -> Scanned
        // Each key of the range, as far as the scan got, is answered as by a look at it. Each key up to the greatest
        // of which it tells has a place in one order of the calls that the handle has seen by then.
        ensures { Scans from upto room.old room.new self.old self.new result }
    {
        let end = upto.min(KEY_MAX + 1);
        let scanned = self.tree.scan(&mut self.pass, from, end, room, &NoGate);
        self.tree.end_looks(&mut self.pass, &NoGate);
        scanned
    }

    /// Returns the least present key that is at least `key`, with its value: it was present in one state of the tree
    /// during the call, and each key before it was absent in one. Returns `None` for a key above `KEY_MAX`.
    pub fn next_at_least(&mut self, key: u64) -> Option<(u64, u64)>
        // The answer is that of the tree's call. No key above the greatest one is present. Each key up to the greatest
        // of which it tells has a place in one order of the calls that the handle has seen by then.
        ensures { SeeksNext key self.old self.new result }
    {
        if key > KEY_MAX {
            return None;
        }
        let there = self.tree.next_at_least(&mut self.pass, key, &NoGate);
        self.tree.end_looks(&mut self.pass, &NoGate);
        there
    }

    /// Returns the greatest present key that is at most `key`, with its value: it was present in one state of the tree
    /// during the call, and each key after it was absent in one.
    pub fn last_at_most(&mut self, key: u64) -> Option<(u64, u64)>
        // The answer is that of the tree's call. No key above the greatest one is present. Each key up to the greatest
        // of which it tells has a place in one order of the calls that the handle has seen by then.
        ensures { SeeksLast key self.old self.new result }
    {
        let there = self
            .tree
            .last_at_most(&mut self.pass, key.min(KEY_MAX), &NoGate);
        self.tree.end_looks(&mut self.pass, &NoGate);
        there
    }

    /// Returns how many cards of the tree are not given out yet, 0 if all are: the number at one step of the call,
    /// while other handles went on. No more than that are ever left in this tree afterwards. A tree whose cards come
    /// back has a card for each of 2^62 numbers, however few slots it has, and these are counted.
    pub fn cards_left(&mut self) -> u64
        // Returns how many cards were not given out at its one step.
        ensures { ReadsCards self.old self.new result }
    {
        self.tree.cards_left(&mut self.pass, &NoGate)
    }

    /// Returns how many atomic steps were made in a row through the handle, and through those that it came from.
    pub fn steps(&self) -> u64
        // Returns how many steps the handle counts in a row.
        ensures { result ≡ self.now.pass.steps }
    {
        self.pass.steps()
    }
}
