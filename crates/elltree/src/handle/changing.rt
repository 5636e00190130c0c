//! What is changed through a handle.
ghost use Rattle.elltree.specs.Calls.{Adds, Deletes, Inserts, MayTry, Outcome, Puts, Removes, Swaps, Takes, TryRefuses};
ghost use Rattle.std.specs.Prelude.{IfErr, OnOk};

use crate::handle::Handle;
use crate::refusal::Refusal;
use ell_tree::{KEY_MAX, NoGate};

impl Handle {
    /// Adds a key with its value. Returns whether the key was absent. A key that is present keeps its value. Returns
    /// `NoTries` if no try is allowed, then `BadKey` if the key is above `KEY_MAX`; `Busy` if something was in the way
    /// of each try, and `Spent` if all cards are given out or, in a tree whose cards come back, if no slot could be
    /// taken (`open_reusing`). An insert that adds its key takes a card, and at most one more for each try that
    /// something hindered; any other takes at most one for each of those.
    pub fn insert(&mut self, key: u64, value: u64, tries: u32) -> Result<bool, Refusal>
        // The outcome is that of the tree's `insert`. An answered call is the handle's last one in the tree's history,
        // and began behind all that the handle had seen of that; any other adds none.
        ensures { Outcome key tries (Inserts key value tries) self.old self.new result }
    {
        may_try(key, tries)?;
        Ok(
            self.tree
                .insert(&mut self.pass, key, value, tries, &NoGate)?,
        )
    }

    /// Deletes a key with its value. Returns whether the key was present. Refusals and cards are as for `insert`.
    pub fn delete(&mut self, key: u64, tries: u32) -> Result<bool, Refusal>
        // The outcome is that of the tree's `delete`. An answered call is the handle's last one in the tree's history,
        // and began behind all that the handle had seen of that; any other adds none.
        ensures { Outcome key tries (Deletes key tries) self.old self.new result }
    {
        may_try(key, tries)?;
        Ok(self.tree.delete(&mut self.pass, key, tries, &NoGate)?)
    }

    /// Deletes a key, and returns the value that it took, if the key was present. No other call took that value.
    /// Refusals and cards are as for `insert`.
    pub fn take(&mut self, key: u64, tries: u32) -> Result<Option<u64>, Refusal>
        // The outcome is that of the tree's `take`. An answered call is the handle's last one in the tree's history,
        // in which it took what it tells, and began behind all that the handle had seen of that; any other adds
        // none.
        ensures { Outcome key tries (Takes key tries) self.old self.new result }
    {
        may_try(key, tries)?;
        Ok(self.tree.take(&mut self.pass, key, tries, &NoGate)?)
    }

    /// Stores `new` as the value of a key if its value is `current`, in one atomic step. Returns the value that the key
    /// had, if it was present, so it was exchanged exactly if that is `current`. Refusals and cards are as for `insert`.
    pub fn compare_exchange(
        &mut self,
        key: u64,
        current: u64,
        new: u64,
        tries: u32,
    ) -> Result<Option<u64>, Refusal>
        // The outcome is that of the tree's `swap`. An answered call is the handle's last one in the tree's history,
        // and began behind all that the handle had seen of that; any other adds none.
        ensures { Outcome key tries (Swaps key current new tries) self.old self.new result }
    {
        may_try(key, tries)?;
        Ok(
            self.tree
                .swap(&mut self.pass, key, current, new, tries, &NoGate)?,
        )
    }

    /// Removes a key if its value is `current`, in one atomic step. Returns the value that the key had, if it was
    /// present, so it was removed exactly if that is `current`. Refusals and cards are as for `put`.
    pub fn remove_if(&mut self, key: u64, current: u64, tries: u32) -> Result<Option<u64>, Refusal>
        // The outcome is that of the tree's `remove_if`. Its operations are the handle's last calls in the tree's
        // history, and each began behind all that the handle had seen of that before; only the last one of an answered
        // call may have changed anything.
        ensures { Outcome key tries (Removes key current tries) self.old self.new result }
    {
        may_try(key, tries)?;
        Ok(
            self.tree
                .remove_if(&mut self.pass, key, current, tries, &NoGate)?,
        )
    }

    /// Stores a value of a key, whether the key was present or not, in one atomic step. Returns the value that it had,
    /// if it was present. `NoTries` and `BadKey` are as for `insert`. A try fails if something was in its way, or if
    /// another handle has changed the key since it was read. Returns `Busy` if all tries fail this way, and `Spent` if a
    /// try finds no card, as for `insert`. A put takes a card, and at most one more for each try that something
    /// hindered.
    pub fn put(&mut self, key: u64, value: u64, tries: u32) -> Result<Option<u64>, Refusal>
        // The outcome is that of the tree's `put`. Its operations are the handle's last calls in the tree's history,
        // and each began behind all that the handle had seen of that before; only the last one of an answered call may
        // have changed anything.
        ensures { Outcome key tries (Puts key value tries) self.old self.new result }
    {
        may_try(key, tries)?;
        Ok(self.tree.put(&mut self.pass, key, value, tries, &NoGate)?)
    }

    /// Adds to the value of a key in one atomic step, and returns the value that it had. A sum above `u64::MAX` wraps
    /// around. A key that is absent stays absent. Refusals and cards are as for `put`.
    pub fn fetch_add(&mut self, key: u64, addend: u64, tries: u32) -> Result<Option<u64>, Refusal>
        // The outcome is that of the tree's `fetch_add`. Its operations are the handle's last calls in the tree's
        // history, and each began behind all that the handle had seen of that before; only the last one of an answered
        // call may have changed anything.
        ensures { Outcome key tries (Adds key addend tries) self.old self.new result }
    {
        may_try(key, tries)?;
        Ok(
            self.tree
                .fetch_add(&mut self.pass, key, addend, tries, &NoGate)?,
        )
    }
}

// Whether a key may be changed in so many tries.
fn may_try(key: u64, tries: u32) -> Result<(), Refusal>
    ensures may { OnOk result (MayTry key tries) }
    ensures why { IfErr result (TryRefuses key tries) }
{
    if tries == 0 {
        return Err(Refusal::NoTries);
    }
    if key > KEY_MAX {
        return Err(Refusal::BadKey);
    }
    Ok(())
}
