//! What a pass may know of all that was done with its table.
ghost use Rattle.std.specs.Prelude.{◌≡◌, ℕ};
ghost use Rattle.ell_runs.specs.declared.call.Call.TheVariants as call;
ghost use Rattle.ell_cards.specs.Models.{SeesOn};
ghost use Rattle.ell_runs.specs.Calls.{after};
ghost use Rattle.ell_runs.specs.Seeing.{HasSeenAll, HasSeenMore};

use crate::memory::Memory;
use crate::pass::Pass;
use crate::table::CardTable;
use std::marker::Brand;

impl<M: Memory> CardTable<M> {
    /// Reads the claim word, and does nothing else, so that the pass has seen all that was done with the table up to now,
    /// by whichever passes: its one history, which is linearizable, and which has the calls that the pass was answered.
    /// The step is not counted.
    pub fn story(&self, pass: &mut Pass<M>)
        requires own { pass.old.table ≡ self.now.id }
        // The pass has seen all of the table's history, and has the calls that it had. The history is linearizable; the
        // calls that the pass was answered, it and the passes that were joined to it, are calls of it, and no two are
        // one; and the order has no others if keys are shared, and the pass has the whole share and nothing in hand.
        ensures all { HasSeenAll self.now.plan pass.new.view pass.new.sight }
        ensures more { HasSeenMore pass.old.sight pass.new.sight }
        ensures begun { pass.new.sight.begun ≡ pass.old.sight.begun }
        // It loads the claim word.
        ensures step { (n : ℕ) × SeesOn pass.old pass.new (after call.Next n pass.old.view) }
    {
        self.load_all_as::<Brand>(pass);
    }
}
