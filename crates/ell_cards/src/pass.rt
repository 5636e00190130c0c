//! What a thread steps with.
ghost use Rattle.std.specs.Prelude.{◌≡◌, ◌↔◌, IsTrue, false};
ghost use Rattle.std.specs.List.Sorted.{IsStrictlyIncreasing};
ghost use Rattle.ell_cards.specs.Models.{Counts, Owns, PassModel, one_more};
ghost use Rattle.ell_runs.specs.Views.{MayPart, whole_share};
ghost use Rattle.ell_runs.specs.Changes.{ledger_keys};
ghost use Rattle.ell_cards.specs.Epochs.{participant_by};

use crate::memory::{Memory, Seat};
use crate::share::{Share, WHOLE_SHARE};
use ell_runs::Slots;
use std::marker::Model;

/// What a thread steps with on a table: keys of its own, a label, and a count of its steps. If a pass is dropped, its
/// keys are lost: no other pass gets them, and the tree can no longer be closed.
#[derive(Drop)]
pub struct Pass<M: Memory> {
    pub(crate) keys: Vec<u64, M::Alloc>,
    pub(crate) label: u32,
    pub(crate) steps: u64,
    pub(crate) share: Share,
    pub(crate) standing: Standing,
    pub(crate) seat: Seat<M>,
}

/// The announcement that a pass has in a table whose cards come back, whether it announces there that it is pinned, and
/// its safe epoch.
#[derive(Clone, Copy)]
pub(crate) struct Standing {
    pub announcement: Option<u64>,
    pub announces: bool,
    /// The announcement that it found last for a part of it, at first its own: behind it, it looks for the next one. It
    /// may be any number.
    pub found: u64,
    /// Its safe epoch, at first 0.
    pub safe_epoch: u64,
    /// How many numbers that have slots it went by for which it has not looked at all announcements. It may be any
    /// number.
    pub numbers: u64,
}

impl Standing {
    /// Returns where the first pass of a table stands: at the first announcement, if there is one.
    pub(crate) fn first(slots: Option<Slots>) -> Standing
        ensures { result ≡
            record {
              announcement = (participant_by slots).announcement;
              announces = false;
              found = 0;
              safe_epoch = 0;
              numbers = 0;
            } }
    {
        Standing {
            announcement: slots.map(|_| 0),
            announces: false,
            found: 0,
            safe_epoch: 0,
            numbers: 0,
        }
    }

    /// Returns where a part stands that gets this announcement, if there is one, and leaves the number of the
    /// announcement with the pass, so that both look behind it for the next one.
    pub(crate) fn parted(&mut self, announcement: Option<u64>) -> Standing
        ensures own { (self.new.announcement ≡ self.old.announcement) × (self.new.announces ≡ self.old.announces) ×
            (self.new.safe_epoch ≡ self.old.safe_epoch) }
        ensures given { (result.announcement ≡ announcement) × (result.announces ≡ false) × (result.safe_epoch ≡ 0) }
    {
        let found = announcement.unwrap_or(self.found);
        self.found = found;
        Standing {
            announcement,
            announces: false,
            found,
            safe_epoch: 0,
            numbers: 0,
        }
    }
}

/// Returns the count of steps after one more. Once it is the greatest number, it stays there.
#[inline(always)]
pub(crate) fn one_more(steps: u64) -> u64
    ensures { result ≡ one_more steps }
{
    steps.saturating_add(1)
}

impl<M: Memory> Model for Pass<M> {
    ghost use Rattle.ell_cards.specs.Models.{PassModel, memory_of};
    ghost use Rattle.ell_cards.specs.Inside.{IsPass};
    ghost use Rattle.ell_cards.specs.Shown.{shown};

    ghost Value = { PassModel };

    ghost view = { λ p. record {
      table = p.seat.table_id;
      view = shown p.seat.me.0.tree;
      steps = p.steps;
      label = p.label;
      memory = memory_of p.seat.me.0.participant;
      sight = p.seat.me.0.sight;
    } };

    ghost invariant = { IsPass };
}

impl<M: Memory> Pass<M> {
    /// Returns `true` if the pass owns a key.
    pub fn owns(&self, key: u64) -> bool
        // Returns `true` exactly if the pass owns the key.
        ensures { IsTrue result ↔ Owns self.now key }
    {
        self.keys.binary_search(&key).is_ok()
    }

    /// Returns the keys that the pass owns, strictly ascending.
    pub fn keys(&self) -> &[u64]
        // Returns the keys of the pass, strictly ascending.
        ensures keys { result.now ≡ ledger_keys self.now.view.worker.ledger }
        ensures ascending { IsStrictlyIncreasing result.now }
    {
        self.keys.as_slice()
    }

    /// Returns `true` if it is the only pass of its table that has a share: together, all passes of a table have the
    /// whole.
    pub fn has_whole_share(&self) -> bool
        // Returns `true` exactly if the pass has the whole share.
        ensures { IsTrue result ↔ (self.now.view.share ≡ whole_share) }
    {
        self.share.units == WHOLE_SHARE
    }

    /// Returns `true` if the pass may be parted. If some keys of its table are shared, each part gets a share, so a
    /// pass that has no more than the least one may not be parted.
    pub fn may_part(&self) -> bool
        // Returns `true` exactly if the pass may be split.
        ensures { IsTrue result ↔ MayPart self.now.view }
    {
        self.share.may_part()
    }

    /// Returns the label, which a gate is told. It is 0 until another is set.
    pub fn label(&self) -> u32
        // Returns the label.
        ensures { result ≡ self.now.label }
    {
        self.label
    }

    /// Sets the label.
    pub fn relabel(&mut self, label: u32)
        // The pass has this label, and is otherwise unchanged.
        ensures { self.new ≡ record (self.old) { label = label } }
    {
        self.label = label;
    }

    /// Counts steps that were made and not counted: those of a search, which counts them once it has ended. Once the
    /// count is the greatest `u64`, it stays there.
    #[inline(always)]
    pub fn count(&mut self, steps: u64)
        // The pass counts this many more steps, and is otherwise unchanged.
        ensures { Counts self.old self.new steps }
    {
        self.steps = self.steps.saturating_add(steps);
    }

    /// Returns how many atomic steps were made through the pass and counted. Once the count is the greatest `u64`, it
    /// stays there.
    pub fn steps(&self) -> u64
        // Returns how many steps the pass counts in a row.
        ensures { result ≡ self.now.steps }
    {
        self.steps
    }
}
