//! Why a call has no answer.
ghost use Rattle.std.specs.Prelude.{◌≡◌};
ghost use Rattle.elltree.specs.Refusals.{of_fault, of_not_done, of_split};
ghost use Rattle.elltree.specs.declared.refusal.Refusal.TheVariants.{NoMemory as no_memory};

use ell_tree::{CardFault, NotDone, SplitFault};
use std::alloc::{AllocError, AllocFailed};

/// Why a call has no answer. The map is as it was before.
#[derive(Clone, Copy)]
pub enum Refusal {
    /// The call allows no try.
    NoTries,
    /// A key is above `KEY_MAX`.
    BadKey,
    /// Something was in the way of each try, or another handle changed the key first.
    Busy,
    /// All cards of the tree are given out; `cards_left` returns how many are left. Or, in a tree whose cards come
    /// back, no slot could be taken (`open_reusing`); the call may be made again.
    Spent,
    /// The number of cards is not 1 to 1,000,000.
    BadCards,
    /// The start keys do not strictly ascend, or there are more than `START_MAX`.
    BadStart,
    /// The handle has the least share of its tree, which cannot be split. Or its tree is one whose cards come back, and
    /// has as many handles as asked for.
    TooManyHandles,
    /// An allocation failed.
    NoMemory,
}

impl From<AllocError> for Refusal {
    ghost from_gives = { λ _ why. why ≡ no_memory };

    fn from(_: AllocError) -> Refusal {
        Refusal::NoMemory
    }
}

impl<T: Drop> From<AllocFailed<T>> for Refusal {
    ghost from_gives = { λ _ why. why ≡ no_memory };

    fn from(_: AllocFailed<T>) -> Refusal {
        Refusal::NoMemory
    }
}

impl From<CardFault> for Refusal {
    ghost from_gives = { λ fault why. why ≡ of_fault fault };

    fn from(fault: CardFault) -> Refusal {
        match fault {
            CardFault::BadCards => Refusal::BadCards,
            CardFault::NoMemory => Refusal::NoMemory,
        }
    }
}

impl From<SplitFault> for Refusal {
    ghost from_gives = { λ fault why. why ≡ of_split fault };

    fn from(fault: SplitFault) -> Refusal {
        match fault {
            SplitFault::TooManyPasses => Refusal::TooManyHandles,
            SplitFault::NoMemory => Refusal::NoMemory,
        }
    }
}

impl From<NotDone> for Refusal {
    ghost from_gives = { λ not_done why. why ≡ of_not_done not_done };

    fn from(not_done: NotDone) -> Refusal {
        match not_done {
            NotDone::Busy => Refusal::Busy,
            NotDone::Spent => Refusal::Spent,
        }
    }
}
