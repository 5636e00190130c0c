//! Why a table is not made.
ghost use Rattle.std.specs.Prelude.{◌≡◌};

use ell_word::CARDS_MAX;
use std::alloc::AllocError;
use thiserror::Error;

/// Why a table is not made. The refusals are tested in this order.
#[derive(Clone, Copy, Debug, PartialEq, Eq, Error)]
pub enum CardFault {
    /// The cards are not 1 to `CARDS_MAX`.
    #[error("cards are not 1 to {max}", max = CARDS_MAX)]
    BadCards,
    /// An allocation failed.
    #[error("out of memory")]
    NoMemory,
}

impl From<AllocError> for CardFault {
    ghost use Rattle.ell_cards.specs.declared.fault.CardFault.TheVariants as fault;

    ghost from_gives = { λ _ r. r ≡ fault.NoMemory };

    fn from(_: AllocError) -> CardFault {
        CardFault::NoMemory
    }
}

/// Why a pass is not parted. The refusals are tested in this order.
#[derive(Clone, Copy, Debug, PartialEq, Eq, Error)]
pub enum SplitFault {
    /// Some keys are shared, and the pass has no more than the least share of its table: it was parted too often.
    #[error("too many passes")]
    TooManyPasses,
    /// An allocation failed.
    #[error("out of memory")]
    NoMemory,
}

impl From<AllocError> for SplitFault {
    ghost use Rattle.ell_cards.specs.declared.fault.SplitFault.TheVariants as fault;

    ghost from_gives = { λ _ r. r ≡ fault.NoMemory };

    fn from(_: AllocError) -> SplitFault {
        SplitFault::NoMemory
    }
}
