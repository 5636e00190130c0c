//! Why a list of operations is not parted.
ghost use Rattle.std.specs.Prelude.{◌≡◌};

use ell_ops::{NoMemory, WORKERS_MAX};
use std::alloc::{AllocError, AllocFailed};
use thiserror::Error;

/// Why a list of operations was not parted. The faults are tested in this order, but `NoMemory` comes after the first
/// three and may be returned in place of `KeySplit`.
#[derive(Clone, Copy, Debug, PartialEq, Eq, Error)]
pub enum PartFault {
    /// The number of workers is not 1 to `WORKERS_MAX`.
    #[error("workers are not 1 to {max}", max = WORKERS_MAX)]
    BadWorkers,
    /// The list of owners is not as long as that of the operations.
    #[error("not one owner for each operation")]
    OwnerCount,
    /// The first owner that is not one of the workers stands at this position.
    #[error("position {at}: no such worker")]
    StrangerOwner { at: usize },
    /// The least position whose key has another owner at an earlier position is `second`, and the key stands first at
    /// `first`.
    #[error("positions {first} and {second}: one key with two workers")]
    KeySplit { first: usize, second: usize },
    /// An allocation for the parts failed.
    #[error("out of memory")]
    NoMemory,
}

impl From<AllocError> for PartFault {
    ghost use Rattle.ell_parts.specs.declared.fault.PartFault.TheVariants.{NoMemory};

    ghost from_gives = { λ _ fault. fault ≡ NoMemory };

    fn from(_: AllocError) -> PartFault {
        PartFault::NoMemory
    }
}

impl<T: Drop> From<AllocFailed<T>> for PartFault {
    ghost use Rattle.ell_parts.specs.declared.fault.PartFault.TheVariants.{NoMemory};

    ghost from_gives = { λ _ fault. fault ≡ NoMemory };

    fn from(_: AllocFailed<T>) -> PartFault {
        PartFault::NoMemory
    }
}

impl From<NoMemory> for PartFault {
    ghost use Rattle.ell_parts.specs.declared.fault.PartFault.TheVariants.{NoMemory as no_memory};

    ghost from_gives = { λ _ fault. fault ≡ no_memory };

    fn from(_: NoMemory) -> PartFault {
        PartFault::NoMemory
    }
}
