//! Why workers do not finish, and faults of calls whose only possible fault is a failed allocation.
ghost use Rattle.std.specs.Prelude.{◌≡◌};
ghost use Rattle.ell_run.specs.WorkFault.{of_split};
ghost use Rattle.ell_run.specs.declared.faults.WorkFault.TheVariants.{NoMemory as no_memory};

use ell_ops::NoMemory;
use ell_tree::SplitFault;
use thiserror::Error;

/// Why workers do not finish.
#[derive(Debug, Clone, Copy, PartialEq, Eq, Error)]
pub enum WorkFault {
    /// Some keys of the tree are shared, and a pass can no longer be split: its share is too small.
    #[error("too many passes")]
    TooManyPasses,
    /// An allocation failed.
    #[error("out of memory")]
    NoMemory,
}

impl From<SplitFault> for WorkFault {
    ghost from_gives = { λ fault e. e ≡ of_split fault };

    fn from(fault: SplitFault) -> WorkFault {
        match fault {
            SplitFault::TooManyPasses => WorkFault::TooManyPasses,
            SplitFault::NoMemory => WorkFault::NoMemory,
        }
    }
}

impl From<NoMemory> for WorkFault {
    ghost from_gives = { λ _ e. e ≡ no_memory };

    fn from(_: NoMemory) -> WorkFault {
        WorkFault::NoMemory
    }
}

// `NoMemory`, if the fault of a call is `memory`, the only one that it can have.
pub(crate) fn only_memory<F: Copy>(fault: F, memory: F) -> NoMemory
    requires { fault ≡ memory }
{
    let _ = (fault, memory);
    NoMemory
}
