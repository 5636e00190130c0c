//! The distinct keys of operations, ascending.
ghost use Rattle.std.specs.Prelude.{IfOk};
ghost use Rattle.ell_ops.specs.KeySet.{Lists};
ghost use Rattle.ell_parts.specs.PartedOps.{keys_of_ops};

use ell_ops::{Op, distinct_keys};
use std::alloc::{AllocError, Allocator};

// The distinct keys of a list.
pub(crate) fn keys_of_list<A: Allocator>(alloc: A, ops: &[Op]) -> Result<Vec<u64, A>, AllocError>
    ensures { IfOk result (λ keys. Lists (keys_of_ops ops.now) keys.items) }
{
    let keys = ops.iter().map(|op| op.key()).collect(alloc)?;
    Ok(distinct_keys(keys))
}
