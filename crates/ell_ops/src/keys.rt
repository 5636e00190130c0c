//! Lists of keys as sets.
ghost use Rattle.std.specs.Prelude.{IfOk};
ghost use Rattle.std.specs.List.Sorted.{IsStrictlyIncreasing};
ghost use Rattle.ell_ops.specs.KeySet.{set_of, union, Lists};

use crate::keyed::united;
use std::alloc::{AllocError, Allocator};

/// Returns the keys of a list, each once, ascending. It allocates nothing.
pub fn distinct_keys<A: Allocator>(mut keys: Vec<u64, A>) -> Vec<u64, A>
    // The result has each key of the list once, strictly ascending.
    ensures { Lists (set_of keys.items) result.items }
{
    keys.sort_unstable();
    keys.dedup();
    keys
}

/// Returns the keys of two ascending lists, each once, ascending. Conditions: each list is strictly ascending.
pub fn united_keys<A: Allocator>(
    alloc: A,
    left: &[u64],
    right: &[u64],
) -> Result<Vec<u64, A>, AllocError>
    requires left { IsStrictlyIncreasing left.now }
    requires right { IsStrictlyIncreasing right.now }
    // The result has each key of either list once, strictly ascending.
    ensures { IfOk result (λ both. Lists (union (set_of left.now) (set_of right.now)) both.items) }
{
    united(alloc, left, right)
}
