//! The limit that all crates share.
ghost use Rattle.std.specs.Prelude.{◌≡◌};
ghost use Rattle.ell_ops.specs.Meaning.{greatest_key, most_workers};

use crate::op::KEY_MAX;

/// The greatest number of workers.
pub const WORKERS_MAX: u32 = 64;

/// The limits are the numbers that the definitions have: `WORKERS_MAX` is 64, and `KEY_MAX` is 2^64 - 3.
pub fn limits_are_as_defined()
    // `WORKERS_MAX` is 64.
    ensures workers { WORKERS_MAX ≡ most_workers }
    // `KEY_MAX` is 2^64 - 3.
    ensures keys { KEY_MAX ≡ greatest_key }
{}
