//! Laws of a list that is applied part by part. Each is the contract of a function that does nothing.
ghost use Rattle.std.specs.Prelude.{◌≡◌};
ghost use Rattle.ell_run.specs.ByParts.{PartsServe};
ghost use Rattle.ell_run.specs.Settings.{most_tries};

use crate::settings::TRIES_MAX;

/// Parts serve: if each worker of a lawful parting has done a prefix of its part, whatever came in between, and the
/// rest is applied afterwards, each worker's in its order, then the replies and the final map are those of one thread
/// over the whole list.
pub fn by_parts()
    // If a prefix of each worker's part is done, in any interleaving, and then the rest by one thread, all replies and
    // the last map are as of one thread that does the whole list.
    ensures { PartsServe }
{}

/// The limit is the number that the definitions have: `TRIES_MAX` is 1,000,000.
pub fn limits_are_as_defined()
    // `TRIES_MAX` is 1,000,000.
    ensures tries { TRIES_MAX ≡ most_tries }
{}
