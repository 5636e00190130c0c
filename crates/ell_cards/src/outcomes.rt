//! What the exchange of an update word answers.
ghost use Rattle.std.specs.Prelude.{◌≡◌};
ghost use Rattle.ell_runs.specs.Changes.{update_outcome};

use ell_word::{Update, unpack};

/// Returns what the exchange of an update word answers: the error is the update that was found, if it was not the
/// expected one.
#[inline(always)]
pub(crate) fn update_outcome(expected: u64, found: u64) -> Result<(), Update>
    ensures { result ≡ update_outcome expected found }
{
    if found == expected {
        Ok(())
    } else {
        Err(unpack(found))
    }
}
