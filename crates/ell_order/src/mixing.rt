//! Numbers scrambled.
ghost use Rattle.std.specs.Prelude.{◌≡◌};
ghost use Rattle.ell_order.specs.Mixing.{folded, mixed};

// The factors of the finalizer, which are odd.
const FIRST_FACTOR: u64 = 0xff51_afd7_ed55_8ccd;

const SECOND_FACTOR: u64 = 0xc4ce_b9fe_1a85_ec53;

/// Returns a number scrambled by the finalizer of MurmurHash3 (Austin Appleby's `fmix64`): numbers that rise by a fixed
/// step are mixed to numbers that look random, and different numbers to different ones.
pub fn mixed(number: u64) -> u64
    // Returns the number scrambled by the finalizer of MurmurHash3.
    ensures { result ≡ mixed number }
{
    let once = folded(number).wrapping_mul(FIRST_FACTOR);
    let twice = folded(once).wrapping_mul(SECOND_FACTOR);
    folded(twice)
}

// A number with its upper 31 bits xored into its lower ones.
fn folded(number: u64) -> u64
    ensures { result ≡ folded number }
{
    number ^ (number >> 33)
}
