//! The share that a pass has of its table.
ghost use Rattle.std.specs.Prelude.{◌≡◌, ◌≤◌, ◌+◌, ◌-◌, ◌%◌, ◌^◌, ◌||◌, ◌↔◌, IsTrue, true};
ghost use Rattle.ell_runs.specs.Views.{whole_share, given_share};

/// The whole share of a table, 2 ^ 62, which its first pass has.
pub const WHOLE_SHARE: u64 = 4611686018427387904;

/// A share of a table, and whether it counts: if some keys are shared, there is no pass without a share.
#[derive(Clone, Copy)]
pub(crate) struct Share {
    pub units: u64,
    pub counts: bool,
}

impl Share {
    /// Returns `true` if a pass with this share may be parted.
    pub(crate) fn may_part(self) -> bool
        ensures { IsTrue result ↔ ((self.counts ≡ true) → 2 ≤ self.units) }
    {
        !self.counts || self.units >= 2
    }

    /// Returns what a split leaves, and what it gives away.
    pub(crate) fn parted(self) -> (Share, Share)
        ensures left { result.0 ≡ record { units = self.units - given_share self.units; counts = self.counts } }
        ensures right { result.1 ≡ record { units = given_share self.units; counts = self.counts } }
    {
        let given = given_share(self.units);
        let left = Share {
            units: self.units - given,
            counts: self.counts,
        };
        let right = Share {
            units: given,
            counts: self.counts,
        };
        (left, right)
    }

    /// Returns two shares as one.
    pub(crate) fn joined(self, other: Share) -> Share
        ensures { result ≡ record {
          units = (self.units + other.units) % 2 ^ 64;
          counts = self.counts || other.counts;
        } }
    {
        Share {
            units: self.units.wrapping_add(other.units),
            counts: self.counts || other.counts,
        }
    }
}

// The part of a share that a split gives away: of a great one little, so that one pass may part often; else half.
fn given_share(units: u64) -> u64
    ensures { result ≡ given_share units }
{
    if units >= 4294967296 {
        units / 65536
    } else {
        units / 2
    }
}
