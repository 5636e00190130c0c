//! A node to which a look has come, and the keys by which it has.
ghost use Rattle.std.specs.Prelude.{◌≡◌, false};
ghost use Rattle.ell_core.specs.statements.Readers.{from_of, upto_of};

/// A stretch of keys by which a look goes on: all from `low` on and below `high`.
#[derive(Clone, Copy)]
pub struct Stretch {
    pub low: u64,
    pub high: u64,
    /// Whether all of them go on as one.
    pub whole: bool,
}

/// A node to which a look has come, and the keys by which it has come there: all from `low` on and below `high`, each
/// in some state of the tree.
#[derive(Clone, Copy)]
pub struct Glance {
    pub node: u64,
    pub low: u64,
    pub high: u64,
    /// Whether all of them came as one, in one state.
    pub whole: bool,
}

impl Stretch {
    /// Returns the glance of a node to which these keys have come.
    #[inline(always)]
    pub fn at(self, node: u64) -> Glance
        // Returns the node with the keys.
        ensures { result ≡ record { node = node; low = self.low; high = self.high; whole = self.whole } }
    {
        Glance {
            node,
            low: self.low,
            high: self.high,
            whole: self.whole,
        }
    }
}

impl Glance {
    /// Returns those of its keys that go to the child on a side of its node, which has this key: below the node's key
    /// to the left child, else to the right one. They go on each by itself.
    #[inline(always)]
    pub fn on_side(self, key: u64, right: bool) -> Stretch
        // The stretch has those of the keys that are below the node's key, or those that are not.
        ensures low { result.low ≡ from_of right self.low key }
        ensures high { result.high ≡ upto_of right self.high key }
        ensures apart { result.whole ≡ false }
    {
        if right {
            Stretch {
                low: self.low.max(key),
                high: self.high,
                whole: false,
            }
        } else {
            Stretch {
                low: self.low,
                high: self.high.min(key),
                whole: false,
            }
        }
    }
}
