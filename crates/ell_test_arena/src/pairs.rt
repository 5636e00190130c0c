//! Pairs of words: the rule of the words, and what each step tells.
use atomic_table::{Join, Play, Split, TableRule};

/// What a seat knows. No value of this type is made.
#[derive(Drop)]
pub struct Known {
    /// The address of a pair that is shared.
    pub pair: u64,
    /// What the mark has reached.
    pub reached: u64,
}

/// The rule of the words.
pub struct PairRule;

impl TableRule<u64, Known, usize> for PairRule {
    ghost use Rattle.ell_test_arena.specs.Pairs.{HoldsPairs, first_known};

    ghost holds = { HoldsPairs };

    ghost first = { first_known };
}

/// A load of the mark.
pub struct Mark;

impl Play<u64, Known> for Mark {
    ghost use Rattle.ell_test_arena.specs.Pairs.{MarkFound};

    ghost then = { MarkFound };
}

/// An exchange of the mark, which takes a pair.
pub struct Take;

impl Play<u64, Known> for Take {
    ghost use Rattle.ell_test_arena.specs.Pairs.{PairTaken};

    ghost then = { PairTaken };
}

/// A store to the door, which shares a pair.
pub struct Share;

impl Play<u64, Known> for Share {
    ghost use Rattle.ell_test_arena.specs.Pairs.{PairShared};

    ghost then = { PairShared };
}

/// A load of the door.
pub struct Door;

impl Play<u64, Known> for Door {
    ghost use Rattle.ell_test_arena.specs.Pairs.{DoorFound};

    ghost then = { DoorFound };
}

/// A step on a shared pair.
pub struct Look;

impl Play<u64, Known> for Look {
    ghost use Rattle.ell_test_arena.specs.Pairs.{Unchanged};

    ghost then = { Unchanged };
}

/// Both parts know all.
pub struct Copied;

impl Split<Known> for Copied {
    ghost left = { λ v. v };

    ghost right = { λ v. v };
}

impl Join<Known> for Copied {
    ghost both = { λ v w. v };

    ghost spent = { record { pair = 0; reached = 2 } };
}
