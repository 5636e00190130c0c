//! Branches and blocks that were worked out by hand.
ghost use Rattle.std.specs.Prelude.{◌^◌, ◌-◌};
ghost use Rattle.ell_block.specs.Blocks.{IsBranchOf, InBlockOf};

use ell_block::{branch, is_in_block};

#[test]
fn branches_are_as_worked_out(rt: HostRuntime) {
    let rows = [
        (0, 1, 1),
        (3, 4, 4),
        (3, 6, 4),
        (5, 7, 6),
        (6, 7, 7),
        (0, u64::MAX - 1, 1 << 63),
        (u64::MAX - 1, u64::MAX, u64::MAX),
    ];
    for (lesser, greater, wanted) in rows {
        let is_so = lesser < greater && branch(lesser, greater) == wanted;
        assert!(rt; is_so, "keys {lesser} and {greater}");
    }
    definitions_agree_on_branches();
}

#[test]
fn keys_are_in_blocks_as_worked_out(rt: HostRuntime) {
    let rows = [
        (6, 3, false),
        (6, 4, true),
        (6, 7, true),
        (6, 8, false),
        (7, 5, false),
        (7, 6, true),
        (1 << 63, 0, true),
        (1 << 63, u64::MAX, true),
        (u64::MAX, u64::MAX - 2, false),
    ];
    for (middle, key, wanted) in rows {
        let is_so = middle > 0 && is_in_block(middle, key) == wanted;
        assert!(rt; is_so, "branch {middle} and key {key}");
    }
    definitions_agree_on_blocks();
}

// The definition of a branch, on the same rows.
fn definitions_agree_on_branches()
    ensures first { IsBranchOf 0 1 1 }
    ensures second { IsBranchOf 3 4 4 }
    ensures third { IsBranchOf 3 6 4 }
    ensures fourth { IsBranchOf 5 7 6 }
    ensures fifth { IsBranchOf 6 7 7 }
    ensures sixth { IsBranchOf 0 (2 ^ 64 - 2) (2 ^ 63) }
    ensures seventh { IsBranchOf (2 ^ 64 - 2) (2 ^ 64 - 1) (2 ^ 64 - 1) }
{}

// What is in the block of a branch, on the same rows.
fn definitions_agree_on_blocks()
    ensures first { ¬ InBlockOf 6 3 }
    ensures second { InBlockOf 6 4 }
    ensures third { InBlockOf 6 7 }
    ensures fourth { ¬ InBlockOf 6 8 }
    ensures fifth { ¬ InBlockOf 7 5 }
    ensures sixth { InBlockOf 7 6 }
    ensures seventh { InBlockOf (2 ^ 63) 0 }
    ensures eighth { InBlockOf (2 ^ 63) (2 ^ 64 - 1) }
    ensures ninth { ¬ InBlockOf (2 ^ 64 - 1) (2 ^ 64 - 3) }
{}
