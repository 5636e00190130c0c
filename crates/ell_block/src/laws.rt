//! Laws of blocks and of branches. Each is the contract of a function that does nothing.
ghost use Rattle.ell_block.specs.Blocks.{TwoKeysPart, OneBranchEach, MostZeros, OneBlockEach, BitsCountZeros};
ghost use Rattle.ell_block.specs.Blocks.{BitsFall, BlocksNest, BranchesNest, BranchesFit};

/// Any two different keys have one branch, and each number but 0 is the middle of one block.
pub fn branches_are_unique()
    // Any two different keys below 2^n are parted by a block whose bit is below n.
    ensures some { TwoKeysPart }
    // Two keys have no second branch.
    ensures one { OneBranchEach }
    // Of the numbers above the lesser of two keys and up to the greater one, their branch has the most trailing zeros,
    // and no other has as many.
    ensures most { MostZeros }
    // Each number but 0 is the middle of one block.
    ensures block { OneBlockEach }
    // The bit of a block is the number of trailing zeros of its middle.
    ensures zeros { BitsCountZeros }
{}

/// Blocks nest, and bits fall along a path of nodes of which each has its block in a half of the block before.
pub fn blocks_nest()
    // A block in a half of another block has a lesser bit.
    ensures fall { BitsFall }
    // If the middle of a block is in one half of another block, and the other half has a key that is not in the first
    // block, then the first block is in the one half.
    ensures blocks { BlocksNest }
    // If a block parts two keys that are in one half of another block, it is in that half.
    ensures branches { BranchesNest }
{}

/// A new internal node fits between the nodes of a path: its key is the branch of the new key and of the key of the node
/// that comes below it.
pub fn branches_fit()
    // For each key outside a block there is a block that has the key in one half and the first block in the other. It is
    // in each half of a block in which the key and the middle of the first block are.
    ensures { BranchesFit }
{}
