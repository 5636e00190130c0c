//! The branch of two keys, and whether a key is in the block of a branch.
ghost use Rattle.std.specs.Prelude.{◌≡◌, ◌<◌, ◌≤◌, ◌↔◌, IsTrue};
ghost use Rattle.ell_block.specs.Blocks.{HasEnds, IsBranchOf, InBlockOf};

/// Returns the branch of two keys: of the numbers above the lesser key and up to the greater one, the one with the most
/// trailing zeros. Condition: the lesser key is less than the greater one.
pub fn branch(lesser: u64, greater: u64) -> u64
    requires { lesser < greater }
    // Returns the middle of the block that has the lesser key in its lower half and the greater one in its upper half.
    ensures branch { IsBranchOf lesser greater result }
    // The branch is above the lesser key, and at most the greater one.
    ensures above { lesser < result }
    ensures within { result ≤ greater }
{
    let bit = (lesser ^ greater).ilog2();
    greater >> bit << bit
}

/// Returns the first and the last key of the block of a branch. Condition: the branch is not 0, as no branch is.
pub fn block_ends(branch: u64) -> (u64, u64)
    requires { 0 < branch }
    // Returns the first key of the block whose middle the branch is, and its last one.
    ensures { HasEnds branch result.0 result.1 }
{
    let half = 1 << branch.trailing_zeros();
    (branch - half, branch + (half - 1))
}

/// Returns `true` if a key is in the block of a branch: if both are the same above the lowest bit of the branch that is
/// set. No branch is 0, and 0 has no block.
pub fn is_in_block(branch: u64, key: u64) -> bool
    // Returns `true` exactly if the key is in the block whose middle the branch is.
    ensures { IsTrue result ↔ InBlockOf branch key }
{
    0 < branch && (branch ^ key) >> branch.trailing_zeros() < 2
}
