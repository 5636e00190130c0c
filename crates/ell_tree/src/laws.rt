//! Laws of the tree's bounds, and of what passes were answered. Each is the contract of a function that does nothing.
ghost use Rattle.ell_tree.specs.Computing.{UpdatesAreShort};
ghost use Rattle.ell_tree.specs.Ends.{ChangesAreShort, FindsAreShort, find_steps, try_steps};
ghost use Rattle.ell_tree.specs.Flat.{IsFlatBound};
ghost use Rattle.ell_tree.specs.Helps.{help_steps};
ghost use Rattle.ell_tree.specs.Looks.{look_steps, stretch_steps};
ghost use Rattle.ell_tree.specs.OneThread.{StoriesAreOfOneThread};

/// If `c` is the most internal nodes above an internal node, which is the number of the last card unless the tree is
/// flat, and `t` the number of tries, the bound on the steps of a find is at most `64 * (c + 2)`, and that of an
/// insert, a delete, a swap, a put or an update at most `64 * (t + 1) * (c + 2)`.
pub fn bounds_in_short()
    // The bounds on steps are at most 64 (c + 2), and with t tries at most 64 (t + 1) (c + 2), where no internal node
    // is below more than c internal nodes.
    ensures find { FindsAreShort }
    ensures change { ChangesAreShort }
    ensures update { UpdatesAreShort }
{}

/// In a flat tree no bound on steps depends on the number of cards. In one that opened empty a find makes at most 199
/// steps, a look 131, each try of a change 475, a chain of helps 264, and a walk to one stretch of keys 130; in one
/// that opened with up to a million start keys 259, 171, 615, 344 and 170.
pub fn flat_bounds()
    // In a flat tree a bound is the first number if the tree opened empty, and at most the second one in any case.
    ensures find { IsFlatBound find_steps 199 259 }
    ensures look { IsFlatBound look_steps 131 171 }
    ensures change { IsFlatBound try_steps 475 615 }
    ensures help { IsFlatBound help_steps 264 344 }
    ensures stretch { IsFlatBound stretch_steps 130 170 }
{}

/// What a pass was answered that has seen all of its tree's history, and has the whole share of a tree that shares its keys, it
/// and the passes that were joined to it, is as of one thread.
pub fn stories_are_of_one_thread()
    // If keys are shared, and a pass has seen all of the history, and has the whole share and nothing in hand, one thread that
    // makes its calls in some order gets their answers. The order has these calls and no other, and a call that had ended
    // before another one began stands before it.
    ensures { StoriesAreOfOneThread }
{}
