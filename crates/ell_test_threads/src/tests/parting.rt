//! Passes of a tree of shared keys part and come together.
ghost use Rattle.ell_test_threads.specs.Sharing.{IsMember};

use super::calling::is_among;
use ell_ops::ascend;
use ell_tree::{Pass, Tree};
use std::alloc::Global;
use std::process::Abort;

/// Two parts of a pass, of which the left one owns these keys.
#[tactic(auto, using(crate::proofs::lemmas::Sharers::member_left, crate::proofs::lemmas::Sharers::member_right, crate::proofs::lemmas::Starts::themselves_ascend))]
pub fn parted(
    rt: &impl Abort,
    tree: &Tree<Global>,
    pass: Pass<Global>,
    owned: &[u64],
    left: &[u64],
) -> (Pass<Global>, Pass<Global>)
    requires { IsMember owned.now tree.now pass }
    ensures left { IsMember owned.now tree.now result.0 }
    ensures right { IsMember owned.now tree.now result.1 }
{
    assert!(rt; ascend(left));
    assert!(rt;
        left.iter()
            .all(|key| is_among(*key, owned) && pass.owns(*key))
    );
    tree.split(pass, left).ok().expect(rt, "part")
}

/// One pass of two.
#[tactic(auto, using(crate::proofs::lemmas::Sharers::member_joined))]
pub fn joined(
    rt: &impl Abort,
    tree: &Tree<Global>,
    owned: &[u64],
    left: Pass<Global>,
    right: Pass<Global>,
) -> Pass<Global>
    requires left { IsMember owned.now tree.now left }
    requires right { IsMember owned.now tree.now right }
    ensures { IsMember owned.now tree.now result }
{
    assert!(rt;
        owned
            .iter()
            .all(|key| !(left.owns(*key) && right.owns(*key)))
    );
    tree.join(left, right).ok().expect(rt, "memory")
}
