//! Two threads insert one key, each with a value of its own.
ghost use Rattle.std.specs.Prelude.{◌≡◌, ◌≢◌, ◌≤◌, ◌∷◌, [], if◌then◌else◌, IfErr, IfOk, Some};
ghost use Rattle.ell_tree.specs.Op.TheVariants.{Find, Insert};
ghost use Rattle.ell_tree.specs.Meaning.{found, greatest_key, yes_if};
ghost use Rattle.ell_tree.specs.Views.{whole_share};
ghost use Rattle.ell_tree.specs.Ends.{Answers};
ghost use Rattle.ell_tree.specs.Promises.{MayDo};
ghost use Rattle.one_winner.specs.Sharing.{AreNew, Fails, answered};

use crate::fault::Lost;
use crate::sharing::{conclude, find, insert, unite};
use ell_tree::{Pass, Tree};
use std::alloc::Global;
use std::thread::{Threads, join};

/// How a race ended.
#[derive(Clone, Copy, Debug, PartialEq, Eq)]
pub struct Race {
    /// Whether the first thread was told that it added the key.
    pub first_added: bool,
    /// Whether the second thread was told that it added the key.
    pub second_added: bool,
    /// The value that was found afterwards.
    pub there: Option<u64>,
}

/// Two threads insert a key into an empty tree that they share, each with a value of its own, and through a pass of its
/// own. Returns what each was told, and the value that the pass finds which both passes were joined to, with that pass.
/// Condition: the key is at most `KEY_MAX`.
pub fn insert_by_two<R: Threads>(
    rt: &R,
    map: &Tree<Global>,
    passes: (Pass<Global>, Pass<Global>),
    key: u64,
    first: u64,
    second: u64,
) -> Result<(Pass<Global>, Race), Lost>
    requires new { AreNew map.now passes.0 passes.1 }
    requires real { key ≤ greatest_key }
    // Exactly one of the two was told that it added the key.
    ensures one { IfOk result (λ done. done.1.first_added ≢ done.1.second_added) }
    // The value of that one is found afterwards.
    ensures there { IfOk result (λ done. done.1.there ≡ Some (if done.1.first_added then first else second)) }
    // The pass was answered these three calls, and no other: the two inserts, and then the find.
    ensures calls { IfOk result (λ done. answered done.0.sight.mine ≡ (Find key, found done.1.there)
        ∷ (Insert key first, yes_if done.1.first_added) ∷ (Insert key second, yes_if done.1.second_added) ∷ []) }
    // It has the whole share: all passes were joined to it.
    ensures whole { IfOk result (λ done. done.0.view.share ≡ whole_share) }
    // An insert was not done, as the tree says; or the passes were not joined after it.
    ensures why { IfErr result (λ lost. Fails map.now lost.0 lost.1) }
{
    let (left, right) = passes;
    let (left, right) = join(
        rt,
        move || -> Result<(Pass<Global>, bool), Lost>
            requires { MayDo map.now key left }
            ensures done { IfOk result (λ done.
                Answers map.entry.now (Insert key first) (yes_if done.1) left done.0) }
            ensures why { IfErr result (λ lost. Fails map.entry.now lost.0 lost.1) }
        { insert(map, left, key, first) },
        move || -> Result<(Pass<Global>, bool), Lost>
            requires { MayDo map.now key right }
            ensures done { IfOk result (λ done.
                Answers map.entry.now (Insert key second) (yes_if done.1) right done.0) }
            ensures why { IfErr result (λ lost. Fails map.entry.now lost.0 lost.1) }
        { insert(map, right, key, second) },
    );
    let (left, first_added) = left?;
    let (right, second_added) = right?;
    let both = unite(map, left, right)?;
    let (both, there) = find(map, both, key);
    let pass = conclude(map, both);
    Ok((
        pass,
        Race {
            first_added,
            second_added,
            there,
        },
    ))
}
