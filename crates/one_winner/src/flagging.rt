//! One thread inserts a key, and then a flag, which is another key: who finds the flag finds the key.
ghost use Rattle.std.specs.Prelude.{◌≡◌, ◌≢◌, ◌≤◌, ◌∷◌, [], IfErr, IfOk, IfSome, Some};
ghost use Rattle.ell_tree.specs.Op.TheVariants.{Find, Insert};
ghost use Rattle.ell_tree.specs.Reply.TheVariants.{Yes};
ghost use Rattle.ell_tree.specs.Meaning.{found, greatest_key};
ghost use Rattle.ell_tree.specs.Views.{whole_share};
ghost use Rattle.ell_tree.specs.Promises.{MayDo};
ghost use Rattle.one_winner.specs.Flagging.{Looks, Raises};
ghost use Rattle.one_winner.specs.Sharing.{AreNew, Fails, answered};

use crate::fault::Lost;
use crate::sharing::{conclude, find, insert, unite};
use ell_tree::{Pass, Tree};
use std::alloc::Global;
use std::thread::{Threads, join};

/// What a thread found of a flag, and then of the key that another thread inserted before the flag.
#[derive(Clone, Copy, Debug, PartialEq, Eq)]
pub struct Flagged {
    /// What it found of the flag.
    pub flag: Option<u64>,
    /// What it found of the key afterwards.
    pub there: Option<u64>,
}

// The thread that inserts: the key with its value, and then the flag. Returns its pass, and what it was told.
fn raise(
    map: &Tree<Global>,
    pass: Pass<Global>,
    key: u64,
    flag: u64,
    value: u64,
) -> Result<(Pass<Global>, (bool, bool)), Lost>
    requires may { MayDo map.now key pass }
    requires flag { MayDo map.now flag pass }
    ensures raises { IfOk result (λ done. Raises map.now key flag value done.1.0 done.1.1 pass done.0) }
    ensures why { IfErr result (λ lost. Fails map.now lost.0 lost.1) }
{
    let (pass, added) = insert(map, pass, key, value)?;
    let (pass, raised) = insert(map, pass, flag, value)?;
    Ok((pass, (added, raised)))
}

// The thread that looks: finds the flag, and then the key. Returns its pass, and what it found of both.
fn look(map: &Tree<Global>, pass: Pass<Global>, key: u64, flag: u64) -> (Pass<Global>, Flagged)
    requires may { MayDo map.now key pass }
    requires flag { MayDo map.now flag pass }
    ensures { Looks map.now key flag result.1.flag result.1.there pass result.0 }
{
    let (pass, seen) = find(map, pass, flag);
    let (pass, there) = find(map, pass, key);
    (pass, Flagged { flag: seen, there })
}

/// One thread puts a value at a key of an empty tree, and then a flag, which is another key, both by inserts. Another
/// looks for the flag and then for the key. Nothing else goes from one to the other. Returns what the other found, with
/// the pass to which both were joined. Conditions: the key and the flag are different, and at most `KEY_MAX`.
pub fn insert_and_flag<R: Threads>(
    rt: &R,
    map: &Tree<Global>,
    passes: (Pass<Global>, Pass<Global>),
    key: u64,
    flag: u64,
    value: u64,
) -> Result<(Pass<Global>, Flagged), Lost>
    requires new { AreNew map.now passes.0 passes.1 }
    requires real { key ≤ greatest_key }
    requires flag { flag ≤ greatest_key }
    requires apart { key ≢ flag }
    // Who finds the flag finds the value.
    ensures seen { IfOk result (λ done. IfSome done.1.flag (λ _. done.1.there ≡ Some value)) }
    // The pass was answered these four calls, and no other: the finds of the one, and the inserts of the other.
    ensures calls { IfOk result (λ done. answered done.0.sight.mine ≡ (Find key, found done.1.there)
        ∷ (Find flag, found done.1.flag) ∷ (Insert flag value, Yes) ∷ (Insert key value, Yes) ∷ []) }
    // It has the whole share: all passes were joined to it.
    ensures whole { IfOk result (λ done. done.0.view.share ≡ whole_share) }
    // An insert was not done, as the tree says; or the passes were not joined after the finds.
    ensures why { IfErr result (λ lost. Fails map.now lost.0 lost.1) }
{
    let (first, second) = passes;
    let (first, second) = join(
        rt,
        move || -> (Pass<Global>, Flagged)
            requires key { MayDo map.now key first }
            requires flag { MayDo map.now flag first }
            ensures { Looks map.entry.now key flag result.1.flag result.1.there first result.0 }
        { look(map, first, key, flag) },
        move || -> Result<(Pass<Global>, (bool, bool)), Lost>
            requires key { MayDo map.now key second }
            requires flag { MayDo map.now flag second }
            ensures raises { IfOk result (λ done.
                Raises map.entry.now key flag value done.1.0 done.1.1 second done.0) }
            ensures why { IfErr result (λ lost. Fails map.entry.now lost.0 lost.1) }
        { raise(map, second, key, flag, value) },
    );
    let (first, seen) = first;
    let (second, _told) = second?;
    let both = unite(map, first, second)?;
    let pass = conclude(map, both);
    Ok((pass, seen))
}
