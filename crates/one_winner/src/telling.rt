//! One thread inserts a key, and tells another of it.
ghost use Rattle.std.specs.Prelude.{◌≡◌, ◌≢◌, ◌≤◌, ◌∷◌, [], IfErr, IfOk, IfSome, Some};
ghost use Rattle.ell_tree.specs.Op.TheVariants.{Find, Insert};
ghost use Rattle.ell_tree.specs.Reply.TheVariants.{Yes};
ghost use Rattle.ell_tree.specs.Meaning.{found, greatest_key};
ghost use Rattle.ell_tree.specs.Views.{whole_share};
ghost use Rattle.ell_tree.specs.Ends.{Answers};
ghost use Rattle.ell_tree.specs.Promises.{MayDo};
ghost use Rattle.one_winner.specs.Sharing.{AreNew, Fails, answered};
ghost use Rattle.one_winner.specs.Telling.{Heard, Tells};

use crate::fault::{Lost, RaceFault};
use crate::sharing::{conclude, find, insert, unite};
use ell_tree::{Pass, Tree};
use std::alloc::Global;
use std::thread::{Threads, join};

/// What a thread found of a key that another thread inserted meanwhile.
#[derive(Clone, Copy, Debug, PartialEq, Eq)]
pub struct Told {
    /// What it found while the other was at work.
    pub early: Option<u64>,
    /// What it found when it had the message of the other.
    pub late: Option<u64>,
}

// The thread that tells: inserts the key with its value, and splits a pass without keys off its own, which is the
// message. Returns its pass and the message.
fn tell(
    map: &Tree<Global>,
    pass: Pass<Global>,
    key: u64,
    value: u64,
) -> Result<(Pass<Global>, Pass<Global>), Lost>
    requires may { MayDo map.now key pass }
    ensures tells { IfOk result (λ parts. Tells map.now key value pass parts.0 parts.1) }
    ensures why { IfErr result (λ lost. Fails map.now lost.0 lost.1) }
{
    let (pass, _added) = insert(map, pass, key, value)?;
    match map.split(pass, &[]) {
        Ok(parts) => Ok(parts),
        Err((pass, fault)) => Err((pass, RaceFault::Split(fault))),
    }
}

// The thread that is told: joins the message to its pass, which has made a call, and then finds the key. Returns its
// pass, and what it found.
fn hear(
    map: &Tree<Global>,
    pass: Pass<Global>,
    message: Pass<Global>,
    key: u64,
) -> Result<(Pass<Global>, Option<u64>), Lost>
    requires may { MayDo map.now key pass }
    requires message { MayDo map.now key message }
    requires called { pass.sight.mine ≢ [] }
    ensures heard { IfOk result (λ heard. Heard map.now key pass message heard.0 heard.1) }
    ensures why { IfErr result (λ lost. Fails map.now lost.0 lost.1) }
{
    let pass = unite(map, pass, message)?;
    Ok(find(map, pass, key))
}

/// One thread inserts a key with a value into an empty tree, while another looks for it. Then the first hands a pass to
/// the second, which joins it to its own and finds the key. Returns what the second found before and after, with the
/// pass to which all were joined. Condition: the key is at most `KEY_MAX`.
pub fn insert_and_tell<R: Threads>(
    rt: &R,
    map: &Tree<Global>,
    passes: (Pass<Global>, Pass<Global>),
    key: u64,
    value: u64,
) -> Result<(Pass<Global>, Told), Lost>
    requires new { AreNew map.now passes.0 passes.1 }
    requires real { key ≤ greatest_key }
    // Before the message, the second finds the value or nothing.
    ensures early { IfOk result (λ done. IfSome done.1.early (λ there. there ≡ value)) }
    // With the message, it finds the value.
    ensures late { IfOk result (λ done. done.1.late ≡ Some value) }
    // The pass was answered these three calls, and no other: the insert of the first, and the finds of the second.
    ensures calls { IfOk result (λ done. answered done.0.sight.mine ≡ (Insert key value, Yes)
        ∷ (Find key, found done.1.late) ∷ (Find key, found done.1.early) ∷ []) }
    // It has the whole share: all passes were joined to it.
    ensures whole { IfOk result (λ done. done.0.view.share ≡ whole_share) }
    // The insert was not done, as the tree says; or a pass was not split or joined after a call of it.
    ensures why { IfErr result (λ lost. Fails map.now lost.0 lost.1) }
{
    let (first, second) = passes;
    let (first, second) = join(
        rt,
        move || -> Result<(Pass<Global>, Pass<Global>), Lost>
            requires { MayDo map.now key first }
            ensures tells { IfOk result (λ parts. Tells map.entry.now key value first parts.0 parts.1) }
            ensures why { IfErr result (λ lost. Fails map.entry.now lost.0 lost.1) }
        { tell(map, first, key, value) },
        move || -> (Pass<Global>, Option<u64>)
            requires { MayDo map.now key second }
            ensures { Answers map.entry.now (Find key) (found result.1) second result.0 }
        { find(map, second, key) },
    );
    // This thread is the second one, and has the message by the join.
    let (first, message) = first?;
    let (second, early) = second;
    let (second, late) = hear(map, second, message, key)?;
    let both = unite(map, first, second)?;
    let pass = conclude(map, both);
    Ok((pass, Told { early, late }))
}
