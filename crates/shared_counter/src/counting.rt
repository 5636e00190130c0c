//! Four threads add to one counter.
ghost use Rattle.std.specs.Prelude.{◌≡◌, ◌+◌, ◌*◌, ◌%◌, ◌^◌, IfOk, IfErr, sum};
ghost use Rattle.ell_tree.specs.Views.{whole_share};
ghost use Rattle.shared_counter.specs.Adding.{AreNew, Fails, HasAdded, IsCounter, LastFinds, joined_share, start_of};

use crate::adding::{COUNTER, add_often};
use crate::fault::{CountFault, Lost};
use crate::opening::Passes;
use ell_tree::{NoGate, Pass, Tree, stories_are_of_one_thread};
use std::alloc::Global;
use std::thread::{Threads, join};

// Two threads add to the counter, each its addend in each of so many rounds, through a pass of its own. Returns the
// pass that both were joined to.
fn add_by_two<R: Threads>(
    rt: &R,
    tree: &Tree<Global>,
    passes: (Pass<Global>, Pass<Global>),
    rounds: u32,
    addends: (u64, u64),
) -> Result<Pass<Global>, Lost>
    requires one { HasAdded tree.now 0 0 passes.0 }
    requires other { HasAdded tree.now 0 0 passes.1 }
    ensures added { IfOk result (HasAdded tree.now rounds (rounds * (addends.0 + addends.1))) }
    ensures share { IfOk result (λ both. both.view.share ≡ joined_share passes.0.view.share passes.1.view.share) }
    ensures why { IfErr result (λ lost. Fails tree.now rounds lost.0 lost.1) }
{
    let (left, right) = passes;
    let (one, other) = addends;
    let (left, right) = join(
        rt,
        move || -> Result<Pass<Global>, Lost>
            requires { HasAdded tree.now 0 0 left }
            ensures added { IfOk result (HasAdded tree.entry.now rounds (rounds * one)) }
            ensures share { IfOk result (λ done. done.view.share ≡ left.view.share) }
            ensures why { IfErr result (λ lost. Fails tree.entry.now rounds lost.0 lost.1) }
        { add_often(tree, left, rounds, one) },
        move || -> Result<Pass<Global>, Lost>
            requires { HasAdded tree.now 0 0 right }
            ensures added { IfOk result (HasAdded tree.entry.now rounds (rounds * other)) }
            ensures share { IfOk result (λ done. done.view.share ≡ right.view.share) }
            ensures why { IfErr result (λ lost. Fails tree.entry.now rounds lost.0 lost.1) }
        { add_often(tree, right, rounds, other) },
    );
    match tree.join(left?, right?) {
        Ok(both) => Ok(both),
        Err((left, _right, fault)) => Err((left, CountFault::Memory(fault))),
    }
}

// Four threads add to the counter, as two pairs.
fn add_by_four<R: Threads + Sync>(
    rt: &R,
    tree: &Tree<Global>,
    passes: Passes,
    rounds: u32,
    addends: [u64; 4],
) -> Result<Pass<Global>, Lost>
    requires { AreNew tree.now passes }
    ensures added { IfOk result (HasAdded tree.now rounds (rounds * sum addends)) }
    ensures whole { IfOk result (λ all. all.view.share ≡ whole_share) }
    ensures why { IfErr result (λ lost. Fails tree.now rounds lost.0 lost.1) }
{
    let (one, other) = passes;
    let [first, second, third, fourth] = addends;
    let (one, other) = join(
        rt,
        move || -> Result<Pass<Global>, Lost>
            requires first { HasAdded tree.now 0 0 one.0 }
            requires second { HasAdded tree.now 0 0 one.1 }
            ensures added { IfOk result (HasAdded tree.entry.now rounds (rounds * (first + second))) }
            ensures share { IfOk result (λ both. both.view.share ≡ joined_share one.0.view.share one.1.view.share) }
            ensures why { IfErr result (λ lost. Fails tree.entry.now rounds lost.0 lost.1) }
        { add_by_two(rt, tree, one, rounds, (first, second)) },
        move || -> Result<Pass<Global>, Lost>
            requires third { HasAdded tree.now 0 0 other.0 }
            requires fourth { HasAdded tree.now 0 0 other.1 }
            ensures added { IfOk result (HasAdded tree.entry.now rounds (rounds * (third + fourth))) }
            ensures share { IfOk result (λ both. both.view.share ≡ joined_share other.0.view.share other.1.view.share) }
            ensures why { IfErr result (λ lost. Fails tree.entry.now rounds lost.0 lost.1) }
        { add_by_two(rt, tree, other, rounds, (third, fourth)) },
    );
    match tree.join(one?, other?) {
        Ok(all) => Ok(all),
        Err((one, _other, fault)) => Err((one, CountFault::Memory(fault))),
    }
}

/// Four threads share a counter. Each adds an addend of its own, in each of so many rounds, through a pass of its own.
/// Returns the value that the counter has in the end, and the pass that found it, to which the four were joined.
pub fn count_by_four<R: Threads + Sync>(
    rt: &R,
    tree: &Tree<Global>,
    passes: Passes,
    rounds: u32,
    addends: [u64; 4],
) -> Result<(Pass<Global>, u64), Lost>
    requires counter { IsCounter tree.now }
    requires new { AreNew tree.now passes }
    // The value is the sum of all that was added and of the first value, modulo 2^64: no addition is lost.
    ensures sum { IfOk result (λ done. done.1 ≡ (start_of tree.now + rounds * sum addends) % 2 ^ 64) }
    // The calls of the pass have added all this, and changed nothing else.
    ensures added { IfOk result (λ done. HasAdded tree.now rounds (rounds * sum addends) done.0) }
    // The last one has found the value.
    ensures found { IfOk result (λ done. LastFinds done.1 done.0.sight.mine) }
    // It has the whole share: all passes were joined to it.
    ensures whole { IfOk result (λ done. done.0.view.share ≡ whole_share) }
    // An addition was not done, as the tree says, or found no counter; or two passes were not joined.
    ensures why { IfErr result (λ lost. Fails tree.now rounds lost.0 lost.1) }
{
    let mut pass = add_by_four(rt, tree, passes, rounds, addends)?;
    // The pass knows all additions, then finds the value, and then knows that too.
    tree.story(&mut pass);
    let value = tree.find(&mut pass, COUNTER, &NoGate);
    tree.story(&mut pass);
    stories_are_of_one_thread();
    Ok((pass, value.unwrap()))
}
