//! One thread adds to the counter.
ghost use Rattle.std.specs.Prelude.{◌≡◌, ◌*◌, IfOk, IfErr};
ghost use Rattle.shared_counter.specs.Adding.{Fails, HasAdded};

use crate::fault::{CountFault, Lost};
use ell_tree::{NoGate, Pass, Tree};
use std::alloc::Global;

/// The key that is the counter.
pub(crate) const COUNTER: u64 = 1;

/// How often an addition is tried before it is `Busy`.
pub(crate) const TRIES: u32 = 1_000_000;

/// Adds an addend to the counter in each of so many rounds, through a pass that has made no call. Returns the pass, in
/// an error too.
pub(crate) fn add_often(
    tree: &Tree<Global>,
    pass: Pass<Global>,
    rounds: u32,
    addend: u64,
) -> Result<Pass<Global>, Lost>
    requires { HasAdded tree.now 0 0 pass }
    // Its calls have added the addend so often, and changed nothing else.
    ensures added { IfOk result (HasAdded tree.now rounds (rounds * addend)) }
    ensures share { IfOk result (λ done. done.view.share ≡ pass.view.share) }
    // An addition was not done, as the tree says, or found no counter.
    ensures why { IfErr result (λ lost. Fails tree.now rounds lost.0 lost.1) }
{
    let mut pass = pass;
    for _round in 0..rounds {
        match tree.fetch_add(&mut pass, COUNTER, addend, TRIES, &NoGate) {
            Ok(Some(_was)) => {}
            Ok(None) => return Err((pass, CountFault::NoCounter)),
            Err(why) => return Err((pass, CountFault::Add(why))),
        }
    }
    Ok(pass)
}
