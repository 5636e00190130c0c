//! Calls of passes of a tree of shared keys, some of which may have owners.
ghost use Rattle.std.specs.Prelude.{◌≡◌, ◌≤◌, None};
ghost use Rattle.ell_ops.specs.KeySet.{set_of};
ghost use Rattle.ell_tree.specs.Promises.{MayDo};
ghost use Rattle.ell_test_threads.specs.Sharing.{IsMember, IsSharer};

use ell_ops::{KEY_MAX, Op, Reply};
use ell_tree::{NotDone, Pass, StepGate, Tree};
use std::alloc::Global;
use std::process::Abort;
use std::sync::atomic::{AtomicU64, Ordering};

/// How many tries a call makes.
pub const TRIES: u32 = 1_000;

/// A call on a key.
#[derive(Clone, Copy)]
pub enum KeyCall {
    Ask(Op),
    Take(u64),
    Look(u64),
    /// Puts the second number at the key that the first one is.
    Put(u64, u64),
    /// Adds the second number to the value of that key.
    Add(u64, u64),
    /// Updates the value of a key to the one that `next_value` makes of it.
    Update(u64),
    /// Removes the key that the first number is, if its value is the second one.
    RemoveIf(u64, u64),
}

/// What an update makes of a value: another one.
pub fn next_value(value: u64) -> u64 {
    value.wrapping_mul(3).wrapping_add(1)
}

/// Whether a key is one of these.
pub fn is_among(key: u64, keys: &[u64]) -> bool
    ensures { result ≡ set_of keys.now key }
{
    keys.iter().any(|other| key == *other)
}

// Has the test fail unless a pass may change a key, which is one of its own, or shared.
#[tactic(auto, using(crate::proofs::lemmas::Sharers::may_own, crate::proofs::lemmas::Sharers::may_share))]
fn claim(rt: &impl Abort, tree: &Tree<Global>, pass: &Pass<Global>, owned: &[u64], key: u64)
    requires { IsMember owned.now tree.now pass.now }
    ensures { MayDo tree.now key pass.now }
{
    assert!(rt; pass.owns(key) || (key <= KEY_MAX && !is_among(key, owned)));
}

/// Makes an operation on a key of the pass, or on a shared one, where these keys may have owners.
#[tactic(auto, using(crate::proofs::lemmas::Sharers::member_answered, crate::proofs::lemmas::Sharers::member_given_up))]
pub fn ask<G: StepGate>(
    rt: &impl Abort,
    tree: &Tree<Global>,
    pass: &mut Pass<Global>,
    owned: &[u64],
    op: Op,
    tries: u32,
    gate: &G,
) -> Result<Reply, NotDone>
    requires member { IsMember owned.now tree.now pass.old }
    requires tries { 1 ≤ tries }
    ensures { IsMember owned.now tree.now pass.new }
{
    claim(rt, tree, pass, owned, op.key());
    match op {
        Op::Find(key) => Ok(Reply::found(tree.find(pass, key, gate))),
        Op::Insert(key, value) => Ok(Reply::yes_if(tree.insert(pass, key, value, tries, gate)?)),
        Op::Delete(key) => Ok(Reply::yes_if(tree.delete(pass, key, tries, gate)?)),
        Op::Swap(key, was, value) => {
            let there = tree.swap(pass, key, was, value, tries, gate)?;
            Ok(Reply::found(there))
        }
    }
}

// Takes such a key away: the value that it took.
#[tactic(auto, using(crate::proofs::lemmas::Sharers::member_answered, crate::proofs::lemmas::Sharers::member_given_up))]
fn take<G: StepGate>(
    rt: &impl Abort,
    tree: &Tree<Global>,
    pass: &mut Pass<Global>,
    owned: &[u64],
    key: u64,
    tries: u32,
    gate: &G,
) -> Result<Option<u64>, NotDone>
    requires member { IsMember owned.now tree.now pass.old }
    requires tries { 1 ≤ tries }
    ensures { IsMember owned.now tree.now pass.new }
{
    claim(rt, tree, pass, owned, key);
    tree.take(pass, key, tries, gate)
}

// Puts a value at such a key: the value that it had.
#[tactic(auto, using(crate::proofs::lemmas::Sharers::member_put, crate::proofs::lemmas::Sharers::member_not_done))]
fn put<G: StepGate>(
    rt: &impl Abort,
    tree: &Tree<Global>,
    pass: &mut Pass<Global>,
    owned: &[u64],
    key: u64,
    value: u64,
    tries: u32,
    gate: &G,
) -> Result<Option<u64>, NotDone>
    requires member { IsMember owned.now tree.now pass.old }
    requires tries { 1 ≤ tries }
    ensures { IsMember owned.now tree.now pass.new }
{
    claim(rt, tree, pass, owned, key);
    tree.put(pass, key, value, tries, gate)
}

// Adds to the value of such a key: the value that it had.
#[tactic(auto, using(crate::proofs::lemmas::Sharers::member_updated, crate::proofs::lemmas::Sharers::member_not_done))]
fn add<G: StepGate>(
    rt: &impl Abort,
    tree: &Tree<Global>,
    pass: &mut Pass<Global>,
    owned: &[u64],
    key: u64,
    addend: u64,
    tries: u32,
    gate: &G,
) -> Result<Option<u64>, NotDone>
    requires member { IsMember owned.now tree.now pass.old }
    requires tries { 1 ≤ tries }
    ensures { IsMember owned.now tree.now pass.new }
{
    claim(rt, tree, pass, owned, key);
    tree.fetch_add(pass, key, addend, tries, gate)
}

/// Updates the value of such a key to the one that `next_value` makes of it, and counts how often it is called: the
/// value that it had.
#[tactic(auto, using(crate::proofs::lemmas::Sharers::member_updated, crate::proofs::lemmas::Sharers::member_not_done))]
pub fn update<G: StepGate>(
    rt: &impl Abort,
    tree: &Tree<Global>,
    pass: &mut Pass<Global>,
    owned: &[u64],
    key: u64,
    called: &AtomicU64,
    tries: u32,
    gate: &G,
) -> Result<Option<u64>, NotDone>
    requires member { IsMember owned.now tree.now pass.old }
    requires tries { 1 ≤ tries }
    ensures { IsMember owned.now tree.now pass.new }
{
    claim(rt, tree, pass, owned, key);
    let next = |value: u64| {
        called.fetch_add(1, Ordering::SeqCst);
        next_value(value)
    };
    tree.update(pass, key, next, tries, gate)
}

// Removes such a key if it has a value: the value that it had.
#[tactic(auto, using(crate::proofs::lemmas::Sharers::member_removed, crate::proofs::lemmas::Sharers::member_not_done))]
fn remove_if<G: StepGate>(
    rt: &impl Abort,
    tree: &Tree<Global>,
    pass: &mut Pass<Global>,
    owned: &[u64],
    key: u64,
    was: u64,
    tries: u32,
    gate: &G,
) -> Result<Option<u64>, NotDone>
    requires member { IsMember owned.now tree.now pass.old }
    requires tries { 1 ≤ tries }
    ensures { IsMember owned.now tree.now pass.new }
{
    claim(rt, tree, pass, owned, key);
    tree.remove_if(pass, key, was, tries, gate)
}

/// Makes a call with so many tries: what it answers, of a look as a find does, and of one that answers a value that it
/// found that.
#[tactic(auto, using(crate::proofs::lemmas::Sharers::member_looking))]
pub fn answer_by<G: StepGate>(
    rt: &impl Abort,
    tree: &Tree<Global>,
    pass: &mut Pass<Global>,
    owned: &[u64],
    call: KeyCall,
    tries: u32,
    gate: &G,
) -> Result<Reply, NotDone>
    requires member { IsMember owned.now tree.now pass.old }
    requires tries { 1 ≤ tries }
    ensures { IsMember owned.now tree.now pass.new }
{
    let there = match call {
        KeyCall::Ask(op) => return ask(rt, tree, pass, owned, op, tries, gate),
        KeyCall::Take(key) => take(rt, tree, pass, owned, key, tries, gate)?,
        KeyCall::Look(key) => {
            assert!(rt; key <= KEY_MAX);
            tree.look(pass, key, gate)
        }
        KeyCall::Put(key, value) => put(rt, tree, pass, owned, key, value, tries, gate)?,
        KeyCall::Add(key, addend) => add(rt, tree, pass, owned, key, addend, tries, gate)?,
        KeyCall::RemoveIf(key, was) => remove_if(rt, tree, pass, owned, key, was, tries, gate)?,
        KeyCall::Update(key) => {
            let called = AtomicU64::new(0);
            update(rt, tree, pass, owned, key, &called, tries, gate)?
        }
    };
    Ok(Reply::found(there))
}

/// Makes a call with many tries.
pub fn answer<G: StepGate>(
    rt: &impl Abort,
    tree: &Tree<Global>,
    pass: &mut Pass<Global>,
    owned: &[u64],
    call: KeyCall,
    gate: &G,
) -> Result<Reply, NotDone>
    requires { IsMember owned.now tree.now pass.old }
    ensures { IsMember owned.now tree.now pass.new }
{
    answer_by(rt, tree, pass, owned, call, TRIES, gate)
}

/// What a worker leaves: its pass, and what it was answered.
pub type Ran = (Pass<Global>, Result<Reply, NotDone>);

/// A worker makes a call on a shared key, with so many tries.
pub fn run<G: StepGate>(
    rt: &impl Abort,
    tree: &Tree<Global>,
    pass: Pass<Global>,
    call: KeyCall,
    tries: u32,
    gate: &G,
) -> Ran
    requires sharer { IsSharer tree.now pass }
    requires tries { 1 ≤ tries }
    ensures { IsSharer tree.now result.0 }
{
    let mut pass = pass;
    let said = answer_by(rt, tree, &mut pass, &[], call, tries, gate);
    (pass, said)
}

/// Ends a tree, by the pass that is to own all keys that may have owners, and to have the whole share: the keys with their values.
pub fn close(
    rt: &impl Abort,
    tree: Tree<Global>,
    pass: Pass<Global>,
    owned: &[u64],
) -> Vec<(u64, u64)>
    requires member { IsMember owned.now tree pass }
    requires keys { tree.plan.keys ≡ owned.now }
    requires plain { tree.plan.slots ≡ None }
{
    assert!(rt; owned.iter().all(|key| pass.owns(*key)) && pass.has_whole_share());
    tree.close(pass).ok().expect(rt, "memory")
}
