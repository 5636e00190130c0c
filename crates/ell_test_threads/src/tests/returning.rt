//! Flat trees whose cards come back: few slots, and many more changes than slots.
ghost use Rattle.ell_test_threads.specs.Sharing.{IsSharer};

use super::calling::KeyCall::{self, Ask, Look};
use super::calling::answer;
use super::parting::parted;
use ell_ops::Op::{Delete, Find, Insert, Swap};
use ell_ops::Reply;
use ell_test_gates::{Counting, Weaving, two_threads_meet};
use ell_tree::{NoGate, Pair, Pass, StepGate, Tree, TreeKind};
use std::alloc::Global;
use std::process::Abort;
use std::thread::{Threads, join};

// How many changes are made beside a pass that rests.
const CHANGES: u64 = 3_000;

// An empty tree whose cards come back, for so many passes, in which all keys are shared, and its pass.
fn opened_reusing(
    rt: &(impl Abort + AllocGlobal),
    cards: u64,
    passes: u64,
) -> (Tree<Global>, Pass<Global>)
    ensures { IsSharer result.0 result.1 }
{
    assert!(rt; 1 <= passes && passes <= 64);
    Tree::open(rt.alloc(), TreeKind::Reusing(passes), &[], &[], cards).expect(rt, "tree")
}

// How often a call is made at most until it is answered.
const MOST_CALLS: u64 = 100_000_000;

// Makes a call until it is answered. A thread that stands still in a call holds slots back, and meanwhile others find each
// slot in use, or lose cards to each other.
fn surely(
    rt: &impl Abort,
    tree: &Tree<Global>,
    pass: &mut Pass<Global>,
    call: KeyCall,
    wanted: Option<Reply>,
)
    requires { IsSharer tree.now pass.old }
    ensures { IsSharer tree.now pass.new }
{
    for _call in 0..MOST_CALLS {
        if let Ok(reply) = answer(rt, tree, pass, &[], call, &NoGate) {
            assert!(rt; wanted.is_none() || wanted == Some(reply), "another reply");
            return;
        }
    }
    assert!(rt; false, "no slot comes back");
}

// How many operations are made beside one that is held, and of how many keys; and how many cards their tree is asked for.
const BESIDE: u64 = 60;

const KEYS: u64 = 5;

const FEW: u64 = 20;

// Has keys come and go, each operation once, from a state in which none is there: its pass, and how many operations found
// each slot in use. No other pass changes these keys, so each answer is a map's.
fn churn<G: StepGate>(
    rt: &impl Abort,
    tree: &Tree<Global>,
    pass: Pass<Global>,
    operations: u64,
    gate: &G,
) -> (Pass<Global>, u64)
    requires { IsSharer tree.now pass }
    ensures { IsSharer tree.now result.0 }
{
    let mut pass = pass;
    let mut present: u64 = 0;
    let mut in_use: u64 = 0;
    for number in 0..operations {
        let bit = 1 << (number % KEYS);
        let key = 10 + number % KEYS;
        let op = if present & bit == 0 {
            Insert(key, number)
        } else {
            Delete(key)
        };
        match answer(rt, tree, &mut pass, &[], Ask(op), gate) {
            Ok(reply) => {
                assert!(rt; reply == Reply::Yes, "another reply");
                present ^= bit;
            }
            Err(_) => in_use = in_use.wrapping_add(1),
        }
    }
    (pass, in_use)
}

// Deletes the keys that came and went.
fn delete_all(rt: &impl Abort, tree: &Tree<Global>, pass: &mut Pass<Global>)
    requires { IsSharer tree.now pass.old }
    ensures { IsSharer tree.now pass.new }
{
    for key in 10..10 + KEYS {
        surely(rt, tree, pass, Ask(Delete(key)), None);
    }
}

// Ends the looks of a pass.
#[tactic(auto, using(crate::proofs::lemmas::Sharers::member_resting))]
fn end_looks<G: StepGate>(tree: &Tree<Global>, pass: &mut Pass<Global>, gate: &G)
    requires { IsSharer tree.now pass.old }
    ensures { IsSharer tree.now pass.new }
{
    tree.end_looks(pass, gate);
}

// A call of worker 1 alone, which is told to the gate as over, a look once it is ended: its pass and the answer.
fn call_once<G: StepGate>(
    rt: &impl Abort,
    tree: &Tree<Global>,
    pass: Pass<Global>,
    call: KeyCall,
    gate: &G,
) -> (Pass<Global>, Option<Reply>)
    requires { IsSharer tree.now pass }
    ensures { IsSharer tree.now result.0 }
{
    let mut pass = pass;
    let said = answer(rt, tree, &mut pass, &[], call, gate).ok();
    if let Look(_) = call {
        end_looks(tree, &mut pass, gate);
        gate.after(pass.label(), true);
    }
    (pass, said)
}

// A tree of few slots, with keys 1 to 3, and its pass.
fn opened_with_three(rt: &(impl Abort + AllocGlobal)) -> (Tree<Global>, Pass<Global>)
    ensures { IsSharer result.0 result.1 }
{
    let (tree, pass) = opened_reusing(rt, FEW, 2);
    let mut pass = pass;
    surely(rt, &tree, &mut pass, Ask(Insert(1, 10)), None);
    surely(rt, &tree, &mut pass, Ask(Insert(2, 20)), None);
    surely(rt, &tree, &mut pass, Ask(Insert(3, 30)), None);
    (tree, pass)
}

// How many steps a call takes, with its begin, if nobody changes the tree.
fn count_steps(rt: &(impl Abort + AllocGlobal), call: KeyCall) -> u64 {
    let gate = Counting::new(rt.alloc(), 1, NoGate).expect(rt, "memory");
    let (tree, pass) = opened_with_three(rt);
    call_once(rt, &tree, pass, call, &gate);
    let tally = gate.tally(0);
    tally.begun.saturating_add(tally.steps)
}

// Holds a call before a step of this number, while keys come and go beside it: how many operations found each slot in
// use meanwhile. The call is answered as if it were alone, or finds each slot in use too and is made again; and once it
// is over, slots come back, though its pass then rests.
fn hold<R: Threads + Abort + AllocGlobal + Sync>(
    rt: &R,
    call: KeyCall,
    wanted: Reply,
    step: u64,
) -> u64 {
    let gate = Weaving::new(step, 0, BESIDE);
    let (tree, pass) = opened_with_three(rt);
    let (zero, mut one) = parted(rt, &tree, pass, &[], &[]);
    one.relabel(1);
    let (shared, told) = (&tree, &gate);
    let ((mut zero, in_use), (_one, said)) = join(
        rt,
        move || churn(rt, shared, zero, BESIDE, told),
        move || call_once(rt, shared, one, call, told),
    );
    assert!(rt; gate.woven().is_some(), "held at {step}");
    match said {
        Some(said) => assert!(rt; said == wanted, "held at {step}"),
        None => surely(rt, &tree, &mut zero, call, Some(wanted)),
    }
    delete_all(rt, &tree, &mut zero);
    let (_, after) = churn(rt, &tree, zero, BESIDE, &NoGate);
    assert!(rt;
        after == 0,
        "{after} without a slot behind one held at {step}"
    );
    in_use
}

#[test]
fn a_call_that_is_held_holds_slots_back_until_it_is_over(rt: HostRuntime) {
    if !two_threads_meet(&rt) {
        return;
    }
    for (call, wanted) in [
        (Ask(Insert(5, 50)), Reply::Yes),
        (Ask(Delete(2)), Reply::Yes),
        (Ask(Swap(2, 20, 21)), Reply::Found(20)),
        (Ask(Find(2)), Reply::Found(20)),
        (Look(3), Reply::Found(30)),
    ] {
        let before = hold(&rt, call, wanted, 1);
        assert!(&rt; before == 0, "{before} without a slot before it began");
        for step in 2..=count_steps(&rt, call) {
            hold(&rt, call, wanted, step);
        }
        let amid = hold(&rt, call, wanted, 4);
        assert!(&rt; 0 < amid, "nothing is held back");
    }
}

// A call that only looks.
#[derive(Clone, Copy)]
enum Seeing {
    Key,
    Range,
    Next,
    Last,
}

// Looks, among keys 1 to 3.
#[tactic(auto, using(crate::proofs::lemmas::Sharers::member_looking))]
fn see(rt: &impl Abort, tree: &Tree<Global>, pass: &mut Pass<Global>, seeing: Seeing)
    requires { IsSharer tree.now pass.old }
    ensures { IsSharer tree.now pass.new }
{
    match seeing {
        Seeing::Key => {
            let there = tree.look(pass, 2, &NoGate);
            assert!(rt; there == Some(20));
        }
        Seeing::Range => {
            let mut room = [Pair { key: 0, value: 0 }; 8];
            let listed = tree.scan(pass, 0, 10, &mut room, &NoGate);
            assert!(rt; listed.count == 3 && room[2].value == 30);
        }
        Seeing::Next => {
            let next = tree.next_at_least(pass, 3, &NoGate);
            assert!(rt; next == Some((3, 30)));
        }
        Seeing::Last => {
            let last = tree.last_at_most(pass, 2, &NoGate);
            assert!(rt; last == Some((2, 20)));
        }
    }
}

// A pass looks, maybe ends that, and rests: how many of the operations of another pass then find each slot in use.
fn rest_behind(rt: &(impl Abort + AllocGlobal), seeing: Seeing, is_ended: bool) -> u64 {
    let (tree, pass) = opened_with_three(rt);
    let (zero, mut one) = parted(rt, &tree, pass, &[], &[]);
    see(rt, &tree, &mut one, seeing);
    if is_ended {
        end_looks(&tree, &mut one, &NoGate);
    }
    churn(rt, &tree, zero, CHANGES, &NoGate).1
}

#[test]
fn a_look_holds_slots_back_until_it_is_ended(rt: HostRuntime) {
    for seeing in [Seeing::Key, Seeing::Range, Seeing::Next, Seeing::Last] {
        let ended = rest_behind(&rt, seeing, true);
        assert!(&rt; ended == 0, "{ended} without a slot behind a look");
        assert!(&rt; 0 < rest_behind(&rt, seeing, false), "nothing is held back");
    }
}
