//! An update whose worker is held, while another makes a call of one try.
ghost use Rattle.ell_test_threads.specs.Sharing.{IsSharer};

use super::calling::KeyCall::{self, Add, Ask, Put, Update};
use super::calling::{Ran, close, next_value, run, update};
use super::holding::held_at;
use super::parting::{joined, parted};
use super::swapping::ONCE_FOUND;
use super::telling::opened_for;
use ell_ops::Op::{Delete, Swap};
use ell_ops::Reply;
use ell_ops::Reply::{Found, No, Yes};
use ell_test_gates::{Turns, two_threads_meet};
use ell_tree::{Exchange, Kind, NotDone, Pass, StepGate, Tree};
use std::alloc::Global;
use std::process::Abort;
use std::sync::atomic::{AtomicU64, Ordering};
use std::thread::{Threads, join};

// Worker 0 updates a key, and counts how often its closure is called.
fn run_update<G: StepGate>(
    rt: &impl Abort,
    tree: &Tree<Global>,
    pass: Pass<Global>,
    called: &AtomicU64,
    gate: &G,
) -> Ran
    requires { IsSharer tree.now pass }
    ensures { IsSharer tree.now result.0 }
{
    let mut pass = pass;
    let said = update(rt, tree, &mut pass, &[], 5, called, 100, gate);
    (pass, said.map(Reply::found))
}

// What both workers are answered, and how often the closure is called.
type Met = (Result<Reply, NotDone>, Result<Reply, NotDone>, u64);

// Worker 0 updates key 5 from 50, and is held at a kind of step, while worker 1 makes a call of one try, in so many
// operations: so both are answered, so often the closure is called, and these keys with their values are there at the
// end.
fn meet_update<R: Threads + Abort + AllocGlobal + Sync>(
    rt: &R,
    at: Kind,
    ends: u64,
    call: KeyCall,
    want: Met,
    end: &[(u64, u64)],
) {
    let turns = held_at(rt, at, ends);
    let gate = Turns::new(&turns);
    meet_under(rt, &gate, call, want, end);
    assert!(rt; gate.are_over());
}

// The same under a gate, which holds worker 0.
fn meet_under<R: Threads + Abort + AllocGlobal + Sync, G: StepGate + Sync>(
    rt: &R,
    gate: &G,
    call: KeyCall,
    want: Met,
    end: &[(u64, u64)],
) {
    let called = AtomicU64::new(0);
    let (tree, pass) = opened_for(rt, &[(5, 50)], &[], 100);
    let (zero, mut one) = parted(rt, &tree, pass, &[], &[]);
    one.relabel(1);
    let (shared, count) = (&tree, &called);
    let ((zero, said), (one, also)) = join(
        rt,
        move || run_update(rt, shared, zero, count, gate),
        move || run(rt, shared, one, call, 1, gate),
    );
    let pass = joined(rt, &tree, &[], zero, one);
    let pairs = close(rt, tree, pass, &[]);
    let is_so = said == want.0 && also == want.1 && called.load(Ordering::SeqCst) == want.2;
    assert!(rt; is_so && pairs.as_slice() == end);
}

#[test]
fn an_update_calls_its_closure_anew_for_each_value_that_it_finds(rt: HostRuntime) {
    if !two_threads_meet(&rt) {
        return;
    }
    for at in &ONCE_FOUND {
        let (lost, end) = ((Ok(Found(60)), Ok(Found(50)), 2), [(5, next_value(60))]);
        meet_update(&rt, *at, 1, Ask(Swap(5, 50, 60)), lost, &end);
        let (other, end) = ((Ok(Found(50)), Ok(Found(50)), 1), [(5, next_value(50))]);
        meet_update(&rt, *at, 1, Ask(Swap(5, 51, 60)), other, &end);
        meet_update(&rt, *at, 1, Ask(Delete(5)), (Ok(No), Ok(Yes), 1), &[]);
    }
}

// Calls of one try, and of how many operations.
const CALLS: [(KeyCall, u64); 5] = [
    (Ask(Swap(5, 50, 60)), 1),
    (Put(5, 60), 2),
    (Add(5, 1), 2),
    (Update(5), 2),
    (Ask(Delete(5)), 1),
];

#[test]
fn a_call_of_one_try_that_meets_a_flag_is_busy_and_changes_nothing(rt: HostRuntime) {
    if !two_threads_meet(&rt) {
        return;
    }
    let (at, end) = (Kind::Exchange(Exchange::IChild), [(5, next_value(50))]);
    for (call, ends) in &CALLS {
        let want = (Ok(Found(50)), Err(NotDone::Busy), 1);
        meet_update(&rt, at, *ends, *call, want, &end);
    }
}
