//! 16 and 64 workers that all stop in the middle of an operation, until everybody is there.
use super::running::run_from;
use ell_ops::Op::{self, Delete, Find, Insert};
use ell_parts::Parts;
use ell_test_gates::{Counting, Gathering, sixteen_threads_meet, sixty_four_threads_meet};
use ell_tree::{Exchange, Kind};
use std::process::Abort;
use std::thread::Threads;

// The steps at which all workers are held, which each comes to for its own operation or for another's. How often it comes to
// them for its own at least. And whether all are there for one flag, which one of them has set or will set, and at which all
// others lose their step: the tree has but one inner node then.
type Stop = (Kind, u64, bool);

const INSERTING: [Stop; 4] = [
    (Kind::Begin, 4, false),
    (Kind::Exchange(Exchange::IFlag), 2, true),
    (Kind::Exchange(Exchange::IChild), 2, true),
    (Kind::Exchange(Exchange::IUnflag), 2, false),
];

const DELETING: [Stop; 4] = [
    (Kind::Exchange(Exchange::DFlag), 1, false),
    (Kind::Exchange(Exchange::Mark), 1, false),
    (Kind::Exchange(Exchange::DChild), 1, false),
    (Kind::Exchange(Exchange::DUnflag), 1, false),
];

// What each worker does on a key of its own: an insert, a find and a delete, and then another insert, with
// another value.
fn crowd_ops(rt: &(impl Abort + AllocGlobal), workers: u32) -> Vec<Op> {
    let mut ops = Vec::new(rt.alloc());
    for worker in 0..workers {
        let key = worker as u64;
        let more = [
            Insert(key, key.wrapping_add(100)),
            Find(key),
            Delete(key),
            Insert(key, key.wrapping_add(200)),
        ];
        ops.extend_from_slice(&more).expect(rt, "memory");
    }
    ops
}

// Has workers stop at each of these steps in turn, and then go on at once: each answers as one thread, and nothing is
// late.
fn stop_at<R: Threads + Abort + AllocGlobal + Sync>(rt: &R, workers: u32, stops: &[Stop]) {
    let ops = crowd_ops(rt, workers);
    let parts = Parts::striped(rt.alloc(), &ops, workers).expect(rt, "parts");
    for (kind, own, is_for_one) in stops {
        let gathering = Gathering::at(rt.alloc(), *kind, workers).expect(rt, "memory");
        let gate = Counting::new(rt.alloc(), workers, gathering).expect(rt, "memory");
        let outcome = run_from(rt, &[], &ops, &parts, (100_000, 1_000), &gate);
        let is_well = gate.behind().has_gathered() && outcome.late == 0;
        let others = (*is_for_one as u64).wrapping_mul((workers as u64).wrapping_sub(1));
        let least = own.wrapping_mul(workers as u64).wrapping_add(others);
        assert!(rt;
            is_well && least <= count_all(&gate, workers, *kind),
            "{workers} workers at {kind:?}"
        );
    }
}

// How often all workers came to a kind of step.
fn count_all(gate: &Counting<Gathering>, workers: u32, kind: Kind) -> u64 {
    let mut all: u64 = 0;
    for worker in 0..workers {
        all = all.wrapping_add(gate.count(worker, kind));
    }
    all
}

#[test]
fn sixteen_workers_in_the_middle_of_operations_answer_as_one_thread(rt: HostRuntime) {
    if sixteen_threads_meet(&rt) {
        stop_at(&rt, 16, &INSERTING);
        stop_at(&rt, 16, &DELETING);
    }
}

#[test]
fn sixty_four_workers_in_the_middle_of_inserts_answer_as_one_thread(rt: HostRuntime) {
    if sixty_four_threads_meet(&rt) {
        stop_at(&rt, 64, &INSERTING);
    }
}

#[test]
fn sixty_four_workers_in_the_middle_of_deletes_answer_as_one_thread(rt: HostRuntime) {
    if sixty_four_threads_meet(&rt) {
        stop_at(&rt, 64, &DELETING);
    }
}
