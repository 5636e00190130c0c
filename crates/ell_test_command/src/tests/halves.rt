//! A half of the workers that is refused memory, beside one that is not.
use super::refusing::{Heap, Refusal};
use ell_ops::Op;
use ell_parts::Parts;
use ell_run::{Tree, work};
use ell_test_gates::{Counting, Tally, two_threads_meet};
use ell_tree::{Kind, StepGate};
use std::alloc::Allocator;
use std::process::Abort;
use std::thread::Threads;

// Three operations for each of two workers.
const OPS: [Op; 6] = [
    Op::Insert(5, 50),
    Op::Insert(7, 70),
    Op::Find(5),
    Op::Find(7),
    Op::Delete(5),
    Op::Delete(7),
];

const OWNERS: [u32; 6] = [0, 1, 0, 1, 0, 1];

// How often a worker looks whether a growth has come, before it goes on without.
const TURNS: u32 = 200_000;

// Holds each worker that begins an operation until there were so many growths.
#[derive(Drop)]
struct Waiting<'a> {
    heap: &'a Heap,
    growths: u64,
}

impl<'a> StepGate for Waiting<'a> {
    fn before(&self, _worker: u32, kind: Kind) {
        if kind == Kind::Begin {
            let _came = (0..TURNS).any(|_| self.growths <= self.heap.growths());
        }
    }

    fn after(&self, _worker: u32, _answered: bool) {}
}

// Has two workers do three operations each, by eight tries of each, on a tree of their own, with memory from this heap: whether
// there was memory for it.
fn are_worked<R: Threads + Abort + Sync, A: Allocator + Copy + Send + Sync>(
    rt: &R,
    alloc: A,
    heap: &Heap,
    number: u64,
    gate: &Counting<Waiting>,
) -> bool {
    let parts = Parts::by_owner(alloc, &OPS, &OWNERS, 2).expect(rt, "no memory");
    let (tree, pass) = Tree::reserve(alloc, &[5, 7], 16).expect(rt, "no memory");
    heap.refuse(Refusal::At(number));
    let worked = work(rt, alloc, &tree, pass, &parts, 8, gate);
    heap.stop();
    worked.is_ok()
}

// Whether a worker began none or all of its operations, and ended each that it began.
fn is_whole(told: Tally) -> bool {
    told.answered == told.begun && (told.begun == 0 || told.begun == 3)
}

// Refuses the growth of this number, if there is one: whether only one of the workers had no memory.
fn halves<R: Threads + Abort + AllocGlobal + Sync>(rt: &R, number: u64) -> Option<bool> {
    let heap = Heap::new(rt.alloc());
    let waiting = Waiting {
        heap: &heap,
        growths: number,
    };
    let gate = Counting::new(rt.alloc(), 2, waiting).expect(rt, "no memory");
    if are_worked(rt, &heap, &heap, number, &gate) {
        return None;
    }
    let (one, other) = (gate.tally(0), gate.tally(1));
    assert!(rt; is_whole(one) && is_whole(other), "growth {number}");
    Some(one.begun != other.begun)
}

#[test]
fn a_worker_without_memory_stops_nobody(rt: HostRuntime) {
    if !two_threads_meet(&rt) {
        return;
    }
    let mut half_came = false;
    for number in 1..20 {
        let Some(is_half) = halves(&rt, number) else {
            break;
        };
        half_came |= is_half;
    }
    assert!(rt; half_came, "no half alone was refused");
}
