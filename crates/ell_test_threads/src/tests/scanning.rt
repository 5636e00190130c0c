//! Scans that are held before each of their steps in turn, while another pass changes the nodes that they have visited
//! or kept.
ghost use Rattle.ell_test_threads.specs.Sharing.{IsSharer};

use super::edges::play;
use super::parting::parted;
use super::telling::Ask::{self, About, AtLeast, Last, Scan};
use super::telling::{Sight, opened, tell};
use ell_ops::Op::{Delete, Insert, Swap};
use ell_ops::{KEY_MAX, Op};
use ell_test_gates::Until::{Comes, Ends};
use ell_test_gates::{Counting, Turns, Weaving, two_threads_meet};
use ell_tree::Exchange::{Claim, DChild, DFlag, DUnflag, IChild, IFlag, IUnflag, Mark};
use ell_tree::Kind::{self, Begin, Exchange, Fill, Look, Note};
use ell_tree::{NoGate, Pass, StepGate, Tree};
use std::alloc::Global;
use std::process::Abort;
use std::thread::{Threads, join};

const END: u64 = KEY_MAX + 1;

const ALL: Ask = Scan(0, END, 100);

// Worker 1 makes its call. The gate is told when it has ended, as if it were an operation.
fn watch<G: StepGate>(
    rt: &(impl Abort + AllocGlobal),
    tree: &Tree<Global>,
    pass: Pass<Global>,
    ask: Ask,
    gate: &G,
) -> Sight
    requires { IsSharer tree.now pass }
{
    let mut pass = pass;
    let sight = tell(rt, tree, &mut pass, ask, gate);
    gate.after(1, true);
    sight
}

// A tree with start keys, where worker 0 makes its operations and worker 1 its call under a gate: what the call tells.
fn meet<R: Threads + Abort + AllocGlobal + Sync, G: StepGate + Sync>(
    rt: &R,
    start: &[(u64, u64)],
    ops: &[Op],
    ask: Ask,
    gate: &G,
) -> Sight {
    let (tree, pass) = opened(rt, start, 100);
    let (zero, mut one) = parted(rt, &tree, pass, &[], &[]);
    one.relabel(1);
    let shared = &tree;
    let (_, sight) = join(
        rt,
        move || play(rt, shared, zero, ops, false, gate),
        move || watch(rt, shared, one, ask, gate),
    );
    sight
}

// How many steps a call takes on a tree with start keys, if nobody changes it, by the pass and by a gate, which are to
// agree. `tests/hosts/ranges.c` counts those of calls on many keys.
fn steps_of(rt: &(impl Abort + AllocGlobal), start: &[(u64, u64)], ask: Ask) -> u64 {
    let gate = Counting::new(rt.alloc(), 1, NoGate).expect(rt, "memory");
    let (tree, mut pass) = opened(rt, start, 100);
    let before = pass.steps();
    let sight = tell(rt, &tree, &mut pass, ask, &gate);
    let steps = pass.steps().saturating_sub(before);
    assert!(rt; sight.is_in_order());
    assert!(rt; gate.tally(0).steps == steps && gate.count(0, Look) == steps);
    steps
}

// Keys below this one are told of.
const KEYS: u64 = 20;

const START: [(u64, u64); 8] = [
    (2, 20),
    (4, 40),
    (6, 60),
    (8, 80),
    (10, 100),
    (12, 120),
    (14, 140),
    (16, 160),
];

// Deletes of all start keys, each followed by an insert of the key above it, if others are to come.
fn gone(rt: &(impl Abort + AllocGlobal), others_come: bool) -> Vec<Op> {
    let mut ops = Vec::new(rt.alloc());
    for (key, value) in START {
        ops.push(Delete(key)).expect(rt, "memory");
        if others_come {
            ops.push(Insert(key + 1, value)).expect(rt, "memory");
        }
    }
    ops
}

const TO_AND_FRO: [Op; 14] = [
    Delete(6),
    Insert(6, 61),
    Swap(8, 80, 81),
    Delete(8),
    Insert(9, 90),
    Delete(10),
    Insert(8, 82),
    Insert(10, 101),
    Swap(10, 101, 102),
    Delete(12),
    Delete(9),
    Insert(12, 121),
    Delete(2),
    Insert(2, 21),
];

// The value of a key behind an operation on it.
fn value_behind(op: Op, there: Option<u64>) -> Option<u64> {
    match (op, there) {
        (Insert(_, value), None) => Some(value),
        (Delete(_), _) => None,
        (Swap(_, was, value), Some(found)) if found == was => Some(value),
        _ => there,
    }
}

// The value of a key at the start.
fn value_at_start(key: u64) -> Option<u64> {
    for pair in &START {
        if pair.0 == key {
            return Some(pair.1);
        }
    }
    None
}

// Whether a key had this value at the start, or behind some of the first of these operations.
fn was_so(ops: &[Op], first: u64, key: u64, told: Option<u64>) -> bool {
    let mut there = value_at_start(key);
    let mut was = there == told;
    for op in ops.iter().take(first as usize) {
        if op.key() == key {
            there = value_behind(*op, there);
            was |= there == told;
        }
    }
    was
}

// A call is held before each of its steps in turn, from which on another pass makes its operations: all at once, or so
// many steps apart. What it tells of each key was so in some state since it began.
fn hold_at_each<R: Threads + Abort + AllocGlobal + Sync>(rt: &R, ops: &[Op], ask: Ask) {
    for first in 1..=steps_of(rt, &START, ask) {
        for distance in [0, 2] {
            let gate = Weaving::new(first, distance, ops.len() as u64);
            let sight = meet(rt, &START, ops, ask, &gate);
            let woven = gate.woven().unwrap_or(0);
            let mut keys = sight.from..sight.upto.min(KEYS);
            let is_so = keys.all(|key| was_so(ops, woven, key, sight.value_of(key)));
            assert!(rt;
                1 <= woven && is_so && sight.is_in_order(),
                "held at {first}"
            );
        }
    }
}

fn hold_each<R: Threads + Abort + AllocGlobal + Sync>(rt: &R, ops: &[Op]) {
    if !two_threads_meet(rt) {
        return;
    }
    for ask in [ALL, Scan(5, 13, 3), About(8), AtLeast(9), Last] {
        hold_at_each(rt, ops, ask);
    }
}

// Has a call be held while all keys go, in this order and in the other one.
fn hold_while_gone<R: Threads + Abort + AllocGlobal + Sync>(rt: &R, others_come: bool) {
    let mut ops = gone(rt, others_come);
    hold_each(rt, &ops);
    ops.reverse();
    hold_each(rt, &ops);
}

#[test]
fn a_scan_goes_on_where_all_keys_go(rt: HostRuntime) {
    hold_while_gone(&rt, false);
}

#[test]
fn a_scan_goes_on_where_keys_go_and_others_come(rt: HostRuntime) {
    hold_while_gone(&rt, true);
}

#[test]
fn a_scan_goes_on_where_keys_go_and_come_again(rt: HostRuntime) {
    hold_each(&rt, &TO_AND_FRO);
}

// A tree, and the steps of a scan of it: 1 comes to node 20; 2 reads its key, and 3 comes to node 10; 4 reads its key,
// and 5 comes to leaf 5; 6 and 7 read this. The cursor goes on from node 10: 8 reads its key, 9 comes to leaf 10, and
// 10 and 11 read this. It goes on from node 20: 12 reads its key, 13 comes to the last node, 14 reads its key, 15 comes
// to leaf 20, and 16 and 17 read this.
//
// 20
// /    \
// 10      .
// /  \    / \
// 5   10  20  .
const SMALL: [(u64, u64); 3] = [(5, 50), (10, 100), (20, 200)];

// The step before which the scan is held, what another pass does then, and what the scan tells.
type Scene<'a> = (u64, &'a [Op], &'a [(u64, u64)]);

static SCENES: [Scene<'static>; 13] = [
    // All keys go, and another comes, before the scan begins.
    (
        1,
        &[Delete(5), Delete(10), Delete(20), Insert(30, 300)],
        &[(30, 300)],
    ),
    // Node 10, where the scan is to go on, is cut out.
    (8, &[Delete(5)], &SMALL),
    // So is its parent, then, and 10 with it.
    (8, &[Delete(5), Delete(10)], &SMALL),
    // And all goes: the cut out nodes lead to what was there when the scan began.
    (
        8,
        &[Delete(5), Delete(10), Delete(20), Insert(30, 300)],
        &SMALL,
    ),
    // Node 20 stays where its other keys go, and leads to those that have come.
    (
        8,
        &[
            Delete(5),
            Insert(7, 70),
            Delete(10),
            Insert(15, 150),
            Delete(20),
            Insert(25, 250),
        ],
        &[(5, 50), (10, 100), (25, 250)],
    ),
    // Node 10 is there, and 12 comes below it.
    (
        9,
        &[Insert(12, 120)],
        &[(5, 50), (10, 100), (12, 120), (20, 200)],
    ),
    // The scan stands at leaf 10, which is cut out with its parent.
    (10, &[Delete(10)], &SMALL),
    // It stands there, and 12 comes in the leaf's place.
    (10, &[Insert(12, 120)], &SMALL),
    // It has read the key of leaf 10, whose value is that of a state before.
    (11, &[Swap(10, 100, 101)], &SMALL),
    // Node 20, where it is to go on, is cut out behind its children, and the last node with it.
    (
        12,
        &[Delete(10), Delete(5), Delete(20), Insert(30, 300)],
        &SMALL,
    ),
    // It has not come to the last node yet.
    (13, &[Delete(20)], &[(5, 50), (10, 100)]),
    // It has, and this is cut out.
    (14, &[Delete(20)], &SMALL),
    // It stands at leaf 20.
    (16, &[Swap(20, 200, 201), Delete(20)], &SMALL),
];

#[test]
fn a_scan_that_is_held_goes_on_from_nodes_that_were_cut_out(rt: HostRuntime) {
    if !two_threads_meet(&rt) {
        return;
    }
    assert!(rt; steps_of(&rt, &SMALL, ALL) == 17);
    for (number, (first, ops, want)) in SCENES.iter().enumerate() {
        let gate = Weaving::new(*first, 0, ops.len() as u64);
        let sight = meet(&rt, &SMALL, ops, ALL, &gate);
        let is_woven = gate.woven() == Some(ops.len() as u64);
        assert!(rt;
            is_woven && sight.upto == END && sight.pairs.as_slice() == *want,
            "scene {number}"
        );
    }
}

// The kinds of steps at which an insert of 4 is held, or a delete of 5, and whether a scan beside tells the key then.
const AT_ITS_INSERT: [(Kind, bool); 8] = [
    (Begin, false),
    (Note, false),
    (Look, false),
    (Exchange(Claim), false),
    (Fill, false),
    (Exchange(IFlag), false),
    (Exchange(IChild), false),
    (Exchange(IUnflag), true),
];

const AT_ITS_DELETE: [(Kind, bool); 9] = [
    (Begin, true),
    (Note, true),
    (Look, true),
    (Exchange(Claim), true),
    (Fill, true),
    (Exchange(DFlag), true),
    (Exchange(Mark), true),
    (Exchange(DChild), true),
    (Exchange(DUnflag), false),
];

// Another pass is held before a step of a kind, and a call tells these pairs.
fn pass_by<R: Threads + Abort + AllocGlobal + Sync>(
    rt: &R,
    op: Op,
    kind: Kind,
    want: &[(u64, u64)],
) {
    let turns = [(0, Comes(kind, 1)), (1, Ends), (0, Ends)];
    let gate = Turns::new(&turns);
    let sight = meet(rt, &SMALL, &[op], ALL, &gate);
    assert!(rt;
        gate.are_over() && sight.pairs.as_slice() == want,
        "{kind:?}"
    );
}

#[test]
fn a_scan_goes_past_a_change_that_is_held(rt: HostRuntime) {
    if !two_threads_meet(&rt) {
        return;
    }
    let with_four = [(4, 40), (5, 50), (10, 100), (20, 200)];
    for (kind, is_there) in AT_ITS_INSERT {
        let want = if is_there { &with_four[..] } else { &SMALL };
        pass_by(&rt, Insert(4, 40), kind, want);
    }
    for (kind, is_there) in AT_ITS_DELETE {
        let want = if is_there { &SMALL[..] } else { &SMALL[1..] };
        pass_by(&rt, Delete(5), kind, want);
    }
}
