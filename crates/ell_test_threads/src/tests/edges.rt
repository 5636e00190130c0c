//! Flat trees: calls that are held before each of their steps in turn, while another pass changes what is above and
//! below an internal node, above which inserts put their nodes.
ghost use Rattle.std.specs.Prelude.{◌≡◌, [], None};
ghost use Rattle.ell_test_threads.specs.Sharing.{IsSharer};

use super::calling::KeyCall::{Ask, Look};
use super::calling::{answer, close};
use super::parting::{joined, parted};
use ell_ops::Op::{self, Delete, Find, Insert};
use ell_ops::{Reply, apply_all};
use ell_test_gates::{Counting, Weaving, two_threads_meet};
use ell_tree::{NoGate, Pass, StepGate, Tree, TreeKind};
use std::alloc::Global;
use std::process::Abort;
use std::thread::{Threads, join};

// An empty flat tree, in which all keys are shared, and its pass.
fn opened_flat(rt: &(impl Abort + AllocGlobal)) -> (Tree<Global>, Pass<Global>)
    ensures sharer { IsSharer result.0 result.1 }
    ensures keys { result.0.plan.keys ≡ [] }
    ensures plain { result.0.plan.slots ≡ None }
{
    Tree::open(rt.alloc(), TreeKind::Flat, &[], &[], 10_000).expect(rt, "tree")
}

/// Makes operations, the finds among them by looks if they are to be: their replies. The gate is told when a look has
/// ended, as if it were an operation.
pub fn play<G: StepGate>(
    rt: &(impl Abort + AllocGlobal),
    tree: &Tree<Global>,
    pass: Pass<Global>,
    ops: &[Op],
    by_looks: bool,
    gate: &G,
) -> (Pass<Global>, Vec<Reply>)
    requires { IsSharer tree.now pass }
    ensures { IsSharer tree.now result.0 }
{
    let (mut pass, mut replies) = (pass, Vec::new(rt.alloc()));
    for op in ops {
        let call = match *op {
            Find(key) if by_looks => Look(key),
            other => Ask(other),
        };
        let said = answer(rt, tree, &mut pass, &[], call, gate);
        let reply = said.ok().expect(rt, "reply");
        replies.push(reply).expect(rt, "memory");
        if let Look(_) = call {
            gate.after(pass.label(), true);
        }
    }
    (pass, replies)
}

// Two workers in a flat tree: the operations that fill it; that of worker 1, which is held, and whether it is a look
// if it is a find; and those that worker 0 makes meanwhile.
#[derive(Clone, Copy)]
struct Meeting<'a> {
    first: &'a [Op],
    held: (Op, bool),
    ops: &'a [Op],
}

// The replies to worker 0, that to worker 1, and the keys at the end with their values.
type Met = (Vec<Reply>, Vec<Reply>, Vec<(u64, u64)>);

impl Meeting<'_> {
    // How many steps the held operation takes, with its begin, if nobody changes the tree.
    fn count_steps(&self, rt: &(impl Abort + AllocGlobal)) -> u64 {
        let gate = Counting::new(rt.alloc(), 1, NoGate).expect(rt, "memory");
        let (tree, pass) = opened_flat(rt);
        let (pass, _) = play(rt, &tree, pass, self.first, false, &NoGate);
        play(rt, &tree, pass, &[self.held.0], self.held.1, &gate);
        let tally = gate.tally(0);
        tally.begun.saturating_add(tally.steps)
    }

    // Holds the operation before a step of this number, from where on the others are made so many steps apart. The
    // answers and the pairs at the end are those of a map, to which the operation came while it was under way.
    fn hold<R: Threads + Abort + AllocGlobal + Sync>(&self, rt: &R, step: u64, distance: u64) {
        let Meeting { first, held, ops } = *self;
        let gate = Weaving::new(step, distance, ops.len() as u64);
        let (tree, pass) = opened_flat(rt);
        let (pass, _) = play(rt, &tree, pass, first, false, &NoGate);
        let (zero, mut one) = parted(rt, &tree, pass, &[], &[]);
        one.relabel(1);
        let (shared, told) = (&tree, &gate);
        let ((zero, replies), (one, said)) = join(
            rt,
            move || play(rt, shared, zero, ops, false, told),
            move || play(rt, shared, one, &[held.0], held.1, told),
        );
        let pass = joined(rt, &tree, &[], zero, one);
        let met = (replies, said, close(rt, tree, pass, &[]));
        let woven = gate.woven().unwrap_or(0);
        let is_so = (0..=woven).any(|place| self.is_as_in_a_map(rt, place, &met));
        assert!(rt; 1 <= woven && is_so, "held at {step}");
    }

    // Whether a map gives these replies, and has these pairs then, if the held operation comes behind so many others.
    fn is_as_in_a_map(&self, rt: &(impl Abort + AllocGlobal), place: u64, met: &Met) -> bool {
        let ((replies, said, pairs), place) = (met, place as usize);
        assert!(rt; place <= self.ops.len() && place <= replies.len());
        let (done, left) = self.ops.split_at(place);
        let all = [self.first, done, &[self.held.0], left]
            .concat(rt.alloc())
            .expect(rt, "memory");
        let (before, behind) = replies.split_at(place);
        let wanted = [before, said.as_slice(), behind]
            .concat(rt.alloc())
            .expect(rt, "memory");
        let (answers, end) = apply_all(rt.alloc(), &all).ok().expect(rt, "memory");
        answers.ends_with(&wanted) && end == *pairs
    }
}

// Holds an operation before each of its steps in turn, while each of these lists is gone through.
fn hold_beside<R: Threads + Abort + AllocGlobal + Sync>(
    rt: &R,
    first: &[Op],
    held: (Op, bool),
    lists: &[[Op; 4]],
) {
    if !two_threads_meet(rt) {
        return;
    }
    for ops in lists {
        let meeting = Meeting { first, held, ops };
        for step in 1..=meeting.count_steps(rt) {
            for distance in [0, 1, 3] {
                meeting.hold(rt, step, distance);
            }
        }
    }
}

// An internal node over 12 and 14, whose block is 12 to 15. Other keys come in at the edge above it.
const EDGE: [Op; 2] = [Insert(12, 120), Insert(14, 140)];

#[test]
fn an_insert_that_is_held_lets_others_in_above_and_below(rt: HostRuntime) {
    let lists = [
        [Insert(20, 1), Insert(13, 2), Delete(12), Find(5)],
        [Insert(4, 1), Find(5), Delete(14), Delete(4)],
        [Insert(20, 1), Delete(20), Delete(12), Insert(7, 2)],
        [Delete(12), Delete(14), Find(5), Insert(14, 1)],
        [Insert(5, 1), Insert(20, 2), Delete(5), Find(5)],
    ];
    hold_beside(&rt, &EDGE, (Insert(5, 50), false), &lists);
}

// Of two inserts of 4 one adds it.
#[test]
fn a_search_that_is_held_below_an_edge_answers_absent_or_present_rightly(rt: HostRuntime) {
    let lists = [
        [Insert(5, 1), Insert(4, 2), Find(4), Delete(12)],
        [Insert(20, 1), Insert(4, 2), Delete(20), Delete(4)],
        [Insert(4, 1), Delete(12), Insert(5, 2), Delete(14)],
        [Insert(5, 1), Insert(4, 2), Delete(5), Insert(5, 3)],
    ];
    for held in [(Find(4), false), (Find(4), true), (Insert(4, 40), false)] {
        hold_beside(&rt, &EDGE, held, &lists);
    }
}

// The node of 5 came in above that of 12 and 14, and so that of 9 comes in between.
const ABOVE: [Op; 3] = [Insert(12, 120), Insert(14, 140), Insert(5, 50)];

#[test]
fn a_change_that_is_held_goes_on_where_edges_change_beside(rt: HostRuntime) {
    let lists = [
        [Insert(20, 1), Insert(9, 2), Delete(12), Delete(20)],
        [Insert(4, 1), Insert(20, 2), Delete(4), Find(5)],
        [Insert(9, 1), Delete(14), Delete(9), Delete(12)],
        [Delete(5), Insert(5, 1), Insert(20, 2), Find(9)],
    ];
    for held in [(Delete(5), false), (Insert(9, 90), false)] {
        hold_beside(&rt, &ABOVE, held, &lists);
    }
}
