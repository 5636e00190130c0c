//! What a gate is told of each operation of one thread.
ghost use Rattle.std.specs.Prelude.{◌≡◌};
ghost use Rattle.ell_tree.specs.Ledgers.{IsIdle};

use ell_ops::Op::{self, Delete, Find, Insert, Swap};
use ell_ops::Reply::{self, Found, No, Yes};
use ell_test_gates::{Counting, Tally};
use ell_tree::Kind::{Fill, Look, Note};
use ell_tree::{NoGate, NotDone, Pass, StepGate, Tree};
use std::alloc::Global;
use std::process::Abort;

// An operation, how it is to end, how many steps of it are notes, looks and fills, and how many are exchanges.
type Told = ((Op, Result<Reply, NotDone>), [u64; 3], u64);

// A search reads three words at each inner node, one or two of them, and the key and the value of the leaf. A change then reads the
// number of the next card. A card of an insert or a swap has ten words, and one of a delete four. Behind its flag an insert reads
// the key of the parent, and behind its mark a delete the leaf, the right child, and the keys of the sibling and of the grandparent.
const ROWS: [Told; 8] = [
    ((Find(5), Ok(No)), [2, 5, 0], 0),
    ((Insert(5, 50), Ok(Yes)), [2, 7, 10], 4),
    ((Insert(5, 55), Ok(No)), [2, 8, 0], 0),
    ((Swap(5, 55, 56), Ok(Found(50))), [2, 8, 0], 0),
    ((Swap(5, 50, 51), Ok(Found(50))), [2, 10, 10], 4),
    ((Delete(7), Ok(No)), [2, 8, 0], 0),
    ((Delete(5), Ok(Yes)), [2, 13, 4], 5),
    ((Insert(7, 70), Err(NotDone::Spent)), [2, 6, 0], 0),
];

// Does an operation on a key of the pass, in one try.
fn ask<G: StepGate>(
    rt: &impl Abort,
    tree: &Tree<Global>,
    pass: &mut Pass<Global>,
    op: Op,
    gate: &G,
) -> Result<Reply, NotDone>
    requires own { pass.old.table ≡ tree.now.id }
    requires idle { IsIdle pass.old }
    ensures own { pass.new.table ≡ tree.now.id }
    ensures idle { IsIdle pass.new }
{
    assert!(rt; pass.owns(op.key()));
    match op {
        Op::Find(key) => Ok(Reply::found(tree.find(pass, key, gate))),
        Op::Insert(key, value) => Ok(Reply::yes_if(tree.insert(pass, key, value, 1, gate)?)),
        Op::Delete(key) => Ok(Reply::yes_if(tree.delete(pass, key, 1, gate)?)),
        Op::Swap(key, was, value) => {
            Ok(Reply::found(tree.swap(pass, key, was, value, 1, gate)?))
        }
    }
}

// What is to be told after one operation more, which ended behind the last of its steps.
fn told_more(told: Tally, steps: u64, is_answered: bool) -> Tally {
    let steps = told.steps.wrapping_add(steps);
    Tally {
        begun: told.begun.wrapping_add(1),
        steps,
        ended_behind: steps,
        answered: told.answered.wrapping_add(is_answered as u64),
        not_done: told.not_done.wrapping_add(!is_answered as u64),
    }
}

// Notes, looks and fills of which a gate was told.
fn kinds_told(gate: &Counting<NoGate>) -> [u64; 3] {
    [
        gate.count(7, Note),
        gate.count(7, Look),
        gate.count(7, Fill),
    ]
}

fn more(all: [u64; 3], one: &[u64; 3]) -> [u64; 3] {
    [
        all[0].wrapping_add(one[0]),
        all[1].wrapping_add(one[1]),
        all[2].wrapping_add(one[2]),
    ]
}

#[test]
fn a_gate_is_told_each_step_and_each_end(rt: HostRuntime) {
    let gate = Counting::new(rt.alloc(), 8, NoGate).expect(&rt, "memory");
    let (tree, mut pass) = Tree::reserve(rt.alloc(), &[5, 7], 3).expect(&rt, "tree");
    pass.relabel(7);
    let (mut want, mut all) = (Tally::default(), [0; 3]);
    for (number, ((op, ended), kinds, exchanges)) in ROWS.iter().enumerate() {
        let said = ask(&rt, &tree, &mut pass, *op, &gate);
        let steps = exchanges
            .wrapping_add(kinds[0])
            .wrapping_add(kinds[1])
            .wrapping_add(kinds[2]);
        want = told_more(want, steps, ended.is_ok());
        all = more(all, kinds);
        let is_told = gate.tally(7) == want && kinds_told(&gate) == all;
        assert!(rt;
            said == *ended && is_told && pass.steps() == want.steps,
            "operation {number}"
        );
    }
}
