//! A run that finds its start keys.
use super::running::run_from;
use ell_ops::Op::{self, Find};
use ell_parts::Parts;
use ell_test_gates::{Counting, Tally};
use ell_tree::{Kind, NoGate};

const EIGHT: [(u64, u64); 8] = [
    (1, 10),
    (2, 20),
    (3, 30),
    (4, 40),
    (5, 50),
    (6, 60),
    (7, 70),
    (8, 80),
];

const FINDS: [Op; 8] = [
    Find(1),
    Find(2),
    Find(3),
    Find(4),
    Find(5),
    Find(6),
    Find(7),
    Find(8),
];

// A search reads three words at each inner node, and the key and the value of its leaf. Over eight start keys and the leaf behind them
// the first seven leaves stand below four inner nodes, the root among them, and the eighth below five. Inserts of these keys in
// their order would leave the eighth below nine.
#[test]
fn a_run_finds_its_start_keys_in_a_balanced_tree(rt: HostRuntime) {
    let gate = Counting::new(rt.alloc(), 1, NoGate).expect(&rt, "memory");
    let parts = Parts::striped(rt.alloc(), &FINDS, 1).expect(&rt, "parts");
    let outcome = run_from(&rt, &EIGHT, &FINDS, &parts, (1, 1), &gate);
    let looks = 7 * (3 * 4 + 2) + (3 * 5 + 2);
    let notes = 2 * 8;
    let told = Tally {
        begun: 8,
        steps: looks + notes,
        ended_behind: looks + notes,
        answered: 8,
        not_done: 0,
    };
    let is_told = gate.tally(0) == told && gate.count(0, Kind::Look) == looks;
    assert!(rt; outcome.late == 0 && is_told);
}
