//! Runs with few cards or few tries: how many operations are done after the workers have ended.
use super::scenes::{
    AT_CLAIM, AT_ICHILD, AT_IFLAG, AT_MARK, HELP_INSERT, INSERT, LOST_CLAIM, LOST_INSERT,
    LOST_MARK, Scene, play_all,
};
use ell_ops::Op::{Delete, Find, Insert};
use ell_test_gates::Until::{Comes, Ends};
use ell_test_gates::{four_threads_meet, two_threads_meet};
use ell_tree::Kind::Fill;

// Worker 0 is held at the child of its insert. Worker 1 makes that step for it, and then has no card left.
const NO_CARD: Scene = Scene {
    ops: &[Insert(5, 50), Insert(7, 70)],
    owners: &[0, 1],
    turns: &[(0, AT_ICHILD), (1, Ends)],
    cards: 1,
    tries: 8,
    late: 1,
    made: &[(0, &[INSERT]), (1, &[HELP_INSERT])],
};

// Worker 0 has card 1 in hand. If there is a second card, worker 1 takes it, and the flag is lost: no card is left for another try.
const ONE_LEFT: Scene = Scene {
    ops: &[Insert(5, 50), Insert(7, 70), Find(5), Insert(9, 90)],
    owners: &[0, 1, 0, 1],
    turns: &[(0, Comes(Fill, 1)), (1, Ends), (1, Ends)],
    cards: 2,
    tries: 1_000,
    late: 3,
    made: &[(0, &[LOST_INSERT]), (1, &[INSERT])],
};

static FEW: [Scene; 9] = [
    NO_CARD,
    // With one try that help was all; with two nothing is late.
    Scene {
        cards: 8,
        tries: 1,
        ..NO_CARD
    },
    Scene {
        cards: 8,
        tries: 2,
        late: 0,
        made: &[(0, &[INSERT]), (1, &[HELP_INSERT, INSERT])],
        ..NO_CARD
    },
    // The one worker takes the one card.
    Scene {
        ops: &[Insert(5, 50), Insert(6, 60), Find(5)],
        owners: &[0, 0, 0],
        turns: &[],
        late: 2,
        made: &[(0, &[INSERT])],
        ..NO_CARD
    },
    // Worker 0 has read the number of the one card, which worker 1 takes.
    Scene {
        turns: &[(0, AT_CLAIM), (1, Ends)],
        made: &[(0, &[LOST_CLAIM]), (1, &[INSERT])],
        ..NO_CARD
    },
    ONE_LEFT,
    Scene {
        turns: &[(0, AT_IFLAG), (1, Ends), (1, Ends)],
        ..ONE_LEFT
    },
    // If there is none, worker 1 leaves all.
    Scene {
        turns: &[(0, Comes(Fill, 1)), (1, Ends)],
        cards: 1,
        late: 2,
        made: &[(0, &[INSERT]), (1, &[])],
        ..ONE_LEFT
    },
    // Worker 0 has card 2 for its delete; worker 1 takes card 3, the last. So worker 0 finds no card for another try.
    Scene {
        ops: &[
            Insert(5, 50),
            Delete(5),
            Insert(7, 70),
            Insert(9, 90),
            Find(7),
        ],
        owners: &[0, 0, 1, 1, 1],
        turns: &[(0, AT_MARK), (1, Ends), (1, Ends)],
        cards: 3,
        tries: 1_000,
        late: 3,
        made: &[(0, &[INSERT, LOST_MARK]), (1, &[INSERT])],
    },
];

#[test]
fn as_many_operations_are_late_as_a_person_worked_out(rt: HostRuntime) {
    if two_threads_meet(&rt) {
        play_all(&rt, &[], &FEW);
    }
}

// Worker 0 is held at the mark of its delete until five operations of the others have ended.
static CROWD: [Scene; 1] = [Scene {
    ops: &[
        Insert(5, 50),
        Insert(7, 70),
        Insert(9, 90),
        Delete(5),
        Delete(9),
        Insert(11, 110),
        Find(7),
        Insert(5, 55),
    ],
    owners: &[0, 1, 2, 0, 2, 3, 1, 0],
    turns: &[
        (0, AT_MARK),
        (1, Ends),
        (2, Ends),
        (3, Ends),
        (1, Ends),
        (2, Ends),
    ],
    cards: 1_000,
    tries: 1_000,
    late: 0,
    made: &[(1, &[INSERT])],
}];

#[test]
fn three_workers_go_by_one_at_its_mark(rt: HostRuntime) {
    if four_threads_meet(&rt) {
        play_all(&rt, &[], &CROWD);
    }
}
