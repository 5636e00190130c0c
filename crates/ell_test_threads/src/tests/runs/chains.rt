//! Chains of workers, each held in the middle of a delete behind the next, and one that passes and finishes what it finds.
use super::scenes::{
    AT_DCHILD, AT_DUNFLAG, AT_ICHILD, AT_IUNFLAG, AT_MARK, DELETE, HELP_DELETE, HELP_INSERT,
    HELP_UNMARKED, INSERT, Scene, play_all,
};
use ell_ops::Op::{Delete, Find, Insert};
use ell_test_gates::Until::Ends;
use ell_test_gates::four_threads_meet;

// The delete of 10 flags node 20 and marks node 10, the one of 5 flags node 10 and marks node 5, and so on down: each is in the way of
// the mark above it. A delete of 20 flags node 20 too. Keys 4, 3 and 2 are not there at the start.
//
// 20
// /  \
// 10    .
// /  \  / \
// 5   10 20 .
// / \
// 4   5
// / \
// 3   4
// / \
// 2   3
const START: [(u64, u64); 3] = [(5, 50), (10, 100), (20, 200)];

// Workers make their first inserts, one after the other; then workers 0, 1 and so on are held, and worker 4 passes.
// Told is what the last of those and worker 4 come to. Workers above the last one come to their marks later, and lose
// them as well.
const TWO: Scene = Scene {
    ops: &[Delete(10), Insert(4, 40), Delete(5), Delete(20)],
    owners: &[0, 4, 1, 4],
    turns: &[(4, Ends), (0, AT_MARK), (1, AT_MARK), (4, Ends)],
    cards: 32,
    tries: 8,
    late: 0,
    made: &[
        (1, &[DELETE]),
        (4, &[INSERT, HELP_UNMARKED, HELP_DELETE, DELETE]),
    ],
};

const THREE: Scene = Scene {
    ops: &[
        Delete(10),
        Delete(5),
        Insert(4, 40),
        Insert(3, 30),
        Delete(4),
        Delete(20),
    ],
    owners: &[0, 1, 2, 4, 2, 4],
    turns: &[
        (2, Ends),
        (4, Ends),
        (0, AT_MARK),
        (1, AT_MARK),
        (2, AT_MARK),
        (4, Ends),
    ],
    made: &[
        (2, &[INSERT, DELETE]),
        (
            4,
            &[INSERT, HELP_UNMARKED, HELP_UNMARKED, HELP_DELETE, DELETE],
        ),
    ],
    ..TWO
};

// The insert flags node 5.
const TO_INSERT: Scene = Scene {
    ops: &[
        Delete(10),
        Insert(4, 40),
        Delete(5),
        Insert(6, 60),
        Delete(20),
    ],
    owners: &[0, 4, 1, 2, 4],
    turns: &[
        (4, Ends),
        (0, AT_MARK),
        (1, AT_MARK),
        (2, AT_ICHILD),
        (4, Ends),
    ],
    made: &[
        (2, &[INSERT]),
        (
            4,
            &[INSERT, HELP_UNMARKED, HELP_UNMARKED, HELP_INSERT, DELETE],
        ),
    ],
    ..TWO
};

static CHAINS: [Scene; 8] = [
    TWO,
    THREE,
    Scene {
        turns: &[
            (2, Ends),
            (4, Ends),
            (0, AT_MARK),
            (1, AT_MARK),
            (2, AT_DCHILD),
            (4, Ends),
        ],
        ..THREE
    },
    Scene {
        turns: &[
            (2, Ends),
            (4, Ends),
            (0, AT_MARK),
            (1, AT_MARK),
            (2, AT_DUNFLAG),
            (4, Ends),
        ],
        ..THREE
    },
    // A find goes by all of them.
    Scene {
        ops: &[
            Delete(10),
            Delete(5),
            Insert(4, 40),
            Insert(3, 30),
            Delete(4),
            Find(3),
        ],
        made: &[(2, &[INSERT, DELETE]), (4, &[INSERT])],
        ..THREE
    },
    Scene {
        ops: &[
            Delete(10),
            Delete(5),
            Insert(4, 40),
            Insert(3, 30),
            Insert(2, 20),
            Delete(4),
            Delete(3),
            Delete(20),
        ],
        owners: &[0, 1, 2, 3, 4, 2, 3, 4],
        turns: &[
            (2, Ends),
            (3, Ends),
            (4, Ends),
            (0, AT_MARK),
            (1, AT_MARK),
            (2, AT_MARK),
            (3, AT_MARK),
            (4, Ends),
        ],
        made: &[
            (3, &[INSERT, DELETE]),
            (
                4,
                &[
                    INSERT,
                    HELP_UNMARKED,
                    HELP_UNMARKED,
                    HELP_UNMARKED,
                    HELP_DELETE,
                    DELETE,
                ],
            ),
        ],
        ..TWO
    },
    TO_INSERT,
    Scene {
        turns: &[
            (4, Ends),
            (0, AT_MARK),
            (1, AT_MARK),
            (2, AT_IUNFLAG),
            (4, Ends),
        ],
        ..TO_INSERT
    },
];

#[test]
fn who_passes_finishes_a_chain_of_deletes(rt: HostRuntime) {
    if four_threads_meet(&rt) {
        play_all(&rt, &START, &CHAINS);
    }
}
