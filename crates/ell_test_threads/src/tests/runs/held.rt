//! One worker that is held before a step, and another one that goes by.
use super::scenes::{
    AT_BACKTRACK, AT_DCHILD, AT_DFLAG, AT_DUNFLAG, AT_ICHILD, AT_IFLAG, AT_IUNFLAG, AT_MARK,
    DELETE, HELP_DELETE, HELP_INSERT, HELP_MARKED, HELP_UNMARKED, INSERT, LOST_CLAIM, LOST_DELETE,
    LOST_INSERT, LOST_MARK, Scene, play_all,
};
use ell_ops::Op::{Delete, Find, Insert};
use ell_test_gates::Until::{Comes, Ends};
use ell_test_gates::two_threads_meet;
use ell_tree::Exchange::{Claim, DChild, DFlag, DUnflag, IChild, IFlag, IUnflag, Mark};
use ell_tree::Kind::{Begin, Exchange, Fill, Look, Note};

// Worker 0 inserts and deletes 5, and worker 1 inserts 7, in an empty tree: at first both are to flag the root. Once 5
// is there, its parent is that of 7 too. Worker 0 is held until the operation of worker 1 has ended.
const STALL: Scene = Scene {
    ops: &[Insert(5, 50), Delete(5), Insert(7, 70)],
    owners: &[0, 0, 1],
    turns: &[(0, Comes(Begin, 1)), (1, Ends)],
    cards: 8,
    tries: 8,
    late: 0,
    made: &[(0, &[INSERT, DELETE]), (1, &[INSERT])],
};

static STALLS: [Scene; 12] = [
    STALL,
    Scene {
        turns: &[(0, Comes(Note, 1)), (1, Ends)],
        ..STALL
    },
    Scene {
        turns: &[(0, Comes(Look, 1)), (1, Ends)],
        ..STALL
    },
    // Worker 1 takes the card whose number worker 0 has read.
    Scene {
        turns: &[(0, Comes(Exchange(Claim), 1)), (1, Ends)],
        made: &[(0, &[LOST_CLAIM, INSERT, DELETE]), (1, &[INSERT])],
        ..STALL
    },
    Scene {
        turns: &[(0, Comes(Fill, 1)), (1, Ends)],
        made: &[(0, &[LOST_INSERT, INSERT, DELETE]), (1, &[INSERT])],
        ..STALL
    },
    Scene {
        turns: &[(0, Comes(Exchange(IFlag), 1)), (1, Ends)],
        made: &[(0, &[LOST_INSERT, INSERT, DELETE]), (1, &[INSERT])],
        ..STALL
    },
    Scene {
        turns: &[(0, Comes(Exchange(IChild), 1)), (1, Ends)],
        made: &[(0, &[INSERT, DELETE]), (1, &[HELP_INSERT, INSERT])],
        ..STALL
    },
    Scene {
        turns: &[(0, Comes(Exchange(IUnflag), 1)), (1, Ends)],
        ..STALL
    },
    // Worker 1 changes the parent that worker 0 is to mark.
    Scene {
        turns: &[(0, Comes(Exchange(DFlag), 1)), (1, Ends)],
        made: &[(0, &[INSERT, LOST_MARK, DELETE]), (1, &[INSERT])],
        ..STALL
    },
    Scene {
        turns: &[(0, Comes(Exchange(Mark), 1)), (1, Ends)],
        made: &[(0, &[INSERT, LOST_MARK, DELETE]), (1, &[INSERT])],
        ..STALL
    },
    Scene {
        turns: &[(0, Comes(Exchange(DChild), 1)), (1, Ends)],
        made: &[(0, &[INSERT, DELETE]), (1, &[HELP_MARKED, INSERT])],
        ..STALL
    },
    // A helper can't see that the mark and the child are done.
    Scene {
        turns: &[(0, Comes(Exchange(DUnflag), 1)), (1, Ends)],
        made: &[(0, &[INSERT, DELETE]), (1, &[HELP_DELETE, INSERT])],
        ..STALL
    },
];

#[test]
fn a_stalled_neighbor_holds_up_nobody(rt: HostRuntime) {
    if two_threads_meet(&rt) {
        play_all(&rt, &[], &STALLS);
    }
}

// Inserts of 4, 7 and 12 are to flag node 10. A delete of 5 is to flag node 20 and to mark node 10, and one of 20 to flag node 20
// and to mark the node on its right.
//
// 20
// /    \
// 10      .
// /  \    / \
// 5   10  20  .
const START: [(u64, u64); 3] = [(5, 50), (10, 100), (20, 200)];

// Worker 0 is held with a delete of 5, and worker 1 makes an operation meanwhile.
const HOLD: Scene = Scene {
    ops: &[Delete(5), Delete(20)],
    owners: &[0, 1],
    turns: &[(0, AT_MARK), (1, Ends)],
    cards: 8,
    tries: 8,
    late: 0,
    made: &[(0, &[DELETE]), (1, &[HELP_DELETE, DELETE])],
};

static HELD: [Scene; 10] = [
    HOLD,
    Scene {
        ops: &[Delete(5), Delete(10)],
        ..HOLD
    },
    Scene {
        ops: &[Delete(5), Find(10)],
        made: &[(0, &[DELETE]), (1, &[])],
        ..HOLD
    },
    // The parent is changed before it is marked.
    Scene {
        ops: &[Delete(5), Insert(7, 70)],
        made: &[(0, &[LOST_MARK, DELETE]), (1, &[INSERT])],
        ..HOLD
    },
    Scene {
        ops: &[Delete(5), Insert(7, 70)],
        turns: &[(0, AT_DCHILD), (1, Ends)],
        made: &[(0, &[DELETE]), (1, &[HELP_MARKED, INSERT])],
        ..HOLD
    },
    Scene {
        turns: &[(0, AT_DCHILD), (1, Ends)],
        ..HOLD
    },
    Scene {
        ops: &[Delete(5), Find(10)],
        turns: &[(0, AT_DCHILD), (1, Ends)],
        made: &[(0, &[DELETE]), (1, &[])],
        ..HOLD
    },
    Scene {
        ops: &[Delete(5), Insert(7, 70)],
        turns: &[(0, AT_DUNFLAG), (1, Ends)],
        made: &[(0, &[DELETE]), (1, &[HELP_DELETE, INSERT])],
        ..HOLD
    },
    Scene {
        turns: &[(0, AT_DUNFLAG), (1, Ends)],
        ..HOLD
    },
    Scene {
        ops: &[Delete(5), Find(10)],
        turns: &[(0, AT_DUNFLAG), (1, Ends)],
        made: &[(0, &[DELETE]), (1, &[])],
        ..HOLD
    },
];

#[test]
fn who_changes_the_set_finishes_a_delete_that_is_held(rt: HostRuntime) {
    if two_threads_meet(&rt) {
        play_all(&rt, &START, &HELD);
    }
}

// Worker 0 is held at a step, and worker 1 goes by.
const CROSSING: Scene = Scene {
    ops: &[Insert(4, 40), Insert(12, 120)],
    made: &[(0, &[INSERT]), (1, &[INSERT])],
    ..HOLD
};

// What a worker does when it goes on shows which steps the other one had made before: so a step that is told behind it
// is seen.
static CROSSINGS: [Scene; 9] = [
    // The update word of node 10, which worker 1 changes before it is read.
    Scene {
        turns: &[(0, Comes(Look, 7)), (1, Ends)],
        ..CROSSING
    },
    // The left child of node 10, in whose place a node for 7 comes first.
    Scene {
        ops: &[Insert(4, 40), Insert(7, 70)],
        turns: &[(0, Comes(Look, 9)), (1, Ends)],
        ..CROSSING
    },
    // The number of the next card, which worker 1 takes first.
    Scene {
        ops: &[Insert(4, 40), Insert(30, 300)],
        turns: &[(0, Comes(Look, 12)), (1, Ends)],
        ..CROSSING
    },
    // The flag of an insert, in whose place that of worker 1 stands.
    Scene {
        turns: &[(0, AT_IFLAG), (1, AT_ICHILD), (0, Ends)],
        made: &[(0, &[LOST_INSERT, HELP_INSERT, INSERT]), (1, &[INSERT])],
        ..CROSSING
    },
    // The unflag of an insert, whose flag others meet until it is taken away.
    Scene {
        turns: &[(0, AT_IUNFLAG), (1, Ends)],
        made: &[(0, &[INSERT]), (1, &[HELP_INSERT, INSERT])],
        ..CROSSING
    },
    // The flag of a delete, which worker 1 takes first.
    Scene {
        ops: &[Delete(5), Delete(20)],
        turns: &[(0, AT_DFLAG), (1, Ends)],
        made: &[(0, &[LOST_DELETE, DELETE]), (1, &[DELETE])],
        ..CROSSING
    },
    // The mark, in whose place the flag of an insert stands, or that of a delete.
    Scene {
        ops: &[Delete(5), Insert(12, 120)],
        turns: &[(0, AT_MARK), (1, AT_ICHILD), (0, Ends)],
        made: &[(0, &[LOST_MARK, HELP_INSERT, DELETE]), (1, &[INSERT])],
        ..CROSSING
    },
    Scene {
        ops: &[Delete(5), Insert(12, 120), Delete(12)],
        owners: &[0, 1, 1],
        turns: &[(1, Ends), (0, AT_MARK), (1, AT_MARK), (0, Ends)],
        made: &[
            (0, &[LOST_MARK, HELP_DELETE, DELETE]),
            (1, &[INSERT, DELETE]),
        ],
        ..CROSSING
    },
    // The flag of a delete that lost its mark, which is taken back, and which worker 1 meets first.
    Scene {
        ops: &[Delete(5), Insert(12, 120), Delete(20)],
        owners: &[0, 1, 1],
        turns: &[(0, AT_MARK), (1, Ends), (0, AT_BACKTRACK), (1, Ends)],
        made: &[
            (0, &[LOST_MARK, DELETE]),
            (1, &[INSERT, HELP_UNMARKED, DELETE]),
        ],
        ..CROSSING
    },
];

#[test]
fn a_step_is_told_before_it_is_made(rt: HostRuntime) {
    if two_threads_meet(&rt) {
        play_all(&rt, &START, &CROSSINGS);
    }
}
