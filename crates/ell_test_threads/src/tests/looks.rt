//! Looks for any key of a tree, whoever owns it: alone, and beside an owner who changes it, where a gate lets one of both go on at a time.
use super::calling::KeyCall::{Ask, Look};
use super::holding::{Meeting, meet_in_turns, play};
use super::parting::parted;
use super::telling::opened_for;
use ell_ops::KEY_MAX;
use ell_ops::Op::{Delete, Find, Insert};
use ell_ops::Reply::{self, Found, No, Yes};
use ell_test_gates::Until::{Comes, Ends};
use ell_test_gates::{Counting, WorkerTurn, two_threads_meet};
use ell_tree::Exchange::{Claim, DChild, DFlag, DUnflag, IChild, IFlag, IUnflag, Mark};
use ell_tree::Kind::{self, Begin, Exchange, Fill, Note};
use ell_tree::NoGate;

// Inserts of 4 and 7 are to flag node 10, and a delete of 5 is to flag node 20 and to mark node 10, which it cuts out.
//
// 20
// /    \
// 10      .
// /  \    / \
// 5   10  20  .
const START: [(u64, u64); 3] = [(5, 50), (10, 100), (20, 200)];

// The keys that have an owner. Others are shared.
const KEYS: [u64; 5] = [4, 5, 7, 10, 20];

#[test]
fn a_look_tells_any_key(rt: HostRuntime) {
    let gate = Counting::new(rt.alloc(), 4, NoGate).expect(&rt, "memory");
    let (tree, pass) = opened_for(&rt, &START, &KEYS, 4);
    let (owner, mut reader) = parted(&rt, &tree, pass, &KEYS, &KEYS);
    reader.relabel(3);
    let rows = [
        (Look(5), Found(50)),
        (Look(10), Found(100)),
        (Look(20), Found(200)),
        (Look(7), No),
        (Look(30), No),
        (Look(KEY_MAX), No),
    ];
    let reader = play(&rt, &tree, reader, &KEYS, &gate, &rows);
    // The root's left child, two words at each other inner node, the key of the leaf, and if that is the look's, the value.
    let words = 3 * 7 + 3 * 6;
    assert!(rt; gate.count(3, Kind::Look) == words && gate.tally(3).steps == words);
    let rows = [(Ask(Insert(7, 70)), Yes), (Ask(Delete(10)), Yes)];
    let owner = play(&rt, &tree, owner, &KEYS, &NoGate, &rows);
    let rows = [(Look(7), Found(70)), (Look(10), No), (Look(20), Found(200))];
    play(&rt, &tree, reader, &KEYS, &NoGate, &rows);
    play(&rt, &tree, owner, &KEYS, &NoGate, &rows);
}

// Where the owner is held, and what is found then of its key.
type Held = (Kind, Reply);

const AT_ITS_INSERT: [Held; 8] = [
    (Begin, No),
    (Note, No),
    (Kind::Look, No),
    (Exchange(Claim), No),
    (Fill, No),
    (Exchange(IFlag), No),
    (Exchange(IChild), No),
    (Exchange(IUnflag), Found(40)),
];

const AT_ITS_DELETE: [Held; 9] = [
    (Begin, Found(50)),
    (Note, Found(50)),
    (Kind::Look, Found(50)),
    (Exchange(Claim), Found(50)),
    (Fill, Found(50)),
    (Exchange(DFlag), Found(50)),
    (Exchange(Mark), Found(50)),
    (Exchange(DChild), Found(50)),
    (Exchange(DUnflag), No),
];

// Worker 0, which owns all keys that have owners, deletes 5, and worker 1 looks for it. What worker 1 does behind the last turn
// finds what worker 0 leaves.
const DELETES: Meeting = Meeting {
    owned: &KEYS,
    by_zero: &KEYS,
    start: &START,
    held: &[(Ask(Delete(5)), Yes)],
    rows: &[(Look(5), No)],
    end: &[(10, 100), (20, 200)],
};

// It inserts 4.
const INSERTS: Meeting = Meeting {
    held: &[(Ask(Insert(4, 40)), Yes)],
    rows: &[(Look(4), Found(40))],
    end: &[(4, 40), (5, 50), (10, 100), (20, 200)],
    ..DELETES
};

// Worker 1 looks between two finds of a shared key, since a gate is not told when a look has ended.
#[test]
fn a_look_goes_past_an_owner_that_is_held(rt: HostRuntime) {
    if !two_threads_meet(&rt) {
        return;
    }
    let find = (Ask(Find(30)), No);
    for (kind, there) in AT_ITS_INSERT {
        let (fifty, forty) = ((Look(5), Found(50)), (Look(4), Found(40)));
        let rows = [find, (Look(4), there), fifty, find, forty];
        let turns = [(0, Comes(kind, 1)), (1, Ends), (1, Ends), (0, Ends)];
        meet_in_turns(
            &rt,
            &turns,
            Meeting {
                rows: &rows,
                ..INSERTS
            },
        );
    }
    for (kind, there) in AT_ITS_DELETE {
        let (hundred, none) = ((Look(10), Found(100)), (Look(5), No));
        let rows = [find, (Look(5), there), hundred, find, none];
        let turns = [(0, Comes(kind, 1)), (1, Ends), (1, Ends), (0, Ends)];
        meet_in_turns(
            &rt,
            &turns,
            Meeting {
                rows: &rows,
                ..DELETES
            },
        );
    }
}

type Scene<'a> = (&'a [WorkerTurn], Meeting<'a>);

// The reader is held before a step of its look: the first three bring it to node 10, the fourth reads that node's key, the fifth
// brings it to a leaf, the sixth reads the key there, and the seventh the value.
static SCENES: [Scene<'static>; 7] = [
    // Before its first step.
    (&[(1, Comes(Kind::Look, 1)), (0, Ends)], DELETES),
    // At node 10, which is cut out: 5 was there when the look began.
    (
        &[(1, Comes(Kind::Look, 5)), (0, Ends)],
        Meeting {
            rows: &[(Look(5), Found(50)), (Look(5), No)],
            ..DELETES
        },
    ),
    // At node 10, which is marked when the look begins, and cut out before it ends.
    (
        &[
            (0, Comes(Exchange(DChild), 1)),
            (1, Comes(Kind::Look, 5)),
            (0, Ends),
        ],
        Meeting {
            rows: &[(Look(5), Found(50)), (Look(5), No)],
            ..DELETES
        },
    ),
    // At node 10, which is cut out, and then 7 comes elsewhere: it was not there when the look began.
    (
        &[(1, Comes(Kind::Look, 5)), (0, Ends), (0, Ends)],
        Meeting {
            held: &[(Ask(Delete(5)), Yes), (Ask(Insert(7, 70)), Yes)],
            rows: &[(Look(7), No), (Look(7), Found(70))],
            end: &[(7, 70), (10, 100), (20, 200)],
            ..DELETES
        },
    ),
    // At node 10, which is cut out, and 5 comes again with another value.
    (
        &[(1, Comes(Kind::Look, 5)), (0, Ends), (0, Ends)],
        Meeting {
            held: &[(Ask(Delete(5)), Yes), (Ask(Insert(5, 55)), Yes)],
            rows: &[(Look(5), Found(50)), (Look(5), Found(55))],
            end: &[(5, 55), (10, 100), (20, 200)],
            ..DELETES
        },
    ),
    // At node 10, below which 4 comes.
    (&[(1, Comes(Kind::Look, 5)), (0, Ends)], INSERTS),
    // At the leaf in whose place 4 comes: it was not there when the look began.
    (
        &[(1, Comes(Kind::Look, 6)), (0, Ends)],
        Meeting {
            rows: &[(Look(4), No), (Look(4), Found(40))],
            ..INSERTS
        },
    ),
];

#[test]
fn a_look_that_is_held_finds_what_was_so_meanwhile(rt: HostRuntime) {
    if two_threads_meet(&rt) {
        for (turns, meeting) in &SCENES {
            meet_in_turns(&rt, turns, *meeting);
        }
    }
}
