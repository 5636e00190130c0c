//! Two workers that make the same call on one key at once, again and again: just one of them changes the map each time.
use super::calling::KeyCall::{self, Ask, Take};
use super::calling::{TRIES, close, run};
use super::parting::{joined, parted};
use super::telling::opened_for;
use ell_ops::Op::{Delete, Insert};
use ell_ops::Reply;
use ell_ops::Reply::{Found, No, Yes};
use ell_test_gates::{Gathering, two_threads_meet};
use ell_tree::{Exchange, Kind, NotDone};
use std::process::Abort;
use std::thread::{Threads, join};

// How often each race is run.
const RACES: u32 = 50;

// What both calls of a race answer, and the keys at the end with their values.
type Raced = (
    Result<Reply, NotDone>,
    Result<Reply, NotDone>,
    Vec<(u64, u64)>,
);

// Two workers come to a kind of step, and go on at once.
fn race<R: Threads + Abort + AllocGlobal + Sync>(
    rt: &R,
    at: Kind,
    start: &[(u64, u64)],
    calls: (KeyCall, KeyCall),
) -> Raced {
    let gate = Gathering::at(rt.alloc(), at, 2).expect(rt, "memory");
    let (tree, pass) = opened_for(rt, start, &[], 100);
    let (one, mut other) = parted(rt, &tree, pass, &[], &[]);
    other.relabel(1);
    let (shared, told) = (&tree, &gate);
    let ((one, said), (other, also)) = join(
        rt,
        move || run(rt, shared, one, calls.0, TRIES, told),
        move || run(rt, shared, other, calls.1, TRIES, told),
    );
    assert!(rt; gate.has_gathered());
    let pass = joined(rt, &tree, &[], one, other);
    (said, also, close(rt, tree, pass, &[]))
}

const TO_ADD: [Kind; 6] = [
    Kind::Begin,
    Kind::Look,
    Kind::Exchange(Exchange::Claim),
    Kind::Fill,
    Kind::Exchange(Exchange::IFlag),
    Kind::Exchange(Exchange::IChild),
];

// Has two inserts add key 5 at once, again and again: each time one says yes, whose value is there.
fn add_at_once<R: Threads + Abort + AllocGlobal + Sync>(rt: &R, at: Kind) {
    for _ in 0..RACES {
        let raced = race(rt, at, &[], (Ask(Insert(5, 50)), Ask(Insert(5, 51))));
        let value = if is_race(&raced, (Yes, No)) { 50 } else { 51 };
        assert!(rt;
            (value == 50 || is_race(&raced, (No, Yes)))
                && raced.2.as_slice() == [(5, value)].as_slice(),
            "not one of both at {at:?}"
        );
    }
}

#[test]
fn of_two_inserts_at_once_one_adds_the_key(rt: HostRuntime) {
    if !two_threads_meet(&rt) {
        return;
    }
    for at in &TO_ADD {
        add_at_once(&rt, *at);
    }
}

const START: [(u64, u64); 2] = [(5, 50), (6, 60)];

const TO_TAKE_AWAY: [Kind; 7] = [
    Kind::Begin,
    Kind::Look,
    Kind::Exchange(Exchange::Claim),
    Kind::Fill,
    Kind::Exchange(Exchange::DFlag),
    Kind::Exchange(Exchange::Mark),
    Kind::Exchange(Exchange::DChild),
];

// Two calls that take key 5 away, and what each answers if it does.
type Rivals = ((KeyCall, KeyCall), (Reply, Reply));

const RIVALS: [Rivals; 3] = [
    ((Ask(Delete(5)), Ask(Delete(5))), (Yes, Yes)),
    ((Take(5), Take(5)), (Found(50), Found(50))),
    ((Take(5), Ask(Delete(5))), (Found(50), Yes)),
];

#[test]
fn of_two_takes_or_deletes_at_once_one_takes_the_key_away(rt: HostRuntime) {
    if !two_threads_meet(&rt) {
        return;
    }
    for (calls, wants) in &RIVALS {
        for at in &TO_TAKE_AWAY {
            take_away(&rt, *at, *calls, [(wants.0, No), (No, wants.1)]);
        }
    }
}

// Whether both calls of a race were answered so.
fn is_race(raced: &Raced, want: (Reply, Reply)) -> bool {
    raced.0 == Ok(want.0) && raced.1 == Ok(want.1)
}

// Has two calls take key 5 away again and again: each time both answer as one of these rows says.
fn take_away<R: Threads + Abort + AllocGlobal + Sync>(
    rt: &R,
    at: Kind,
    calls: (KeyCall, KeyCall),
    wants: [(Reply, Reply); 2],
) {
    for _ in 0..RACES {
        let raced = race(rt, at, &START, calls);
        let is_one = is_race(&raced, wants[0]) || is_race(&raced, wants[1]);
        assert!(rt;
            is_one && raced.2.as_slice() == [(6, 60)].as_slice(),
            "not one of both at {at:?}"
        );
    }
}
