//! The owner of a key, or of its neighbors, beside a worker that is held in the middle of a change.
use super::calling::KeyCall::{Add, Ask, Put, Take, Update};
use super::holding::{Meeting, Meetings, TO_DELETE, TO_INSERT, meet_all};
use ell_ops::Op::{Delete, Find, Insert, Swap};
use ell_ops::Reply::{Found, No, Yes};
use ell_tree::{Exchange, Kind};

// The owner of a key is held in the middle of a change, and its shared neighbors come and go beside.
const OWNER_ADDS: Meeting = Meeting {
    owned: &[5],
    by_zero: &[5],
    start: &[(6, 60)],
    held: &[(Ask(Insert(5, 50)), Yes)],
    rows: &[
        (Ask(Insert(4, 40)), Yes),
        (Ask(Delete(6)), Yes),
        (Ask(Find(4)), Found(40)),
        (Ask(Insert(6, 61)), Yes),
        (Ask(Delete(4)), Yes),
        (Ask(Insert(4, 41)), Yes),
        (Ask(Delete(4)), Yes),
        (Ask(Insert(7, 70)), Yes),
    ],
    end: &[(5, 50), (6, 61), (7, 70)],
};

const OWNER_DELETES: Meeting = Meeting {
    start: &[(4, 40), (5, 50), (6, 60)],
    held: &[(Ask(Delete(5)), Yes)],
    rows: &[
        (Ask(Delete(4)), Yes),
        (Ask(Insert(4, 41)), Yes),
        (Ask(Delete(6)), Yes),
        (Ask(Find(6)), No),
        (Ask(Delete(4)), Yes),
        (Ask(Insert(6, 61)), Yes),
    ],
    end: &[(6, 61)],
    ..OWNER_ADDS
};

// So is one that takes its key, or gives it another value: it answers the value that was there.
const OWNER_TAKES: Meeting = Meeting {
    held: &[(Take(5), Found(50))],
    ..OWNER_DELETES
};

const OWNER_PUTS: Meeting = Meeting {
    held: &[(Put(5, 51), Found(50))],
    end: &[(5, 51), (6, 61)],
    ..OWNER_DELETES
};

const OWNER_SWAPS: Meeting = Meeting {
    held: &[(Ask(Swap(5, 50, 51)), Found(50))],
    ..OWNER_PUTS
};

const OWNER_SUMS: Meeting = Meeting {
    held: &[(Add(5, 1), Found(50))],
    ..OWNER_PUTS
};

const OWNER_UPDATES: Meeting = Meeting {
    held: &[(Update(5), Found(50))],
    end: &[(5, 151), (6, 61)],
    ..OWNER_PUTS
};

// A shared key is being changed by a worker that is held, and the owner of the neighbors is answered as by a private
// map.
const GUEST_ADDS: Meeting = Meeting {
    by_zero: &[],
    owned: &[4, 6],
    end: &[(5, 50), (6, 61)],
    rows: &[
        (Ask(Insert(4, 40)), Yes),
        (Ask(Delete(6)), Yes),
        (Ask(Delete(6)), No),
        (Ask(Find(4)), Found(40)),
        (Ask(Insert(6, 61)), Yes),
        (Ask(Insert(6, 62)), No),
        (Ask(Delete(4)), Yes),
        (Ask(Find(4)), No),
    ],
    ..OWNER_ADDS
};

const GUEST_DELETES: Meeting = Meeting {
    by_zero: &[],
    owned: &[4, 6],
    ..OWNER_DELETES
};

const BEHIND_AN_INSERT: [Kind; 2] = [
    Kind::Exchange(Exchange::IChild),
    Kind::Exchange(Exchange::IUnflag),
];

const BEHIND_A_DELETE: [Kind; 3] = [
    Kind::Exchange(Exchange::Mark),
    Kind::Exchange(Exchange::DChild),
    Kind::Exchange(Exchange::DUnflag),
];

static NEIGHBORS: [Meetings<'static>; 13] = [
    (&TO_INSERT, 8, OWNER_ADDS),
    (&TO_INSERT, 8, GUEST_ADDS),
    (&BEHIND_AN_INSERT, 8, OWNER_ADDS),
    (&BEHIND_AN_INSERT, 8, GUEST_ADDS),
    (&TO_DELETE, 6, OWNER_DELETES),
    (&TO_DELETE, 6, GUEST_DELETES),
    (&BEHIND_A_DELETE, 6, OWNER_DELETES),
    (&BEHIND_A_DELETE, 6, GUEST_DELETES),
    (&BEHIND_A_DELETE, 6, OWNER_TAKES),
    (&BEHIND_AN_INSERT, 6, OWNER_PUTS),
    (&BEHIND_AN_INSERT, 6, OWNER_SWAPS),
    (&BEHIND_AN_INSERT, 6, OWNER_SUMS),
    (&BEHIND_AN_INSERT, 6, OWNER_UPDATES),
];

#[test]
fn shared_neighbors_come_and_go_beside_an_owner_that_is_held(rt: HostRuntime) {
    meet_all(&rt, &NEIGHBORS);
}
