//! Swaps, puts, sums and removals of one key, each held at each kind of step in turn, while another worker changes the
//! key.
use super::calling::KeyCall::{Add, Ask, Look, Put, RemoveIf, Take};
use super::holding::{Meeting, Meetings, TO_INSERT, meet_all};
use ell_ops::Op::{Delete, Find, Insert, Swap};
use ell_ops::Reply::{Found, No, Yes};
use ell_tree::{Exchange, Kind};

// The kinds of the steps of a call that finds the value first, once it has found it.
pub const ONCE_FOUND: [Kind; 3] = [
    Kind::Exchange(Exchange::Claim),
    Kind::Fill,
    Kind::Exchange(Exchange::IFlag),
];

// Worker 0 has not flagged yet: it is as if its swap began behind the others, whose value it finds.
const BEFORE_ITS_FLAG: Meeting = Meeting {
    owned: &[],
    by_zero: &[],
    start: &[(3, 30), (5, 50), (7, 70)],
    held: &[(Ask(Swap(5, 50, 55)), Found(53))],
    rows: &[
        (Ask(Find(5)), Found(50)),
        (Ask(Swap(5, 50, 51)), Found(50)),
        (Put(5, 52), Found(51)),
        (Ask(Delete(5)), Yes),
        (Ask(Insert(5, 53)), Yes),
        (Ask(Find(5)), Found(53)),
    ],
    end: &[(3, 30), (5, 53), (7, 70)],
};

// The value goes and comes back.
const BACK_AGAIN: Meeting = Meeting {
    held: &[(Ask(Swap(5, 50, 55)), Found(50))],
    rows: &[
        (Ask(Swap(5, 50, 51)), Found(50)),
        (Ask(Find(5)), Found(51)),
        (Ask(Swap(5, 51, 50)), Found(51)),
        (Ask(Find(5)), Found(50)),
    ],
    end: &[(3, 30), (5, 55), (7, 70)],
    ..BEFORE_ITS_FLAG
};

// The key goes.
const GONE: Meeting = Meeting {
    held: &[(Ask(Swap(5, 50, 55)), No)],
    rows: &[
        (Ask(Swap(5, 50, 51)), Found(50)),
        (Take(5), Found(51)),
        (Ask(Find(5)), No),
    ],
    end: &[(3, 30), (7, 70)],
    ..BEFORE_ITS_FLAG
};

// It comes back with its old value.
const ANEW: Meeting = Meeting {
    held: &[(Ask(Swap(5, 50, 55)), Found(50))],
    rows: &[
        (Ask(Delete(5)), Yes),
        (Ask(Swap(5, 50, 51)), No),
        (Ask(Insert(5, 50)), Yes),
    ],
    end: &[(3, 30), (5, 55), (7, 70)],
    ..BEFORE_ITS_FLAG
};

static A_SWAP: [Meetings<'static>; 4] = [
    (&TO_INSERT, 7, BEFORE_ITS_FLAG),
    (&TO_INSERT, 4, BACK_AGAIN),
    (&TO_INSERT, 3, GONE),
    (&TO_INSERT, 3, ANEW),
];

#[test]
fn a_swap_goes_by_the_value_that_the_key_has_last(rt: HostRuntime) {
    meet_all(&rt, &A_SWAP);
}

// Its flag stands: another swap makes its exchange for it, and finds its value.
const BEHIND_ITS_FLAG: Meeting = Meeting {
    held: &[(Ask(Swap(5, 50, 55)), Found(50))],
    rows: &[
        (Ask(Find(5)), Found(50)),
        (Ask(Insert(5, 51)), No),
        (Ask(Swap(5, 51, 52)), Found(50)),
        (Ask(Swap(5, 50, 52)), Found(55)),
        (Ask(Find(5)), Found(55)),
        (Ask(Swap(5, 55, 56)), Found(55)),
        (Ask(Find(5)), Found(56)),
    ],
    end: &[(3, 30), (5, 56), (7, 70)],
    ..BEFORE_ITS_FLAG
};

// A delete makes it, and takes its value away.
const HELPED_BY_A_TAKE: Meeting = Meeting {
    rows: &[
        (Ask(Find(5)), Found(50)),
        (Take(5), Found(55)),
        (Ask(Find(5)), No),
        (Ask(Insert(5, 51)), Yes),
    ],
    end: &[(3, 30), (5, 51), (7, 70)],
    ..BEHIND_ITS_FLAG
};

// An insert of a neighbor makes it.
const HELPED_BY_AN_INSERT: Meeting = Meeting {
    rows: &[(Ask(Insert(6, 60)), Yes), (Ask(Find(5)), Found(55))],
    end: &[(3, 30), (5, 55), (6, 60), (7, 70)],
    ..BEHIND_ITS_FLAG
};

// A put makes it, and puts its own value there: it finds the old one first, meets the flag, finds the new one, and
// replaces that.
const HELPED_BY_A_PUT: Meeting = Meeting {
    rows: &[(Put(5, 52), Found(55)), (Ask(Find(5)), Found(52))],
    end: &[(3, 30), (5, 52), (7, 70)],
    ..BEHIND_ITS_FLAG
};

// So does a sum.
const HELPED_BY_A_SUM: Meeting = Meeting {
    rows: &[(Add(5, 7), Found(55)), (Ask(Find(5)), Found(62))],
    end: &[(3, 30), (5, 62), (7, 70)],
    ..BEHIND_ITS_FLAG
};

// Its exchange is made.
const BEHIND_ITS_EXCHANGE: Meeting = Meeting {
    rows: &[
        (Ask(Find(5)), Found(55)),
        (Look(5), Found(55)),
        (Ask(Swap(5, 50, 51)), Found(55)),
        (Ask(Swap(5, 55, 56)), Found(55)),
        (Put(5, 57), Found(56)),
        (Take(5), Found(57)),
        (Ask(Insert(5, 58)), Yes),
    ],
    end: &[(3, 30), (5, 58), (7, 70)],
    ..BEHIND_ITS_FLAG
};

const AT_ITS_CHILD: [Kind; 1] = [Kind::Exchange(Exchange::IChild)];

static PAST_A_SWAP: [Meetings<'static>; 6] = [
    (&AT_ITS_CHILD, 7, BEHIND_ITS_FLAG),
    (&AT_ITS_CHILD, 4, HELPED_BY_A_TAKE),
    (&AT_ITS_CHILD, 2, HELPED_BY_AN_INSERT),
    (&AT_ITS_CHILD, 5, HELPED_BY_A_PUT),
    (&AT_ITS_CHILD, 5, HELPED_BY_A_SUM),
    (&[Kind::Exchange(Exchange::IUnflag)], 7, BEHIND_ITS_EXCHANGE),
];

#[test]
fn others_go_past_a_swap_of_their_key(rt: HostRuntime) {
    meet_all(&rt, &PAST_A_SWAP);
}

// Others change the key between the find of a put, an update or a sum and its flag.
const PUTS: Meeting = Meeting {
    held: &[(Put(5, 55), Found(51))],
    rows: &[(Ask(Find(5)), Found(50)), (Ask(Swap(5, 50, 51)), Found(50))],
    end: &[(3, 30), (5, 55), (7, 70)],
    ..BEFORE_ITS_FLAG
};

const ADDS: Meeting = Meeting {
    held: &[(Add(5, 4), Found(51))],
    ..PUTS
};

const PUTS_ANEW: Meeting = Meeting {
    held: &[(Put(5, 55), No)],
    rows: &[(Ask(Swap(5, 50, 51)), Found(50)), (Ask(Delete(5)), Yes)],
    ..PUTS
};

const ADDS_TO_NOTHING: Meeting = Meeting {
    held: &[(Add(5, 4), No)],
    end: &[(3, 30), (7, 70)],
    ..PUTS_ANEW
};

// A put that found no key, which another worker adds.
const PUTS_ON_AN_INSERT: Meeting = Meeting {
    start: &[(3, 30), (7, 70)],
    rows: &[(Ask(Find(5)), No), (Ask(Insert(5, 51)), Yes)],
    ..PUTS
};

static A_PUT_OR_A_SUM: [Meetings<'static>; 5] = [
    (&ONCE_FOUND, 2, PUTS),
    (&ONCE_FOUND, 2, ADDS),
    (&ONCE_FOUND, 2, PUTS_ANEW),
    (&ONCE_FOUND, 2, ADDS_TO_NOTHING),
    (&ONCE_FOUND, 2, PUTS_ON_AN_INSERT),
];

#[test]
fn a_put_or_a_sum_goes_by_the_value_that_the_key_has_last(rt: HostRuntime) {
    meet_all(&rt, &A_PUT_OR_A_SUM);
}

// The kinds of the steps of a removal between its search and its flag, its own step included.
const BEFORE_ITS_REMOVAL: [Kind; 3] = [
    Kind::Exchange(Exchange::Claim),
    Kind::Fill,
    Kind::Exchange(Exchange::DFlag),
];

// Others change the key between the search of a removal and its flag: it removes no other value.
const LEAVES: Meeting = Meeting {
    held: &[(RemoveIf(5, 50), Found(51))],
    end: &[(3, 30), (5, 51), (7, 70)],
    ..PUTS
};

// The value goes and comes back.
const REMOVES: Meeting = Meeting {
    held: &[(RemoveIf(5, 50), Found(50))],
    rows: &[
        (RemoveIf(5, 51), Found(50)),
        (RemoveIf(5, 50), Found(50)),
        (Ask(Insert(5, 50)), Yes),
    ],
    end: &[(3, 30), (7, 70)],
    ..PUTS
};

// The key goes.
const REMOVES_NOTHING: Meeting = Meeting {
    held: &[(RemoveIf(5, 50), No)],
    rows: &[(RemoveIf(5, 50), Found(50)), (RemoveIf(5, 50), No)],
    ..REMOVES
};

static A_REMOVAL: [Meetings<'static>; 3] = [
    (&BEFORE_ITS_REMOVAL, 2, LEAVES),
    (&BEFORE_ITS_REMOVAL, 4, REMOVES),
    (&BEFORE_ITS_REMOVAL, 3, REMOVES_NOTHING),
];

#[test]
fn a_removal_goes_by_the_value_that_the_key_has_last(rt: HostRuntime) {
    meet_all(&rt, &A_REMOVAL);
}
