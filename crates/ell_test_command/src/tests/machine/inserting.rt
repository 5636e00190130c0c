//! An opening, and two inserts that meet at the root.
use super::scripts::Line::{self, Does, Filled, Has, Lists, Next, Searches};
use super::scripts::{LOST, MOVED, WON, YES, played};
use ell_core::Act::{Again, Answer, Begin, Claim, IChild, IFlag, IUnflag};
use ell_layout::Field;
use ell_ops::Op;
use ell_word::{INF1, INF2};

const OPENING: &[Line] = &[
    Next(1),
    Filled(0, [INF2, 1, 2, 3, INF1, INF2, 0, 0, 0, 0, 0, 0]),
    Filled(1, [0; 12]),
    Lists(&[]),
];

const A_STALLED_INSERT: &[Line] = &[
    Searches(0, Begin(Op::Insert(5, 50)), 1),
    Does(0, &[Claim], MOVED),
    Filled(1, [INF1, 5, 6, 3, 5, INF1, 50, 0, 0, 0, 1, 0]),
    Has(0, Field::Update, 3),
    Does(0, &[IFlag], WON),
    Has(0, Field::Update, 4),
    Searches(1, Begin(Op::Insert(7, 70)), 1),
    Has(0, Field::Left, 1),
    Does(1, &[IChild(1)], WON),
    Has(0, Field::Left, 4),
    Does(1, &[IUnflag(1)], WON),
    Has(0, Field::Update, 7),
    Lists(&[(5, 50)]),
    Searches(1, Again, 2),
    Does(1, &[Claim], MOVED),
    Has(1, Field::Update, 3),
    Does(1, &[IFlag], WON),
    Has(1, Field::Update, 8),
    Has(1, Field::Left, 5),
    Does(1, &[IChild(2), IUnflag(2)], WON),
    Has(1, Field::Left, 8),
    Has(1, Field::Update, 11),
    Does(1, &[Answer], YES),
    Lists(&[(5, 50), (7, 70)]),
    Does(0, &[IChild(1), IUnflag(1)], LOST),
    Does(0, &[Answer], YES),
    Lists(&[(5, 50), (7, 70)]),
];

#[test]
fn a_helper_finishes_a_stalled_insert(rt: HostRuntime) {
    played(&rt, 2, &[(0, 5), (1, 7)], 4, &[OPENING, A_STALLED_INSERT]);
}
