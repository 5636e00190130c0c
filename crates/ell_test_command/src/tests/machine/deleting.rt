//! A delete that loses its mark, and begins anew.
use super::scripts::Line::{self, Does, Filled, Has, Lists, Searches};
use super::scripts::{FIVE_INSERTED, LOST, MOVED, WON, YES, played};
use ell_core::Act::{
    Again, Answer, Backtrack, Begin, Claim, DChild, DFlag, DUnflag, IChild, IFlag, IUnflag, Mark,
};
use ell_layout::Field;
use ell_ops::Op;

// Worker 1 inserts 7 by card 2, and flags node 4 by card 3 to delete it.
const FLAGGED_FOR_SEVEN: &[Line] = &[
    Searches(1, Begin(Op::Insert(7, 70)), 2),
    Does(1, &[Claim], MOVED),
    Does(1, &[IFlag, IChild(2), IUnflag(2)], WON),
    Does(1, &[Answer], YES),
    Searches(1, Begin(Op::Delete(7)), 3),
    Does(1, &[Claim], MOVED),
    Filled(3, [0, 0, 0, 0, 0, 0, 0, 0, 4, 8, 10, 3]),
    Has(1, Field::Update, 11),
    Does(1, &[DFlag], WON),
    Has(1, Field::Update, 13),
];

// Worker 0 flags node 8 by card 4 to insert 6.
const FLAGGED_FOR_SIX: &[Line] = &[
    Searches(0, Begin(Op::Insert(6, 60)), 3),
    Does(0, &[Claim], MOVED),
    Filled(4, [6, 17, 18, 3, 5, 6, 50, 60, 0, 8, 9, 0]),
    Has(2, Field::Update, 3),
    Does(0, &[IFlag], WON),
    Has(2, Field::Update, 16),
];

// Worker 1 does not get its mark, helps the insert of 6, takes its flag away and begins anew.
const BACKTRACKED: &[Line] = &[
    Does(1, &[Mark(3)], LOST),
    Has(2, Field::Left, 9),
    Does(1, &[IChild(4), IUnflag(4)], WON),
    Has(2, Field::Left, 16),
    Has(2, Field::Update, 19),
    Does(1, &[Backtrack(3)], WON),
    Has(1, Field::Update, 15),
    Lists(&[(5, 50), (6, 60), (7, 70)]),
    Searches(1, Again, 3),
    Does(1, &[Claim], MOVED),
    Does(1, &[DFlag], WON),
    Has(1, Field::Update, 21),
    Does(1, &[Mark(5)], WON),
    Has(2, Field::Update, 22),
    Has(1, Field::Left, 8),
    Does(1, &[DChild(5), DUnflag(5)], WON),
    Has(1, Field::Left, 16),
    Has(1, Field::Update, 23),
    Does(1, &[Answer], YES),
    Does(0, &[IChild(4), IUnflag(4)], LOST),
    Does(0, &[Answer], YES),
    Lists(&[(5, 50), (6, 60)]),
];

#[test]
fn a_lost_mark_backtracks(rt: HostRuntime) {
    let scripts = [
        FIVE_INSERTED,
        FLAGGED_FOR_SEVEN,
        FLAGGED_FOR_SIX,
        BACKTRACKED,
    ];
    played(&rt, 2, &[(0, 5), (0, 6), (1, 7)], 5, &scripts);
}
