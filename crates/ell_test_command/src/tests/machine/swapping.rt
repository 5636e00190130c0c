//! A swap that another worker ends, and one whose helper is late.
use super::scripts::Line::{self, Does, Filled, Has, Lists, Searches};
use super::scripts::{FIVE_INSERTED, LOST, MOVED, NOT_NOW, WON, YES, played};
use ell_core::Act::{Again, Answer, Begin, Claim, Down, IChild, IFlag, IUnflag, Leave, Upd};
use ell_core::{Shown, Stepped};
use ell_layout::Field;
use ell_ops::{Op, Reply};

const FOUND_50: Shown = Shown::Step(Stepped::Answered(Reply::Found(50)));

const FOUND_51: Shown = Shown::Step(Stepped::Answered(Reply::Found(51)));

// Worker 1 stands at the old leaf while the new one comes in.
const A_STALLED_SWAP: &[Line] = &[
    Searches(0, Begin(Op::Swap(5, 50, 51)), 2),
    Does(0, &[Claim], MOVED),
    Does(0, &[IFlag], WON),
    Has(1, Field::Update, 8),
    Does(0, &[Leave, Again], NOT_NOW),
    Lists(&[(5, 50)]),
    Searches(1, Begin(Op::Insert(7, 70)), 2),
    Does(1, &[Claim], NOT_NOW),
    Does(1, &[IChild(2)], WON),
    Has(1, Field::Left, 10),
    Lists(&[(5, 51)]),
    Does(0, &[Answer], NOT_NOW),
    Does(0, &[IChild(2)], LOST),
    Does(0, &[IUnflag(2)], WON),
    Has(1, Field::Update, 11),
    Does(0, &[Answer], FOUND_50),
    Does(1, &[IUnflag(2)], LOST),
    // It found 50, and another one finds 51.
    Searches(0, Begin(Op::Swap(5, 50, 52)), 2),
    Does(0, &[Claim], NOT_NOW),
    Does(0, &[Answer], FOUND_51),
    Lists(&[(5, 51)]),
];

#[test]
fn a_helper_finishes_a_stalled_swap(rt: HostRuntime) {
    let scripts = [FIVE_INSERTED, A_STALLED_SWAP];
    played(&rt, 2, &[(0, 5), (1, 7)], 4, &scripts);
}

// Worker 1 reads the flag of card 2. Then 5 has 51, by leaf 10, and 50 again, by leaf 14, which the insert of 7 copies.
const THERE_AND_BACK: &[Line] = &[
    Searches(0, Begin(Op::Swap(5, 50, 51)), 2),
    Does(0, &[Claim], MOVED),
    Does(0, &[IFlag], WON),
    Does(1, &[Begin(Op::Insert(7, 70)), Upd, Down, Upd], MOVED),
    Does(0, &[IChild(2), IUnflag(2)], WON),
    Does(0, &[Answer], FOUND_50),
    Lists(&[(5, 51)]),
    Searches(0, Begin(Op::Swap(5, 51, 50)), 2),
    Does(0, &[Claim], MOVED),
    Filled(3, [5, 13, 14, 3, 5, 5, 51, 50, 0, 4, 10, 0]),
    Does(0, &[IFlag, IChild(3), IUnflag(3)], WON),
    Does(0, &[Answer], FOUND_51),
    Lists(&[(5, 50)]),
];

const A_LATE_HELPER: &[Line] = &[
    Does(1, &[IChild(2), IUnflag(2)], LOST),
    Has(1, Field::Left, 14),
    Has(1, Field::Update, 15),
    Lists(&[(5, 50)]),
    Does(1, &[Down], MOVED),
    Does(1, &[Claim], NOT_NOW),
    Searches(1, Again, 2),
    Does(1, &[Claim], MOVED),
    Filled(4, [7, 17, 18, 3, 5, 7, 50, 70, 0, 4, 14, 0]),
    Does(1, &[IFlag, IChild(4), IUnflag(4)], WON),
    Does(1, &[Answer], YES),
    Lists(&[(5, 50), (7, 70)]),
];

#[test]
fn a_late_helper_of_a_swap_changes_nothing(rt: HostRuntime) {
    let scripts = [FIVE_INSERTED, THERE_AND_BACK, A_LATE_HELPER];
    played(&rt, 2, &[(0, 5), (1, 7)], 4, &scripts);
}
