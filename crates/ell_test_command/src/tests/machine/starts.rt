//! An opening with start keys: the words of their tree, and what events make of it.
use super::scripts::Line::{self, Does, Filled, Finds, Has, Lists, Next, Searches};
use super::scripts::{MOVED, NO, NO_CARDS, WON, YES, play};
use ell_core::Act::{Answer, Begin, Claim, DChild, DFlag, DUnflag, IChild, IFlag, IUnflag, Mark};
use ell_layout::Field;
use ell_ops::Op;
use ell_word::{INF1, INF2};
use ell_world::World;

// The words over the start keys 2, 4 and 6, with two cards to claim.
const THREE_KEYS: &[Line] = &[
    Next(4),
    Filled(0, [INF2, 4, 2, 3, INF1, INF2, 0, 0, 0, 0, 0, 0]),
    Filled(1, [6, 8, 12, 3, 0, 0, 0, 0, 0, 0, 0, 0]),
    Filled(2, [4, 9, 10, 3, 2, 4, 21, 43, 0, 0, 0, 0]),
    Filled(3, [INF1, 13, 14, 3, 6, INF1, 67, 0, 0, 0, 0, 0]),
    Filled(4, [0; 12]),
    Filled(5, [0; 12]),
    Lists(&[(2, 21), (4, 43), (6, 67)]),
];

// Finds, a delete of 4 by card 4 and an insert of 5 by card 5, and no card for more.
const TWO_CARDS: &[Line] = &[
    Finds(0, 4, 3, Some(43)),
    Searches(0, Begin(Op::Insert(6, 60)), 3),
    Does(0, &[Answer], NO),
    Finds(0, 5, 3, None),
    Searches(0, Begin(Op::Delete(4)), 3),
    Does(0, &[Claim], MOVED),
    Filled(4, [0, 0, 0, 0, 0, 0, 0, 0, 4, 8, 10, 3]),
    Does(0, &[DFlag, Mark(4), DChild(4), DUnflag(4)], WON),
    Does(0, &[Answer], YES),
    Has(1, Field::Left, 9),
    Lists(&[(2, 21), (6, 67)]),
    Searches(0, Begin(Op::Insert(5, 50)), 2),
    Does(0, &[Claim], MOVED),
    Filled(5, [5, 21, 22, 3, 2, 5, 21, 50, 0, 4, 9, 0]),
    Does(0, &[IFlag, IChild(5), IUnflag(5)], WON),
    Does(0, &[Answer], YES),
    Lists(&[(2, 21), (5, 50), (6, 67)]),
    Searches(0, Begin(Op::Delete(6)), 3),
    Does(0, &[Claim], NO_CARDS),
];

#[test]
fn start_keys_stand_where_halving_puts_them(rt: HostRuntime) {
    let owned = [(0, 2), (0, 4), (0, 6), (0, 5)];
    let world = World::from_start(rt.alloc(), 1, &owned, &[(2, 21), (4, 43), (6, 67)], 2);
    let mut world = world.expect(&rt, "an opening");
    play(&rt, &mut world, 5, THREE_KEYS);
    play(&rt, &mut world, 5, TWO_CARDS);
}
