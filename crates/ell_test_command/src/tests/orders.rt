//! Numbers mixed, and their rounds, as another program has them, and operations in rounds.
use ell_ops::Op;
use ell_order::{in_rounds, mixed, round_of};

#[test]
fn numbers_are_mixed_as_another_program_mixes_them(rt: HostRuntime) {
    let rows = [
        (0, 0),
        (1, 0xb456_bcfc_34c2_cb2c),
        (2, 0x3abf_2a20_6506_83e7),
        (1_000_000, 0x443b_192c_ac3f_a823),
        (0xffff_ffff_ffff_fffd, 0xaa3b_fbb0_5a06_36c2),
    ];
    for (number, scrambled) in rows {
        assert!(rt; mixed(number) == scrambled, "number {number}");
    }
}

#[test]
fn the_round_of_a_number_is_how_many_digits_it_has_scrambled(rt: HostRuntime) {
    let rows = [(0, 0), (1, 64), (2, 62), (1_000_000, 63)];
    for (number, round) in rows {
        assert!(rt; round_of(number) == round, "number {number}");
    }
}

// The keys 3, 5 and 7 are left, of the ranks 0, 1 and 2, and so of the rounds 0, 64 and 62.
const AS_THEY_STAND: [Op; 5] = [
    Op::Insert(7, 70),
    Op::Insert(5, 50),
    Op::Insert(9, 90),
    Op::Find(7),
    Op::Insert(3, 30),
];

// All but that of key 9.
const POSITIONS: [usize; 4] = [0, 1, 3, 4];

const IN_ROUNDS: [(usize, Op); 4] = [
    (4, Op::Insert(3, 30)),
    (0, Op::Insert(7, 70)),
    (3, Op::Find(7)),
    (1, Op::Insert(5, 50)),
];

#[test]
fn operations_are_put_in_rounds(rt: HostRuntime) {
    let put = in_rounds(rt.alloc(), &AS_THEY_STAND, &POSITIONS);
    assert!(rt; put.is_ok_and(|part| part.items.as_slice() == IN_ROUNDS.as_slice()));
}

#[test]
fn operations_in_rounds_have_their_keys(rt: HostRuntime) {
    let put = in_rounds(rt.alloc(), &AS_THEY_STAND, &POSITIONS);
    assert!(rt; put.is_ok_and(|part| part.keys.as_slice() == [3, 5, 7].as_slice()));
}
