//! Partings of a small list, with the parts that a person gave them, and texts of faults.
use ell_ops::{NoMemory, Op};
use ell_parts::{GatherFault, PartFault, Parts};
use ell_tree::{CardFault, NotDone, SplitFault};
use std::alloc::Global;
use std::fmt::Display;
use std::process::Abort;

const FIVE: [Op; 5] = [
    Op::Insert(3, 1),
    Op::Insert(4, 5),
    Op::Insert(3, 0),
    Op::Delete(8),
    Op::Find(4),
];

// A worker's part, and its keys.
type Want = (&'static [(usize, Op)], &'static [u64]);

// Whether a parting has these parts of the workers, and no more.
fn is_parted(parted: Result<Parts<'_, Global>, PartFault>, wants: &[Want]) -> bool {
    match parted {
        Ok(parts) => are_parts(&parts, wants),
        Err(_) => false,
    }
}

fn are_parts(parts: &Parts<'_, Global>, wants: &[Want]) -> bool {
    if parts.workers() as usize != wants.len() {
        return false;
    }
    for worker in 0..parts.workers() {
        let (part, keys) = wants[worker as usize];
        if parts.part(worker) != part || parts.keys(worker) != keys {
            return false;
        }
    }
    true
}

const THREES: Want = (&[(0, Op::Insert(3, 1)), (2, Op::Insert(3, 0))], &[3]);

const FOURS: Want = (&[(1, Op::Insert(4, 5)), (4, Op::Find(4))], &[4]);

const EIGHTS: Want = (&[(3, Op::Delete(8))], &[8]);

const NONE: Want = (&[], &[]);

static STRIPES: [Want; 2] = [
    (
        &[(1, Op::Insert(4, 5)), (3, Op::Delete(8)), (4, Op::Find(4))],
        &[4, 8],
    ),
    THREES,
];

static RANGES: [Want; 3] = [THREES, FOURS, EIGHTS];

static OWNED: [Want; 3] = [EIGHTS, THREES, FOURS];

static EMPTY: [Want; 3] = [NONE, NONE, NONE];

#[test]
fn a_list_is_parted_in_three_ways(rt: HostRuntime) {
    let alloc = rt.alloc();
    let owned = Parts::by_owner(alloc, &FIVE, &[1, 2, 1, 0, 2], 3);
    let is_so = is_parted(Parts::striped(alloc, &FIVE, 2), &STRIPES) && is_parted(owned, &OWNED);
    assert!(rt; is_so && is_parted(Parts::ranged(alloc, &FIVE, 3), &RANGES));
    assert!(rt; is_parted(Parts::ranged(alloc, &[], 3), &EMPTY));
}

#[test]
fn a_short_list_is_parted_alike_to_run(rt: HostRuntime) {
    let alloc = rt.alloc();
    assert!(rt; is_parted(Parts::striped_to_run(&rt, alloc, &FIVE, 2), &STRIPES));
    assert!(rt; is_parted(Parts::ranged_to_run(&rt, alloc, &FIVE, 3), &RANGES));
}

// Each value has its text.
fn have_texts<T: Display>(rt: &(impl Abort + AllocGlobal), rows: &[(T, &str)]) {
    for (value, text) in rows {
        let said = value.to_string(rt.alloc());
        assert!(rt; said.is_ok_and(|said| said.as_str() == *text), "{text}");
    }
}

#[test]
fn faults_of_trees_have_texts(rt: HostRuntime) {
    have_texts(
        &rt,
        &[
            (CardFault::BadCards, "cards are not 1 to 1000000"),
            (CardFault::NoMemory, "out of memory"),
        ],
    );
    have_texts(&rt, &[(SplitFault::TooManyPasses, "too many passes")]);
    have_texts(
        &rt,
        &[
            (NotDone::Busy, "something was in the way of each try"),
            (NotDone::Spent, "no card is free for the change"),
        ],
    );
}

#[test]
fn faults_have_texts(rt: HostRuntime) {
    have_texts(&rt, &[(NoMemory, "out of memory")]);
    let (first, second) = (0, 2);
    have_texts(
        &rt,
        &[
            (PartFault::BadWorkers, "workers are not 1 to 64"),
            (PartFault::OwnerCount, "not one owner for each operation"),
            (
                PartFault::StrangerOwner { at: 1 },
                "position 1: no such worker",
            ),
            (
                PartFault::KeySplit { first, second },
                "positions 0 and 2: one key with two workers",
            ),
            (PartFault::NoMemory, "out of memory"),
        ],
    );
    have_texts(
        &rt,
        &[
            (
                GatherFault::Stranger { at: 3 },
                "position 3: no such position",
            ),
            (GatherFault::Doubled { at: 3 }, "position 3: two replies"),
            (GatherFault::Missing { at: 3 }, "position 3: no reply"),
            (GatherFault::NoMemory, "out of memory"),
        ],
    );
}
