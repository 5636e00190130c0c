//! Two threads race for pairs, write them, share them, and add to them.
use crate::race::{count_of, enter, fill, mark, open_pairs, part, take, unite};
use crate::working::{NOTHING, add_often, begin, visit, work};
use atomic_table::TableRule;
use ell_arena::Words;
use std::test::Fail;
use std::thread;

// How many rounds each of two threads makes.
const ROUNDS: u64 = 1_000_000;

#[test]
fn two_threads_take_each_pair_once_and_find_what_was_written(rt: HostRuntime) -> Result<(), Fail> {
    let (words, mut seat) = open_pairs(rt.alloc(), 4_000_010)?;
    let other = part(&words, &mut seat);
    let shared = &words;
    let ((mut seat, one), (other, two)) = thread::join(
        &rt,
        move || work(shared, seat, ROUNDS),
        move || work(shared, other, ROUNDS),
    );
    unite(&words, &mut seat, other);
    assert!(rt; one.named && two.named);
    let taken = one.taken.wrapping_add(two.taken);
    assert!(rt; mark(&words, &mut seat) == taken.wrapping_mul(2).wrapping_add(2));
    assert!(rt; taken >= ROUNDS);
    Ok(())
}

#[test]
fn no_addition_to_a_shared_pair_is_lost(rt: HostRuntime) -> Result<(), Fail> {
    let (words, mut seat) = open_pairs(rt.alloc(), 100)?;
    begin(&words, &mut seat, NOTHING);
    let other = part(&words, &mut seat);
    let shared = &words;
    let ((mut seat, one), (other, two)) = thread::join(
        &rt,
        move || add_often(shared, seat, ROUNDS),
        move || add_often(shared, other, ROUNDS),
    );
    unite(&words, &mut seat, other);
    assert!(rt; one.added >= 1 && two.added >= 1);
    match enter(&words, &mut seat) {
        Some(pair) => {
            assert!(rt; count_of(&words, &mut seat, pair) == one.added.wrapping_add(two.added))
        }
        None => assert!(rt; false),
    }
    Ok(())
}

#[test]
fn words_are_dropped_while_some_are_lent(rt: HostRuntime) -> Result<(), Fail> {
    for _ in 0..1_000u32 {
        let (words, mut seat) = open_pairs(rt.alloc(), 100_000)?;
        let mut other = part(&words, &mut seat);
        if let Some(pair) = take(&words, &mut seat) {
            fill(&words, &mut seat, pair);
        }
        assert!(rt; take(&words, &mut other).is_some());
        drop(other);
        drop(words);
    }
    Ok(())
}

// A rule that allows everything.
struct Anything;

impl TableRule<u64, (), ()> for Anything {
    ghost holds = { λ _ _. Unit {0} };

    ghost first = { λ _. tt };
}

// If the first request is refused, as under `--fail-alloc 1`, half as many words are opened.
#[test]
fn as_many_words_are_opened_as_the_system_grants(rt: HostRuntime) -> Result<(), Fail> {
    let (words, _seat) = Words::<(), (), Anything>::open_largest(
        rt.alloc(),
        &(),
        1_000,
        1 << 20,
        &[1, 2],
    )?;
    assert!(rt; words.len() == 1 << 20 || words.len() == 1 << 19);
    Ok(())
}

// So many blocks of 2^30 bytes are more than the addresses that a process has.
const BLOCKS: u32 = 140_000;

#[test]
fn dropped_words_give_their_block_back(rt: HostRuntime) -> Result<(), Fail> {
    for _ in 0..BLOCKS {
        let (words, mut seat) = open_pairs(rt.alloc(), 1 << 27)?;
        assert!(rt; take(&words, &mut seat).is_some());
    }
    Ok(())
}

#[test]
fn words_that_are_used_up_give_no_pair(rt: HostRuntime) -> Result<(), Fail> {
    let (words, mut seat) = open_pairs(rt.alloc(), 5)?;
    let done = begin(&words, &mut seat, NOTHING);
    assert!(rt; done.taken == 1);
    assert!(rt; begin(&words, &mut seat, done).taken == 1);
    assert!(rt; visit(&words, &mut seat, done).added == 1);
    Ok(())
}
