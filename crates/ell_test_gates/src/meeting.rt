//! Threads that meet. Whether a second thread runs beside the first is for the machine to say, so each test on threads asks here
//! first, without the product; where none runs, the test ends there and shows nothing.
//!
//! The loops that wait are for compiled tests: an interpreter would take minutes for one that is not met.
use std::sync::atomic::{AtomicU64, Ordering};
use std::thread::{Threads, join};

// How often a loop that waits looks, before it gives up.
const TURNS: u32 = 4_000_000_000;

/// Looks at a count until it has come so far, and answers whether it was within a number of turns.
pub(crate) fn is_reached_in_time(count: &AtomicU64, want: u64) -> bool {
    (0..TURNS).any(|_| want <= count.load(Ordering::SeqCst))
}

/// Whether two threads met: each half of a `join` comes, and sees the other come in time.
pub fn two_threads_meet<R: Threads>(rt: &R) -> bool {
    meet_by_two(rt, &AtomicU64::new(0), 2)
}

/// Whether four threads met, each half of each half of a `join`.
pub fn four_threads_meet<R: Threads + Sync>(rt: &R) -> bool {
    meet_by_four(rt, &AtomicU64::new(0), 4)
}

/// Whether sixteen threads met, halved so four times.
pub fn sixteen_threads_meet<R: Threads + Sync>(rt: &R) -> bool {
    meet_by_sixteen(rt, &AtomicU64::new(0), 16)
}

/// Whether sixty-four threads met, halved so six times.
pub fn sixty_four_threads_meet<R: Threads + Sync>(rt: &R) -> bool {
    let come = AtomicU64::new(0);
    let half = || meet_by_thirty_two(rt, &come, 64);
    let (some, others) = join(rt, half, half);
    some && others
}

fn meet_by_thirty_two<R: Threads + Sync>(rt: &R, come: &AtomicU64, all: u64) -> bool {
    let half = || meet_by_sixteen(rt, come, all);
    let (some, others) = join(rt, half, half);
    some && others
}

fn meet_by_sixteen<R: Threads + Sync>(rt: &R, come: &AtomicU64, all: u64) -> bool {
    let half = || meet_by_eight(rt, come, all);
    let (some, others) = join(rt, half, half);
    some && others
}

fn meet_by_eight<R: Threads + Sync>(rt: &R, come: &AtomicU64, all: u64) -> bool {
    let half = || meet_by_four(rt, come, all);
    let (some, others) = join(rt, half, half);
    some && others
}

fn meet_by_four<R: Threads + Sync>(rt: &R, come: &AtomicU64, all: u64) -> bool {
    let half = || meet_by_two(rt, come, all);
    let (some, others) = join(rt, half, half);
    some && others
}

// Whether two threads that come here saw so many come in time.
fn meet_by_two<R: Threads>(rt: &R, come: &AtomicU64, all: u64) -> bool {
    let comes = || meets(come, all);
    let (one, other) = join(rt, comes, comes);
    one && other
}

// Comes, and answers whether so many came in time.
fn meets(come: &AtomicU64, all: u64) -> bool {
    come.fetch_add(1, Ordering::SeqCst);
    is_reached_in_time(come, all)
}
