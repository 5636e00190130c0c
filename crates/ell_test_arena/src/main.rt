//! An arena whose words threads take in pairs, fill as plain memory, and share: two threads race for them, and the
//! program says what they found. Its tests race for longer.
#![tactic(auto)]

mod pairs;
mod race;
#[cfg(test)]
mod tests;
mod working;

use anyhow::Result;
use race::{count_of, enter, mark, open_pairs, part, unite};
use std::thread;
use working::{NOTHING, add_often, begin, work};

// How many rounds each thread makes.
const ROUNDS: u64 = 20_000;

// "yes" or "no".
fn said(is_so: bool) -> &'static str {
    if is_so { "yes" } else { "no" }
}

fn main(rt: HostRuntime) -> Result<()> {
    let (words, mut seat) = open_pairs(rt.alloc(), 80_010)?;
    begin(&words, &mut seat, NOTHING);
    let other = part(&words, &mut seat);
    let shared = &words;
    let ((mut seat, one), (other, two)) = thread::join(
        &rt,
        move || add_often(shared, seat, ROUNDS),
        move || add_often(shared, other, ROUNDS),
    );
    let added = match enter(&words, &mut seat) {
        Some(pair) => count_of(&words, &mut seat, pair),
        None => 0,
    };
    println!(rt;
        "no addition was lost: {}",
        said(added == one.added.wrapping_add(two.added))
    )?;
    let ((mut seat, one), (other, two)) = thread::join(
        &rt,
        move || work(shared, seat, ROUNDS),
        move || work(shared, other, ROUNDS),
    );
    unite(&words, &mut seat, other);
    let begun = one
        .taken
        .wrapping_add(two.taken)
        .wrapping_mul(2)
        .wrapping_add(4);
    println!(rt;
        "each pair was taken once: {}",
        said(begun == mark(&words, &mut seat))
    )?;
    println!(rt;
        "each thread found what was written: {}",
        said(one.named && two.named)
    )?;
    Ok(())
}
