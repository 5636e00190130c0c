//! Pairs of threads insert the same key, round after round: in each round exactly one is told that it added the key,
//! and its value is found afterwards. And what one thread inserted, another finds as soon as it is told of it, or as
//! soon as it finds a flag that the first inserted after it. Every other round is on a tree whose cards come back.
#![tactic(auto)]

mod fault;
mod flagging;
mod racing;
mod sharing;
mod telling;

ghost use Rattle.std.specs.Prelude.{◌≡◌, ◌≢◌, ◌≤◌};
ghost use Rattle.ell_tree.specs.Meaning.{greatest_key};

use anyhow::Result;
use ell_tree::KEY_MAX;
use fault::RaceFault;
use flagging::{Flagged, insert_and_flag};
use racing::{Race, insert_by_two};
use sharing::{Kind, open};
use std::alloc::Global;
use std::thread::Threads;
use telling::{Told, insert_and_tell};

const ROUNDS: u64 = 1_000;

// How many rounds ended so.
#[derive(Clone, Copy)]
struct Tally {
    one_winner: u64,
    winner_found: u64,
    told_found: u64,
    first_won: u64,
    found_early: u64,
    flag_found: u64,
    flag_alone: u64,
}

// What came of a race in a new tree of a kind.
fn race<R: Threads>(
    rt: &R,
    alloc: Global,
    kind: Kind,
    key: u64,
    values: (u64, u64),
) -> Result<Race, RaceFault>
    requires { key ≤ greatest_key }
{
    let (map, passes) = open(alloc, kind)?;
    match insert_by_two(rt, &map, passes, key, values.0, values.1) {
        Ok((_pass, race)) => Ok(race),
        Err((_pass, fault)) => Err(fault),
    }
}

// What came of what one thread told another in a new tree of a kind.
fn told<R: Threads>(
    rt: &R,
    alloc: Global,
    kind: Kind,
    key: u64,
    value: u64,
) -> Result<Told, RaceFault>
    requires { key ≤ greatest_key }
{
    let (map, passes) = open(alloc, kind)?;
    match insert_and_tell(rt, &map, passes, key, value) {
        Ok((_pass, told)) => Ok(told),
        Err((_pass, fault)) => Err(fault),
    }
}

// What came of a flag in a new tree of a kind.
fn flagged<R: Threads>(
    rt: &R,
    alloc: Global,
    kind: Kind,
    keys: (u64, u64),
    value: u64,
) -> Result<Flagged, RaceFault>
    requires real { keys.0 ≤ greatest_key }
    requires flag { keys.1 ≤ greatest_key }
    requires apart { keys.0 ≢ keys.1 }
{
    let (map, passes) = open(alloc, kind)?;
    match insert_and_flag(rt, &map, passes, keys.0, keys.1, value) {
        Ok((_pass, seen)) => Ok(seen),
        Err((_pass, fault)) => Err(fault),
    }
}

fn main(rt: HostRuntime) -> Result<()> {
    let alloc = rt.alloc();
    let mut tally = Tally {
        one_winner: 0,
        winner_found: 0,
        told_found: 0,
        first_won: 0,
        found_early: 0,
        flag_found: 0,
        flag_alone: 0,
    };
    for round in 0..ROUNDS {
        let key = KEY_MAX - round;
        let (first, second) = (2 * round, 2 * round + 1);
        let kind = if round % 2 == 0 {
            Kind::Plain
        } else {
            Kind::Reusing
        };
        let race = race(&rt, alloc, kind, key, (first, second))?;
        let winner = if race.first_added { first } else { second };
        tally.one_winner += u64::from(race.first_added != race.second_added);
        tally.winner_found += u64::from(race.there == Some(winner));
        tally.first_won += u64::from(race.first_added);
        let told = told(&rt, alloc, kind, key, first)?;
        tally.told_found += u64::from(told.late == Some(first));
        tally.found_early += u64::from(told.early.is_some());
        let seen = flagged(&rt, alloc, kind, (key, round), first)?;
        tally.flag_found += u64::from(seen.flag.is_some());
        tally.flag_alone += u64::from(seen.flag.is_some() && seen.there != Some(first));
    }
    println!(rt; "rounds: {ROUNDS}")?;
    println!(rt;
        "exactly one thread was told that it added the key: {}",
        tally.one_winner
    )?;
    println!(rt; "its value was found afterwards: {}", tally.winner_found)?;
    println!(rt;
        "a thread that was told of a key found it: {}",
        tally.told_found
    )?;
    println!(rt;
        "a thread found the flag of a key without the key: {}",
        tally.flag_alone
    )?;
    eprintln!(rt; "the first thread added the key: {}", tally.first_won)?;
    eprintln!(rt;
        "the key was found before the message: {}",
        tally.found_early
    )?;
    eprintln!(rt; "the flag was found: {}", tally.flag_found)?;
    Ok(())
}
