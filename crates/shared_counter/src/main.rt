//! Four threads add to one counter, ten thousand times each, and no addition is lost: first in a tree whose cards do
//! not come back, and then in one whose cards do.
#![tactic(auto)]

mod adding;
mod counting;
mod fault;
mod opening;

use anyhow::Result;
use counting::count_by_four;
use opening::{Kind, open};

const ROUNDS: u32 = 10_000;

const ADDENDS: [u64; 4] = [1, 10, 100, 1_000];

// The value that the counter has first. It is so near to the greatest that the sum begins again at 0.
const START: u64 = u64::MAX;

fn main(rt: HostRuntime) -> Result<()> {
    for kind in [Kind::Plain, Kind::Reusing] {
        let (tree, passes) = open(rt.alloc(), kind, START)?;
        match count_by_four(&rt, &tree, passes, ROUNDS, ADDENDS) {
            Ok((_pass, value)) => println!(rt; "the counter ends with {value}")?,
            Err((_pass, fault)) => return Err(fault.into()),
        }
    }
    Ok(())
}
