//! What one thread does with the words, round after round.
ghost use Rattle.std.specs.Prelude.{[]};
ghost use Rattle.ell_test_arena.specs.Pairs.{IsOurs};

use crate::pairs::{Known, PairRule};
use crate::race::{add, enter, fill, first_of, name_of, share, take};
use ell_arena::{Seat, Words};

/// What a thread has done.
#[derive(Clone, Copy)]
pub struct Done {
    /// How many pairs it has taken.
    pub taken: u64,
    /// How often it has added to a pair.
    pub added: u64,
    /// Whether each pair that it met had its own address as its first word.
    pub named: bool,
}

/// What it has done first.
pub const NOTHING: Done = Done {
    taken: 0,
    added: 0,
    named: true,
};

/// Takes a pair, fills and shares it.
pub fn begin(words: &Words<Known, usize, PairRule>, seat: &mut Seat<Known>, done: Done) -> Done
    // The seat is one of these words, and nothing is lent to it.
    requires { IsOurs words.now seat.old [] }
    // It is so still.
    ensures { IsOurs words.now seat.new [] }
{
    let Some(pair) = take(words, seat) else {
        return done;
    };
    fill(words, seat, pair);
    let named = done.named && first_of(words, seat, pair) == pair;
    share(words, seat, pair);
    let taken = done.taken.wrapping_add(1);
    Done {
        taken,
        added: done.added,
        named,
    }
}

/// Goes to the pair to which the door leads, and adds to it.
pub fn visit(words: &Words<Known, usize, PairRule>, seat: &mut Seat<Known>, done: Done) -> Done
    // The seat is one of these words, and nothing is lent to it.
    requires { IsOurs words.now seat.old [] }
    // It is so still.
    ensures { IsOurs words.now seat.new [] }
{
    let Some(pair) = enter(words, seat) else {
        return done;
    };
    let named = done.named && name_of(words, seat, pair) == pair;
    let added = if add(words, seat, pair) {
        done.added.wrapping_add(1)
    } else {
        done.added
    };
    Done {
        taken: done.taken,
        added,
        named,
    }
}

/// Begins pairs and visits them.
pub fn work(
    words: &Words<Known, usize, PairRule>,
    mut seat: Seat<Known>,
    rounds: u64,
) -> (Seat<Known>, Done)
    // The seat is one of these words, and nothing is lent to it.
    requires { IsOurs words.now seat [] }
    // It is so still.
    ensures { IsOurs words.now result.0 [] }
{
    let mut done = NOTHING;
    for _ in 0..rounds {
        done = begin(words, &mut seat, done);
        done = visit(words, &mut seat, done);
    }
    (seat, done)
}

/// Visits the pair to which the door leads, again and again.
pub fn add_often(
    words: &Words<Known, usize, PairRule>,
    mut seat: Seat<Known>,
    rounds: u64,
) -> (Seat<Known>, Done)
    // The seat is one of these words, and nothing is lent to it.
    requires { IsOurs words.now seat [] }
    // It is so still.
    ensures { IsOurs words.now result.0 [] }
{
    let mut done = NOTHING;
    for _ in 0..rounds {
        done = visit(words, &mut seat, done);
    }
    (seat, done)
}
