//! What one thread does with the words.
ghost use Rattle.std.specs.Prelude.{◌≡◌, ℕ, suc, ◌+◌, ◌^◌, ◌<◌, ◌≤◌, [], ◌∷◌, IfOk, IfSome, IfNone};
ghost use Rattle.ell_test_arena.specs.Pairs.{IsOurs, HasPair, KnowsPair};

use crate::pairs::{Copied, Door, Known, Look, Mark, PairRule, Share, Take};
use ell_arena::{Seat, Words};
use std::alloc::{AllocError, Global};

/// Opens so many words: a mark and a door, and others that nobody has begun.
#[tactic(auto, using(crate::proofs::lemmas::Pairs::starts))]
pub fn open_pairs(
    alloc: Global,
    count: usize,
) -> Result<(Words<Known, usize, PairRule>, Seat<Known>), AllocError>
    // There are a mark and a door.
    requires two { 2 ≤ count }
    // The words take fewer than 2^43 bytes.
    requires size { count < 2 ^ 40 }
    // The seat is one of these words, and nothing is lent to it.
    ensures { IfOk result (λ r. IsOurs r.0 r.1 []) }
{
    Words::<Known, usize, PairRule>::open(alloc, &count, count, &[2, 0])
}

/// Takes a pair, if nobody moves the mark at that moment, and the words are not used up.
#[tactic(auto, using(crate::proofs::lemmas::Pairs::mark_allowed, crate::proofs::lemmas::Pairs::take_allowed))]
pub fn take(words: &Words<Known, usize, PairRule>, seat: &mut Seat<Known>) -> Option<u64>
    // The seat is one of these words, and nothing is lent to it.
    requires { IsOurs words.now seat.old [] }
    // A pair that is taken is lent to the seat, unwritten.
    ensures taken { IfSome result (λ a. HasPair words.now seat.new a 0 0) }
    // Else nothing is lent to it.
    ensures none { IfNone result (IsOurs words.now seat.new []) }
{
    let mark = words.load::<Mark>(seat, 0);
    if mark >= words.len() as u64 - 1 {
        return None;
    }
    let next = mark + 2;
    if words.compare_exchange::<Take>(seat, 0, mark, next) == mark {
        Some(mark)
    } else {
        None
    }
}

/// Writes its own address to the first word of a pair, and 0 to the second one.
pub fn fill(words: &Words<Known, usize, PairRule>, seat: &mut Seat<Known>, pair: u64)
    // The pair is lent to the seat, unwritten.
    requires { HasPair words.now seat.old pair 0 0 }
    // It is lent to the seat, and written.
    ensures { HasPair words.now seat.new pair (suc pair) 1 }
{
    words.put(seat, pair as usize, pair);
    words.put(seat, pair as usize + 1, 0);
}

/// Shares a pair, to which the door leads then.
#[tactic(auto, using(crate::proofs::lemmas::Pairs::share_allowed))]
pub fn share(words: &Words<Known, usize, PairRule>, seat: &mut Seat<Known>, pair: u64)
    // The pair is lent to the seat, and written.
    requires { HasPair words.now seat.old pair (suc pair) 1 }
    // Nothing is lent to the seat.
    ensures ours { IsOurs words.now seat.new [] }
{
    words.store::<Share>(seat, 1, pair);
}

/// Goes to the pair to which the door leads, if it leads to one.
#[tactic(auto, using(crate::proofs::lemmas::Pairs::door_allowed))]
pub fn enter(words: &Words<Known, usize, PairRule>, seat: &mut Seat<Known>) -> Option<u64>
    // The seat is one of these words, and nothing is lent to it.
    requires { IsOurs words.now seat.old [] }
    // The seat knows the pair.
    ensures pair { IfSome result (λ a. KnowsPair words.now seat.new a) }
    // Else it is as before.
    ensures none { IfNone result (IsOurs words.now seat.new []) }
{
    let pair = words.load::<Door>(seat, 1);
    if pair < 2 || pair >= words.len() as u64 - 1 {
        return None;
    }
    Some(pair)
}

/// The first word of a shared pair.
#[tactic(auto, using(crate::proofs::lemmas::Pairs::first_allowed))]
pub fn name_of(words: &Words<Known, usize, PairRule>, seat: &mut Seat<Known>, pair: u64) -> u64
    // The seat knows the pair.
    requires { KnowsPair words.now seat.old pair }
    // It knows it still.
    ensures { KnowsPair words.now seat.new pair }
{
    words.load::<Look>(seat, pair as usize)
}

/// Adds 1 to the second word of a shared pair, unless another thread changes it at that moment: whether it did.
#[tactic(auto, using(crate::proofs::lemmas::Pairs::second_allowed))]
pub fn add(words: &Words<Known, usize, PairRule>, seat: &mut Seat<Known>, pair: u64) -> bool
    // The seat knows the pair.
    requires { KnowsPair words.now seat.old pair }
    // It knows it still.
    ensures { KnowsPair words.now seat.new pair }
{
    let before = words.load::<Look>(seat, pair as usize + 1);
    words.compare_exchange::<Look>(seat, pair as usize + 1, before, before.wrapping_add(1))
        == before
}

/// The second word of a shared pair.
pub fn count_of(words: &Words<Known, usize, PairRule>, seat: &mut Seat<Known>, pair: u64) -> u64
    // The seat knows the pair.
    requires { KnowsPair words.now seat.old pair }
    // It knows it still.
    ensures { KnowsPair words.now seat.new pair }
{
    words.load::<Look>(seat, pair as usize + 1)
}

/// A new seat, which knows what a seat knows.
#[tactic(auto, using(crate::proofs::lemmas::Pairs::split_allowed))]
pub fn part(words: &Words<Known, usize, PairRule>, seat: &mut Seat<Known>) -> Seat<Known>
    // The seat is one of these words, and nothing is lent to it.
    requires { IsOurs words.now seat.old [] }
    // It is so still.
    ensures left { IsOurs words.now seat.new [] }
    // The same is so of the new one.
    ensures right { IsOurs words.now result [] }
{
    words.split::<Copied>(seat, 0)
}

/// Lets a seat take in another.
#[tactic(auto, using(crate::proofs::lemmas::Pairs::join_allowed))]
pub fn unite(words: &Words<Known, usize, PairRule>, seat: &mut Seat<Known>, other: Seat<Known>)
    // The seat is one of these words, and nothing is lent to it.
    requires left { IsOurs words.now seat.old [] }
    // The same is so of the other.
    requires right { IsOurs words.now other [] }
    // It is so still.
    ensures { IsOurs words.now seat.new [] }
{
    words.join::<Copied>(seat, other, 0);
}

/// How many words have been begun.
#[tactic(auto, using(crate::proofs::lemmas::Pairs::mark_allowed))]
pub fn mark(words: &Words<Known, usize, PairRule>, seat: &mut Seat<Known>) -> u64
    // The seat is one of these words, and nothing is lent to it.
    requires { IsOurs words.now seat.old [] }
    // It is so still.
    ensures { IsOurs words.now seat.new [] }
{
    words.load::<Mark>(seat, 0)
}

/// The first word of a pair that is lent, read as plain memory.
pub fn first_of(words: &Words<Known, usize, PairRule>, seat: &mut Seat<Known>, pair: u64) -> u64
    // The pair is lent to the seat, and written.
    requires { HasPair words.now seat.old pair (suc pair) 1 }
    // It is lent to the seat still.
    ensures lent { HasPair words.now seat.new pair (suc pair) 1 }
    // The number is the one that `fill` wrote.
    ensures found { result ≡ pair }
{
    words.get(seat, pair as usize)
}
