//! Trees of shared keys, and the calls that tell of many keys: what each tells, in one form.
ghost use Rattle.std.specs.Prelude.{◌≡◌, ◌≤◌, None};
ghost use Rattle.ell_test_threads.specs.Sharing.{IsMember, IsSharer};
ghost use Rattle.ell_tree.specs.Ledgers.{IsIdlePassOf};
ghost use Rattle.ell_tree.specs.Meaning.{greatest_key};

use ell_ops::{KEY_MAX, all_fit, ascend};
use ell_tree::{About, Pair, Pass, START_MAX, StepGate, Tree, TreeKind};
use std::alloc::Global;
use std::process::Abort;

// What stands in a room before a scan.
const BLANK: Pair = Pair {
    key: u64::MAX,
    value: 1,
};

/// A call that tells of keys.
#[derive(Clone, Copy)]
pub enum Ask {
    /// A scan from the first number on and below the second, with room for so many pairs.
    Scan(u64, u64, usize),
    About(u64),
    AtLeast(u64),
    Last,
}

/// What a call tells: of all keys from one on and below another, these are there with their values, and no others.
#[derive(Drop)]
pub struct Sight {
    pub from: u64,
    pub upto: u64,
    pub pairs: Vec<(u64, u64)>,
}

/// A tree in which all keys are shared, with these start keys, and its pass.
pub fn opened(
    rt: &(impl Abort + AllocGlobal),
    start: &[(u64, u64)],
    cards: u64,
) -> (Tree<Global>, Pass<Global>)
    ensures { IsSharer result.0 result.1 }
{
    opened_for(rt, start, &[], cards)
}

/// One in which all keys but these are shared, and its pass, which owns these.
#[tactic(auto, using(crate::proofs::lemmas::Starts::start_real, crate::proofs::lemmas::Starts::themselves_ascend))]
pub fn opened_for(
    rt: &(impl Abort + AllocGlobal),
    start: &[(u64, u64)],
    owned: &[u64],
    cards: u64,
) -> (Tree<Global>, Pass<Global>)
    ensures member { IsMember owned.now result.0 result.1 }
    ensures keys { result.0.plan.keys ≡ owned.now }
    ensures plain { result.0.plan.slots ≡ None }
{
    assert!(rt; ascend(start) && all_fit(start) && start.len() <= START_MAX as usize);
    assert!(rt; ascend(owned) && all_fit(owned));
    let made = Tree::open(rt.alloc(), TreeKind::Shared, start, owned, cards);
    made.expect(rt, "tree")
}

// What a scan tells.
#[tactic(auto, using(crate::proofs::lemmas::Sharers::member_looking))]
fn scan<G: StepGate>(
    rt: &(impl Abort + AllocGlobal),
    tree: &Tree<Global>,
    pass: &mut Pass<Global>,
    from: u64,
    upto: u64,
    room: usize,
    gate: &G,
) -> Sight
    requires { IsSharer tree.now pass.old }
    ensures { IsSharer tree.now pass.new }
{
    assert!(rt; upto <= KEY_MAX + 1);
    let mut written = vec![in rt.alloc(); BLANK; room].expect(rt, "memory");
    let scanned = tree.scan(pass, from, upto, &mut written, gate);
    assert!(rt; scanned.count == room || scanned.next.is_none());
    let mut pairs = Vec::new(rt.alloc());
    for (place, pair) in written.iter().enumerate() {
        if place < scanned.count {
            pairs.push((pair.key, pair.value)).expect(rt, "memory");
        } else {
            assert!(rt; (pair.key, pair.value) == (BLANK.key, BLANK.value));
        }
    }
    Sight {
        from,
        upto: scanned.next.unwrap_or(upto),
        pairs,
    }
}

// That of all keys from one on and below another this one is there, or none.
fn sight_of(
    rt: &(impl Abort + AllocGlobal),
    from: u64,
    upto: u64,
    found: Option<(u64, u64)>,
) -> Sight {
    let mut pairs = Vec::new(rt.alloc());
    if let Some(pair) = found {
        pairs.push(pair).expect(rt, "memory");
    }
    Sight { from, upto, pairs }
}

// The key of a call, or 0.
fn key_of(ask: Ask) -> u64 {
    match ask {
        Ask::Scan(_, _, _) | Ask::Last => 0,
        Ask::About(key) | Ask::AtLeast(key) => key,
    }
}

/// Makes such a call: what it tells.
#[tactic(auto, using(crate::proofs::lemmas::Sharers::member_looking))]
pub fn tell<G: StepGate>(
    rt: &(impl Abort + AllocGlobal),
    tree: &Tree<Global>,
    pass: &mut Pass<Global>,
    ask: Ask,
    gate: &G,
) -> Sight
    requires { IsSharer tree.now pass.old }
    ensures { IsSharer tree.now pass.new }
{
    let key = key_of(ask);
    assert!(rt; key <= KEY_MAX);
    match ask {
        Ask::Scan(from, upto, room) => scan(rt, tree, pass, from, upto, room, gate),
        Ask::About(_) => {
            let About { low, high, found } = tree.look_about(pass, key, gate);
            assert!(rt; low <= key && key < high && high <= KEY_MAX + 1);
            sight_of(rt, low, high, found)
        }
        Ask::AtLeast(_) => {
            let found = tree.next_at_least(pass, key, gate);
            let upto = match found {
                Some(pair) => pair.0.saturating_add(1),
                None => KEY_MAX + 1,
            };
            sight_of(rt, key, upto, found)
        }
        Ask::Last => {
            let found = tree.last(pass, gate);
            let from = match found {
                Some(pair) => pair.0,
                None => 0,
            };
            sight_of(rt, from, KEY_MAX + 1, found)
        }
    }
}

impl Sight {
    /// The value that it tells of a key.
    pub fn value_of(&self, key: u64) -> Option<u64> {
        for pair in &self.pairs {
            if pair.0 == key {
                return Some(pair.1);
            }
        }
        None
    }

    /// Whether its keys lie in its range, and ascend strictly.
    pub fn is_in_order(&self) -> bool {
        for pair in &self.pairs {
            if pair.0 < self.from || self.upto <= pair.0 {
                return false;
            }
        }
        ascend(&self.pairs)
    }
}
