//! What a script is made of: events and what each is to show, and looks at words, keys and values.
ghost use Rattle.std.specs.Prelude.{◌≡◌, ◌≤◌, IfOk};
ghost use Rattle.ell_ops.specs.Meaning.{most_workers};
ghost use Rattle.ell_word.specs.Node.{most_cards};

use Line::{Does, Filled, Finds, Has, Lists, Next, Searches};
use ell_core::Act::{Answer, Begin, Claim, Down, IChild, IFlag, IUnflag, Upd};
use ell_core::{Act, CoreFault, Event, Shown, Stepped};
use ell_layout::Field;
use ell_ops::{KEY_MAX, Op, Reply};
use ell_world::World;
use std::process::Abort;

pub const MOVED: Shown = Shown::Step(Stepped::Moved);

pub const WON: Shown = Shown::Step(Stepped::Won);

pub const LOST: Shown = Shown::Step(Stepped::Lost);

pub const YES: Shown = Shown::Step(Stepped::Answered(Reply::Yes));

pub const NO: Shown = Shown::Step(Stepped::Answered(Reply::No));

pub const NOT_NOW: Shown = Shown::Refused(CoreFault::NotNow);

pub const NO_CARDS: Shown = Shown::Refused(CoreFault::NoCards);

/// A line of a script: what a worker does, or what is seen.
#[derive(Clone, Copy)]
pub enum Line {
    /// The worker does these acts, and each is to show the same.
    Does(u32, &'static [Act], Shown),
    /// The worker begins, or starts its search anew, and then goes down so many times: each event moves it.
    Searches(u32, Act, u32),
    /// The field of the card has this word.
    Has(u64, Field, u64),
    /// The fields of the card have these words: Key, Left, Right, Update, LeftLeafKey, RightLeafKey, LeftValue,
    /// RightValue, Gp, P, L, Was.
    Filled(u64, [u64; 12]),
    /// The worker looks for this key, goes down so many times, and finds this value, or that the key is absent.
    Finds(u32, u64, u32, Option<u64>),
    /// The tree has these keys with these values.
    Lists(&'static [(u64, u64)]),
    /// This card is the next.
    Next(u64),
}

/// Worker 0 inserts 5 by card 1, alone and first of all.
pub const FIVE_INSERTED: &[Line] = &[
    Searches(0, Begin(Op::Insert(5, 50)), 1),
    Does(0, &[Claim], MOVED),
    Does(0, &[IFlag, IChild(1), IUnflag(1)], WON),
    Does(0, &[Answer], YES),
];

/// A world of so many workers and cards, whose workers own these keys.
pub fn opened(
    rt: &(impl Abort + AllocGlobal),
    workers: u32,
    owned: &[(u32, u64)],
    cards: u64,
) -> Result<World, CoreFault>
    requires some_worker { 1 ≤ workers }
    requires most_workers { workers ≤ most_workers }
    requires some_card { 1 ≤ cards }
    requires most_cards { cards ≤ most_cards }
    ensures { IfOk result (λ world. world.last_card ≡ cards) }
{
    assert!(rt; owned.iter().all(|entry| entry.1 <= KEY_MAX));
    World::new(rt.alloc(), workers, owned, cards)
}

/// Such a world, in which scripts have been played, one after the other.
pub fn played(
    rt: &(impl Abort + AllocGlobal),
    workers: u32,
    owned: &[(u32, u64)],
    cards: u64,
    scripts: &[&[Line]],
) -> World
    requires some_worker { 1 ≤ workers }
    requires most_workers { workers ≤ most_workers }
    requires some_card { 1 ≤ cards }
    requires most_cards { cards ≤ most_cards }
    ensures { result.last_card ≡ cards }
{
    let mut world = opened(rt, workers, owned, cards).expect(rt, "an opening");
    for script in scripts {
        play(rt, &mut world, cards, script);
    }
    world
}

/// Plays a script, all of which has to hold.
pub fn play(rt: &impl Abort, world: &mut World, cards: u64, script: &[Line])
    requires { world.old.last_card ≡ cards }
    ensures { world.new.last_card ≡ cards }
{
    for (at, line) in script.iter().enumerate() {
        assert!(rt; holds(world, cards, *line), "line {at}");
    }
}

// Plays a line: whether it holds.
fn holds(world: &mut World, cards: u64, line: Line) -> bool
    requires { world.old.last_card ≡ cards }
    ensures { world.new.last_card ≡ cards }
{
    match line {
        Does(worker, acts, want) => does(world, worker, acts, want),
        Searches(worker, first, levels) => searches(world, worker, first, levels),
        Finds(worker, key, levels, want) => finds(world, worker, key, levels, want),
        Has(card, field, want) => card <= cards && world.word(card, field) == want,
        Filled(card, wants) => card <= cards && is_filled(world, card, &wants),
        Lists(want) => world.pairs().is_ok_and(|pairs| pairs.as_slice() == want),
        Next(card) => world.next() == card,
    }
}

fn does(world: &mut World, worker: u32, acts: &[Act], want: Shown) -> bool
    ensures { world.new.last_card ≡ world.old.last_card }
{
    for act in acts {
        if show(world, Event { worker, act: *act }) != want {
            return false;
        }
    }
    true
}

fn searches(world: &mut World, worker: u32, first: Act, levels: u32) -> bool
    ensures { world.new.last_card ≡ world.old.last_card }
{
    if !does(world, worker, &[first], MOVED) {
        return false;
    }
    for _ in 0..levels {
        if !does(world, worker, &[Upd, Down], MOVED) {
            return false;
        }
    }
    true
}

fn finds(world: &mut World, worker: u32, key: u64, levels: u32, want: Option<u64>) -> bool
    ensures { world.new.last_card ≡ world.old.last_card }
{
    let said = Shown::Step(Stepped::Answered(Reply::found(want)));
    searches(world, worker, Begin(Op::Find(key)), levels) && does(world, worker, &[Answer], said)
}

fn is_filled(world: &World, card: u64, wants: &[u64; 12]) -> bool
    requires { card ≤ world.now.last_card }
{
    for at in 0..12 {
        if world.word(card, Field::ALL[at]) != wants[at] {
            return false;
        }
    }
    true
}

/// Tries one event: what is shown of it.
pub fn show(world: &mut World, event: Event) -> Shown
    ensures { world.new.last_card ≡ world.old.last_card }
{
    match world.step(event) {
        Ok(said) => Shown::Step(said),
        Err(fault) => Shown::Refused(fault),
    }
}
