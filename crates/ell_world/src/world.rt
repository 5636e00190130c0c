//! A world: the machine with plain lists for its functions, run one event at a time.
ghost use Rattle.std.specs.Prelude.{◌≡◌, ◌≤◌, ℕ, true, false, [], length, vec_len, IfOk, IfErr, OnOk, OnErr};
ghost use Rattle.std.specs.List.{All};
ghost use Rattle.std.specs.Map.{keys_of};
ghost use Rattle.ell_ops.specs.Contents.{contents_of};
ghost use Rattle.ell_ops.specs.Meaning.{greatest_key, most_workers};
ghost use Rattle.ell_word.specs.Node.{most_cards, most_start};
ghost use Rattle.std.specs.List.Sorted.{IsStrictlyIncreasing};
ghost use Rattle.ell_layout.specs.Words.{word, table_word};
ghost use Rattle.ell_core.specs.acts.Events.{Steps};
ghost use Rattle.ell_core.specs.tree.Tree.{ListsKeys, ListsTreePairs};
ghost use Rattle.ell_core.specs.state.Machine.{idle};
ghost use Rattle.ell_world.specs.Inside.{worker_at};
ghost use Rattle.ell_core.specs.state.Opening.{opening, opening_ledger, last_card, is_given, Faultless, OpeningRefused};
ghost use Rattle.ell_world.specs.World.{machine_of, StepRefused};
ghost use Rattle.ell_core.specs.soundness.Sound.{IsSound};
ghost use Rattle.ell_core.specs.history.Invariant.{HasInvariant};

use crate::memory::Memory;
use crate::turn::turn;
use crate::worker::Worker;
use ell_core::{CoreFault, Entry, Event, Stepped, pairs_of_tree};
use ell_layout::Field;
use ell_ops::NoMemory;
use std::alloc::{Allocator, Global};
use std::collections::BTreeSet;
use std::marker::Model;

/// A state of the machine, and its table of words.
#[derive(Drop)]
pub struct World<A: Allocator + Copy = Global> {
    alloc: A,
    memory: Memory<A>,
    workers: Vec<Worker<A>, A>,
}

impl<A: Allocator + Copy> Model for World<A> {
    ghost use Rattle.ell_world.specs.World.{WorldValue};

    ghost Value = { WorldValue };

    ghost use Rattle.ell_world.specs.WorldInside.{value_in, InsideFits};

    ghost view = { value_in };

    ghost invariant = { InsideFits };
}

impl<A: Allocator + Copy> World<A> {
    /// Creates the opening tree, with workers from 0 on and the keys that the entries, each a worker and a key, give
    /// them, all absent. Conditions: 1 to `WORKERS_MAX` workers, 1 to `CARDS_MAX` cards, keys at most `KEY_MAX`. The
    /// fault of the first faulty entry is returned: `NoSuchWorker`, or else `OwnedTwice`. `NoMemory` may be returned in
    /// place of either.
    pub fn new(
        alloc: A,
        workers: u32,
        owned: &[(u32, u64)],
        cards: u64,
    ) -> Result<World<A>, CoreFault>
        requires some_worker { 1 ≤ workers }
        requires most_workers { workers ≤ most_workers }
        requires some_card { 1 ≤ cards }
        requires most_cards { cards ≤ most_cards }
        requires keys { All (λ entry. entry.1 ≤ greatest_key) owned.now }
        // The world is the opening with these owners, and without start keys.
        ensures opening { IfOk result (λ world.
            machine_of world ≡ opening (record {
              count = workers;
              owned = owned.now;
              start = [];
              cards = cards;
              shared = λ _. false;
              flat = false;
            })) }
        ensures cards { IfOk result (λ world. world.last_card ≡ cards) }
        // It succeeds only if no entry is faulty. A fault tells the first faulty entry, or that an allocation failed.
        ensures faultless { OnOk result (Faultless workers owned.now) }
        ensures refused { IfErr result (OpeningRefused workers owned.now) }
    {
        World::from_start(alloc, workers, owned, &[], cards)
    }

    /// Creates the opening tree over start keys, balanced, with workers and the keys that the entries give them: the
    /// start keys are present with their values, the others absent. The start keys' tree has a card for each of them,
    /// so the cards to be claimed are those after them, and the number of the last card is the number of cards asked
    /// for plus that of the start keys. Conditions: those of `new`; the start keys are strictly ascending, among the
    /// keys of the entries, and at most `START_MAX`. Faults are those of `new`.
    pub fn from_start(
        alloc: A,
        workers: u32,
        owned: &[(u32, u64)],
        start: &[(u64, u64)],
        cards: u64,
    ) -> Result<World<A>, CoreFault>
        requires some_worker { 1 ≤ workers }
        requires most_workers { workers ≤ most_workers }
        requires some_card { 1 ≤ cards }
        requires most_cards { cards ≤ most_cards }
        requires keys { All (λ entry. entry.1 ≤ greatest_key) owned.now }
        requires ascending { IsStrictlyIncreasing (keys_of start.now) }
        requires given { All (λ k. is_given owned.now k ≡ true) (keys_of start.now) }
        requires most_start { length start.now ≤ most_start }
        // The world is the opening with these owners and start pairs.
        ensures opening { IfOk result (λ world.
            machine_of world ≡ opening (record {
              count = workers;
              owned = owned.now;
              start = start.now;
              cards = cards;
              shared = λ _. false;
              flat = false;
            })) }
        ensures cards { IfOk result (λ world. world.last_card ≡ last_card start.now cards) }
        // It succeeds only if no entry is faulty. A fault tells the first faulty entry, or that an allocation failed.
        ensures faultless { OnOk result (Faultless workers owned.now) }
        ensures refused { IfErr result (OpeningRefused workers owned.now) }
    {
        let memory = Memory::opening(alloc, start, cards + start.len() as u64)?;
        let workers = owning_workers(alloc, workers, owned, start)?;
        Ok(World {
            alloc,
            memory,
            workers,
        })
    }

    /// Does an event, or refuses it and changes nothing. The refusals are tested in the order of `CoreFault`;
    /// `NoMemory` is returned only if the event would be answered, and its worker would learn a fact that it lacks.
    pub fn step(&mut self, event: Event) -> Result<Stepped, CoreFault>
        // The outcome and the new state are what the event's row says.
        ensures done { IfOk result (λ said. Steps (machine_of self.old) event said (machine_of self.new)) }
        // It is refused for the first reason that the event's row gives, and for a failed allocation only if a fact
        // would be learned. The world then stays as it was.
        ensures refused { IfErr result (StepRefused (machine_of self.old) event) }
        ensures unchanged { OnErr result (self.new ≡ self.old) }
        // The number of the last card stays the same.
        ensures cards { self.new.last_card ≡ self.old.last_card }
    {
        let Some(worker) = self.workers.get_mut(event.worker as usize) else {
            return Err(CoreFault::NoSuchWorker);
        };
        turn(&mut self.memory, worker, event.act)
    }

    /// Does nothing, and states that the laws hold for every world, however it came about: its state is sound, and the
    /// invariant holds for it, so that from there on each event is lawful.
    pub fn laws_hold(&self)
        // Every world is sound, and has the invariant.
        ensures sound { IsSound (machine_of self.now) }
        ensures invariant { HasInvariant (machine_of self.now) }
    {
        let _ = &self.memory;
    }

    /// Returns the keys of the tree, each once, ascending.
    pub fn keys(&self) -> Result<Vec<u64, A>, NoMemory>
        // The keys are those of the tree, strictly ascending.
        ensures { IfOk result (λ keys. ListsKeys (machine_of self.now).words keys.items) }
    {
        let pairs = self.pairs()?;
        pair_keys(self.alloc, &pairs)
    }

    /// Returns the keys of the tree with their values, each key once, ascending.
    pub fn pairs(&self) -> Result<Vec<(u64, u64), A>, NoMemory>
        // The pairs are those of the tree, strictly ascending by their keys.
        ensures { IfOk result (λ pairs. ListsTreePairs (machine_of self.now).words pairs.items) }
    {
        let places = self.memory.last_card as usize + 2;
        let waiting = Vec::with_capacity(self.alloc, places)?;
        let pairs = Vec::with_capacity(self.alloc, places)?;
        Ok(pairs_of_tree(&self.memory, waiting, pairs))
    }

    /// Returns what a field of a card says: of a child word, and of the leaf's, the node without its tag. Condition: the
    /// card is at most the last card.
    pub fn word(&self, card: u64, field: Field) -> u64
        requires { card ≤ self.now.last_card }
        // Returns what the card's field says.
        ensures { result ≡ word (machine_of self.now).words card field }
    {
        field.says(self.memory.read(card, field))
    }

    /// Returns the claim word: the number of the next card.
    pub fn next(&self) -> u64
        // Returns the claim word.
        ensures { result ≡ (machine_of self.now).words.next }
    {
        self.memory.next()
    }
}

// The keys of these pairs, in their order.
fn pair_keys<A: Allocator + Copy>(alloc: A, pairs: &[(u64, u64)]) -> Result<Vec<u64, A>, NoMemory>
    ensures { IfOk result (λ keys. keys.items ≡ keys_of pairs.now) }
{
    Ok(pairs.iter().map(|pair| pair.0).collect(alloc)?)
}

// The workers with their keys, the start keys among them present, or the fault of the first faulty entry.
fn owning_workers<A: Allocator + Copy>(
    alloc: A,
    count: u32,
    owned: &[(u32, u64)],
    start: &[(u64, u64)],
) -> Result<Vec<Worker<A>, A>, CoreFault>
    requires { IsStrictlyIncreasing (keys_of start.now) }
    ensures count { IfOk result (λ workers. vec_len workers ≡ count) }
    ensures ledgers { IfOk result (λ workers. (i : ℕ) → worker_at workers.items i ≡ idle
        (opening_ledger owned.now start.now i) (λ _. false) (λ _. false)) }
    ensures faultless { OnOk result (Faultless count owned.now) }
    ensures refused { IfErr result (OpeningRefused count owned.now) }
{
    let mut workers = Vec::with_capacity(alloc, count as usize)?;
    for _ in 0..count {
        workers.push(Worker::new(alloc))?;
    }
    let mut taken = BTreeSet::new(alloc);
    for (worker, key) in owned {
        let Some(owner) = workers.get_mut(*worker as usize) else {
            return Err(CoreFault::NoSuchWorker);
        };
        if !taken.insert(*key)? {
            return Err(CoreFault::OwnedTwice);
        }
        owner.own(*key, Entry::of(value_of(start, *key)))?;
    }
    Ok(workers)
}

// The value of a key among start keys, which ascend, if it is one of them.
fn value_of(start: &[(u64, u64)], key: u64) -> Option<u64>
    requires { IsStrictlyIncreasing (keys_of start.now) }
    ensures { result ≡ contents_of start.now key }
{
    match start.binary_search_by(|pair| pair.0.cmp(&key)) {
        Ok(place) => Some(start[place].1),
        Err(_) => None,
    }
}
