//! A worker of a world.
ghost use Rattle.std.specs.Prelude.{◌≡◌, ◌≢◌, ◌↔◌, IsTrue, false, Some, None, OnOk, OnErr};
ghost use Rattle.ell_layout.specs.Words.{put};
ghost use Rattle.ell_core.specs.state.Facts.{learned, learned_any};
ghost use Rattle.ell_core.specs.state.Machine.{nobody};
ghost use Rattle.ell_core.specs.acts.Exchanges.{knowing};
ghost use Rattle.ell_world.specs.Inside.{view_of, worker_in, LacksAny, LacksEither};

use ell_core::{Entry, Fact, Search};
use ell_ops::{NoMemory, Op};
use std::alloc::Allocator;
use std::collections::{BTreeMap, BTreeSet};

/// What a worker owns, has in hand and knows.
#[derive(Drop)]
pub(crate) struct Worker<A: Allocator + Copy> {
    pub ledger: BTreeMap<u64, Entry, A>,
    pub operation: Option<Op>,
    pub search: Search,
    pub card: Option<u64>,
    pub flagged: bool,
    pub facts: BTreeSet<Fact, A>,
}

/// A search that stands nowhere and has seen nothing.
pub(crate) const NO_SEARCH: Search = Search {
    node: None,
    read: None,
    parent: None,
    grandparent: None,
};

impl<A: Allocator + Copy> Worker<A> {
    /// Creates a worker without keys, with nothing in hand.
    pub fn new(alloc: A) -> Worker<A>
        ensures { worker_in result ≡ nobody }
    {
        Worker {
            ledger: BTreeMap::new(alloc),
            operation: None,
            search: NO_SEARCH,
            card: None,
            flagged: false,
            facts: BTreeSet::new(alloc),
        }
    }

    /// Gives the worker a key, present or absent.
    pub fn own(&mut self, key: u64, entry: Entry) -> Result<(), NoMemory>
        ensures { OnOk result (worker_in self.new ≡ record (worker_in self.old)
            { ledger = put (worker_in self.old).ledger key (Some entry) }) }
    {
        self.ledger.insert(key, entry)?;
        Ok(())
    }

    /// Returns `true` if the worker owns a key.
    pub fn owns(&self, key: u64) -> bool
        ensures { IsTrue result ↔ ((worker_in self.now).ledger key ≢ None) }
    {
        self.ledger.contains_key(&key)
    }

    /// Writes whether a key that the worker owns is present.
    pub fn settle(&mut self, key: u64, entry: Entry)
        requires { (worker_in self.old).ledger key ≢ None }
        ensures { worker_in self.new ≡ record (worker_in self.old) {
          ledger = put (worker_in self.old).ledger key (Some entry);
        } }
    {
        if let Some(old) = self.ledger.get_mut(&key) {
            *old = entry;
        }
    }

    /// Returns `true` if the worker knows a fact.
    pub fn knows(&self, fact: Fact) -> bool
        ensures { result ≡ (worker_in self.now).knows fact }
    {
        self.facts.contains(&fact)
    }

    /// Learns a fact. It allocates only for a fact that the worker lacks.
    pub fn learn(&mut self, fact: Fact) -> Result<(), NoMemory>
        ensures learned { OnOk result (worker_in self.new ≡ knowing (worker_in self.old)
            (learned (worker_in self.old).knows fact)) }
        ensures lacks { OnErr result ((worker_in self.old).knows fact ≡ false) }
        ensures unchanged { OnErr result (view_of self.new ≡ view_of self.old) }
    {
        self.facts.insert(fact)?;
        Ok(())
    }

    /// Learns a fact, if there is one.
    pub fn learn_any(&mut self, fact: Option<Fact>) -> Result<(), NoMemory>
        ensures learned { OnOk result (worker_in self.new ≡ knowing (worker_in self.old)
            (learned_any (worker_in self.old).knows fact)) }
        ensures lacks { OnErr result (LacksAny (worker_in self.old).knows fact) }
        ensures unchanged { OnErr result (view_of self.new ≡ view_of self.old) }
    {
        match fact {
            Some(fact) => self.learn(fact),
            None => Ok(()),
        }
    }

    /// Learns a fact, and another one if there is one: both or none.
    pub fn learn_both(&mut self, fact: Fact, other: Option<Fact>) -> Result<(), NoMemory>
        ensures learned { OnOk result (worker_in self.new ≡ knowing (worker_in self.old)
            (learned_any (learned (worker_in self.old).knows fact) other)) }
        ensures lacks { OnErr result (LacksEither (worker_in self.old).knows fact other) }
        ensures unchanged { OnErr result (view_of self.new ≡ view_of self.old) }
    {
        let added = self.facts.insert(fact)?;
        match self.learn_any(other) {
            Ok(()) => Ok(()),
            Err(fault) => {
                if added {
                    self.facts.remove(&fact);
                }
                Err(fault)
            }
        }
    }
}
