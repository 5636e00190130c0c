//! The events that exchange a word. Any worker that knows that a card has come this far may make its next exchange.
ghost use Rattle.std.specs.Prelude.{◌≡◌, ◌≤◌, ◌==◌, false, is_ok, IfOk, IfErr, OnOk, OnErr};
ghost use Rattle.ell_core.specs.declared.event.Act.TheVariants as act;
ghost use Rattle.ell_core.specs.declared.event.CoreFault.TheVariants.{NoMemory};
ghost use Rattle.ell_layout.specs.Cards.{dflag, clean, sibling};
ghost use Rattle.ell_core.specs.acts.Exchanges.{won_or_lost, exchanged_update, flags, flag_tells};
ghost use Rattle.ell_world.specs.Fits.{IsInner, WordsFit};
ghost use Rattle.ell_world.specs.Inside.{words_in, worker_in, view_of, scene_in, IsSized, LacksAny, IsReady, TakesTurn, SameSize};

use crate::memory::Memory;
use crate::worker::Worker;
use ell_core::{CoreFault, Fact, Put, Seen, Stepped, told_by};
use ell_layout::{Field, brought_node, update_word};
use ell_ops::Op;
use ell_word::{Link, State};
use std::alloc::Allocator;

// What an exchange says.
fn won_or_lost<E: Copy>(outcome: Result<(), E>) -> Stepped
    ensures { result ≡ won_or_lost (is_ok outcome) }
{
    match outcome {
        Ok(()) => Stepped::Won,
        Err(_) => Stepped::Lost,
    }
}

/// Flags the parent for the insert or swap in hand.
pub(crate) fn iflag<A: Allocator + Copy>(
    memory: &mut Memory<A>,
    worker: &mut Worker<A>,
) -> Result<Stepped, CoreFault>
    requires { IsReady memory.old worker.old }
    ensures { TakesTurn act.IFlag memory.old worker.old memory.new worker.new result }
{
    let (Some(op), Some(card), false, Some(parent)) = (
        worker.operation,
        worker.card,
        worker.flagged,
        worker.search.parent,
    ) else {
        return Err(CoreFault::NotNow);
    };
    if Put::of(op).is_none() {
        return Err(CoreFault::NotNow);
    }
    let new = update_word(State::IFlag, card);
    flag(memory, worker, parent, new, Fact::IFlagged(card))
}

/// Flags the grandparent for the delete in hand.
pub(crate) fn dflag<A: Allocator + Copy>(
    memory: &mut Memory<A>,
    worker: &mut Worker<A>,
) -> Result<Stepped, CoreFault>
    requires { IsReady memory.old worker.old }
    ensures { TakesTurn act.DFlag memory.old worker.old memory.new worker.new result }
{
    let (Some(Op::Delete(_)), Some(card), false, Some(grandparent)) = (
        worker.operation,
        worker.card,
        worker.flagged,
        worker.search.grandparent,
    ) else {
        return Err(CoreFault::NotNow);
    };
    let new = update_word(State::DFlag, card);
    flag(memory, worker, grandparent, new, Fact::DFlagged(card))
}

// Exchanges a node's update word, from the one that was read there to the flag of the card in hand.
fn flag<A: Allocator + Copy>(
    memory: &mut Memory<A>,
    worker: &mut Worker<A>,
    seen: Seen,
    new: u64,
    fact: Fact,
) -> Result<Stepped, CoreFault>
    requires sized { IsSized memory.old }
    requires node { IsInner memory.old.last_card seen.node }
    requires unflagged { worker.old.flagged ≡ false }
    ensures says { IfOk result (λ said. said ≡ won_or_lost ((words_in memory.old).update seen.node == seen.word)) }
    ensures flags { OnOk result (scene_in memory.new worker.new ≡ flags (scene_in memory.old worker.old) seen new
        fact) }
    ensures refused { IfErr result (λ fault. fault ≡ NoMemory) }
    ensures lacks { OnErr result (LacksAny (worker_in worker.old).knows (flag_tells seen (words_in memory.old) fact)) }
    ensures unchanged { OnErr result (view_of worker.new ≡ view_of worker.old) }
    ensures words { OnErr result (memory.new ≡ memory.old) }
    ensures same { SameSize memory.old memory.new }
{
    let found = memory.update(seen.node);
    let tells = if found == seen.word {
        Some(fact)
    } else {
        told_by(found)
    };
    worker.learn_any(tells)?;
    worker.search.node = None;
    worker.search.read = None;
    let outcome = memory.exchange_update(seen.node, seen.word, new);
    match outcome {
        Ok(()) => worker.flagged = true,
        Err(_) => {
            worker.card = None;
            worker.flagged = false;
        }
    }
    Ok(won_or_lost(outcome))
}

/// Exchanges the child of an insert's parent, from the leaf with the tag that the card expects to the node that the card
/// brings: its internal node, or, if it replaces a leaf of its key, its right leaf.
pub(crate) fn ichild<A: Allocator + Copy>(
    memory: &mut Memory<A>,
    worker: &mut Worker<A>,
    card: u64,
) -> Result<Stepped, CoreFault>
    requires { IsReady memory.old worker.old }
    ensures { TakesTurn (act.IChild card) memory.old worker.old memory.new worker.new result }
{
    if !worker.knows(Fact::IFlagged(card)) {
        return Err(CoreFault::NotNow);
    }
    worker.learn(Fact::IChanged(card))?;
    let parent = memory.read(card, Field::P);
    let leaf = memory.leaf_link(card);
    let left_key = memory.read(card, Field::LeftLeafKey);
    let replaces = left_key == memory.read(card, Field::RightLeafKey);
    let node = brought_node(card, replaces);
    Ok(won_or_lost(memory.exchange_child(parent, leaf, node)))
}

/// Takes an insert's flag away.
pub(crate) fn iunflag<A: Allocator + Copy>(
    memory: &mut Memory<A>,
    worker: &mut Worker<A>,
    card: u64,
) -> Result<Stepped, CoreFault>
    requires { IsReady memory.old worker.old }
    ensures { TakesTurn (act.IUnflag card) memory.old worker.old memory.new worker.new result }
{
    if !worker.knows(Fact::IChanged(card)) {
        return Err(CoreFault::NotNow);
    }
    worker.learn(Fact::IOver(card))?;
    let parent = memory.read(card, Field::P);
    let flag = update_word(State::IFlag, card);
    let clean = update_word(State::Clean, card);
    Ok(won_or_lost(memory.exchange_update(parent, flag, clean)))
}

/// Marks the parent of a delete. If the mark is lost to another word, it can no longer be made.
pub(crate) fn mark<A: Allocator + Copy>(
    memory: &mut Memory<A>,
    worker: &mut Worker<A>,
    card: u64,
) -> Result<Stepped, CoreFault>
    requires { IsReady memory.old worker.old }
    ensures { TakesTurn (act.Mark card) memory.old worker.old memory.new worker.new result }
{
    if !worker.knows(Fact::DFlagged(card)) {
        return Err(CoreFault::NotNow);
    }
    let parent = memory.read(card, Field::P);
    let was = memory.read(card, Field::Was);
    let mark = update_word(State::Mark, card);
    let found = memory.update(parent);
    if found == was || found == mark {
        worker.learn(Fact::Marked(card))?;
    } else {
        worker.learn_both(Fact::Unmarkable(card), told_by(found))?;
    }
    Ok(won_or_lost(memory.exchange_update(parent, was, mark)))
}

/// Exchanges the child of a delete's grandparent, from the parent with the tag that the card expects to the sibling of
/// the leaf.
pub(crate) fn dchild<A: Allocator + Copy>(
    memory: &mut Memory<A>,
    worker: &mut Worker<A>,
    card: u64,
) -> Result<Stepped, CoreFault>
    requires { IsReady memory.old worker.old }
    ensures { TakesTurn (act.DChild card) memory.old worker.old memory.new worker.new result }
{
    if !worker.knows(Fact::Marked(card)) {
        return Err(CoreFault::NotNow);
    }
    worker.learn(Fact::Cut(card))?;
    let grandparent = memory.read(card, Field::Gp);
    let parent = Link {
        node: memory.read(card, Field::P),
        tag: memory.leaf_link(card).tag,
    };
    let sibling = sibling_of(memory, card);
    Ok(won_or_lost(memory.exchange_child(grandparent, parent, sibling)))
}

// The sibling of a delete's leaf.
fn sibling_of<A: Allocator + Copy>(memory: &Memory<A>, card: u64) -> u64
    requires sized { IsSized memory.now }
    requires fits { WordsFit memory.now.last_card (words_in memory.now) }
    requires card { card ≤ memory.now.last_card }
    ensures { result ≡ sibling (words_in memory.now) card }
{
    let parent = memory.read(card, Field::P);
    let leaf = memory.leaf_link(card).node;
    let right = memory.child(parent, true);
    if right == leaf {
        memory.child(parent, false)
    } else {
        right
    }
}

/// Takes a delete's flag away, after its child exchange.
pub(crate) fn dunflag<A: Allocator + Copy>(
    memory: &mut Memory<A>,
    worker: &mut Worker<A>,
    card: u64,
) -> Result<Stepped, CoreFault>
    requires { IsReady memory.old worker.old }
    ensures { TakesTurn (act.DUnflag card) memory.old worker.old memory.new worker.new result }
{
    if !worker.knows(Fact::Cut(card)) {
        return Err(CoreFault::NotNow);
    }
    worker.learn(Fact::DOver(card))?;
    Ok(take_dflag_away(memory, card))
}

/// Takes a delete's flag away, after its lost mark.
pub(crate) fn backtrack<A: Allocator + Copy>(
    memory: &mut Memory<A>,
    worker: &mut Worker<A>,
    card: u64,
) -> Result<Stepped, CoreFault>
    requires { IsReady memory.old worker.old }
    ensures { TakesTurn (act.Backtrack card) memory.old worker.old memory.new worker.new result }
{
    if !worker.knows(Fact::Unmarkable(card)) {
        return Err(CoreFault::NotNow);
    }
    worker.learn(Fact::Backed(card))?;
    Ok(take_dflag_away(memory, card))
}

// Exchanges the update word of a delete's grandparent, from the flag to clean.
fn take_dflag_away<A: Allocator + Copy>(memory: &mut Memory<A>, card: u64) -> Stepped
    requires sized { IsSized memory.old }
    requires fits { WordsFit memory.old.last_card (words_in memory.old) }
    requires card { card ≤ memory.old.last_card }
    ensures says { result ≡ won_or_lost ((words_in memory.old).update ((words_in memory.old).gp card) == dflag card) }
    ensures words { words_in memory.new ≡ exchanged_update (words_in memory.old) ((words_in memory.old).gp card)
        (dflag card) (clean card) }
    ensures same { SameSize memory.old memory.new }
{
    let grandparent = memory.read(card, Field::Gp);
    let flag = update_word(State::DFlag, card);
    let clean = update_word(State::Clean, card);
    won_or_lost(memory.exchange_update(grandparent, flag, clean))
}
