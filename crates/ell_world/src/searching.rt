//! The events by which a worker searches, claims a card and ends its operation.
ghost use Rattle.std.specs.Prelude.{◌≡◌, ◌≢◌, ◌↔◌, ℕ, IsTrue, IfSome, IfNone, Some, None};
ghost use Rattle.ell_ops.specs.declared.op.Op.TheVariants.{Delete};
ghost use Rattle.ell_ops.specs.Meaning.{key_of};
ghost use Rattle.ell_core.specs.declared.event.Act.TheVariants as act;
ghost use Rattle.ell_core.specs.declared.view.Seen.{Seen};
ghost use Rattle.ell_core.specs.acts.Searching.{begun, ended, MayStop, put_of, IsClean, value_at, leaf_answer, card_answer, HasAnswer, ledger_after};
ghost use Rattle.ell_layout.specs.Words.{IsLeaf};
ghost use Rattle.ell_world.specs.Claims.{ClaimsAt};
ghost use Rattle.ell_world.specs.Fits.{IsTableNode};
ghost use Rattle.ell_core.specs.statements.Effects.{reply_of_change};
ghost use Rattle.ell_world.specs.Inside.{words_in, worker_in, scene_in, IsReady, IsSized, TakesTurn};

use crate::memory::Memory;
use crate::worker::{NO_SEARCH, Worker};
use ell_core::{CoreFault, Entry, Fact, Put, Search, Seen, Stepped, told_by};
use ell_layout::{delete_filling, insert_filling};
use ell_ops::{Op, Reply};
use ell_word::{Link, State, is_internal, unpack};
use std::alloc::Allocator;

// A search that stands at the root and has seen nothing.
const AT_ROOT: Search = Search {
    node: Some(0),
    read: None,
    parent: None,
    grandparent: None,
};

/// Takes an operation in hand, and stands at the root.
pub(crate) fn begin<A: Allocator + Copy>(
    memory: &Memory<A>,
    worker: &mut Worker<A>,
    op: Op,
) -> Result<Stepped, CoreFault>
    requires { IsReady memory.now worker.old }
    ensures { TakesTurn (act.Begin op) memory.now worker.old memory.now worker.new result }
{
    if !worker.owns(op.key()) {
        return Err(CoreFault::NotOwned);
    }
    if worker.operation.is_some() {
        return Err(CoreFault::NotNow);
    }
    worker.operation = Some(op);
    to_root(worker);
    Ok(Stepped::Moved)
}

// Stands at the root anew, without a card.
fn to_root<A: Allocator + Copy>(worker: &mut Worker<A>)
    ensures { worker_in worker.new ≡ begun (worker_in worker.old).operation (worker_in worker.old) }
{
    worker.search = AT_ROOT;
    worker.card = None;
    worker.flagged = false;
}

// Has nothing in hand any more.
fn put_down<A: Allocator + Copy>(worker: &mut Worker<A>)
    ensures { worker_in worker.new ≡ ended (worker_in worker.old) }
{
    worker.operation = None;
    worker.search = NO_SEARCH;
    worker.card = None;
    worker.flagged = false;
}

/// Reads the update word of the internal node where it stands, and learns what that tells.
pub(crate) fn upd<A: Allocator + Copy>(
    memory: &Memory<A>,
    worker: &mut Worker<A>,
) -> Result<Stepped, CoreFault>
    requires { IsReady memory.now worker.old }
    ensures { TakesTurn act.Upd memory.now worker.old memory.now worker.new result }
{
    let Some(node) = worker.search.node else {
        return Err(CoreFault::NotNow);
    };
    if !is_internal(node) || worker.search.read.is_some() {
        return Err(CoreFault::NotNow);
    }
    let update = memory.update(node);
    worker.learn_any(told_by(update))?;
    worker.search.read = Some(update);
    Ok(Stepped::Moved)
}

/// Goes down to the child on its key's side from an internal node whose update word it has read, where no card is in
/// hand.
pub(crate) fn down<A: Allocator + Copy>(
    memory: &Memory<A>,
    worker: &mut Worker<A>,
) -> Result<Stepped, CoreFault>
    requires { IsReady memory.now worker.old }
    ensures { TakesTurn act.Down memory.now worker.old memory.now worker.new result }
{
    let search = worker.search;
    let (Some(op), Some(node), Some(word)) = (worker.operation, search.node, search.read) else {
        return Err(CoreFault::NotNow);
    };
    if !is_internal(node) || worker.card.is_some() {
        return Err(CoreFault::NotNow);
    }
    let child = memory.child_link(node, memory.is_right(node, op.key()));
    worker.search = Search {
        node: Some(child.node),
        read: None,
        parent: Some(Seen {
            node,
            word,
            tag: child.tag,
        }),
        grandparent: search.parent,
    };
    Ok(Stepped::Moved)
}

// Where a worker without a card stands that may claim one: a leaf, and the parent, whose update word it read clean.
#[derive(Clone, Copy)]
struct CleanLeaf {
    leaf: u64,
    parent: Seen,
}

// Whether an update word is clean.
fn is_clean(update: u64) -> bool
    ensures { IsTrue result ↔ IsClean update }
{
    unpack(update).state == State::Clean
}

fn clean_leaf<A: Allocator + Copy>(worker: &Worker<A>) -> Option<CleanLeaf>
    ensures some { IfSome result (λ at. ClaimsAt (worker_in worker.now) at.leaf at.parent) }
    ensures none { IfNone result ((leaf : ℕ) (parent : Seen) → ¬ ClaimsAt (worker_in worker.now) leaf parent) }
{
    let (Some(leaf), Some(parent)) = (worker.search.node, worker.search.parent) else {
        return None;
    };
    if is_internal(leaf) || worker.card.is_some() || !is_clean(parent.word) {
        return None;
    }
    Some(CleanLeaf { leaf, parent })
}

/// Claims the next card at a leaf, and fills it for the insert or delete in hand. An insert's or swap's card expects the
/// tag that the search saw at the parent, a delete's that at the grandparent.
pub(crate) fn claim<A: Allocator + Copy>(
    memory: &mut Memory<A>,
    worker: &mut Worker<A>,
) -> Result<Stepped, CoreFault>
    requires { IsReady memory.old worker.old }
    ensures { TakesTurn act.Claim memory.old worker.old memory.new worker.new result }
{
    let Some(at) = clean_leaf(worker) else {
        return Err(CoreFault::NotNow);
    };
    match worker.operation {
        Some(Op::Delete(key)) => claim_for_delete(memory, worker, key, at),
        Some(op) => match Put::of(op) {
            Some(what) => claim_for_put(memory, worker, op, what, at),
            None => Err(CoreFault::NotNow),
        },
        None => Err(CoreFault::NotNow),
    }
}

fn claim_for_put<A: Allocator + Copy>(
    memory: &mut Memory<A>,
    worker: &mut Worker<A>,
    op: Op,
    what: Put,
    at: CleanLeaf,
) -> Result<Stepped, CoreFault>
    requires ready { IsReady memory.old worker.old }
    requires busy { (worker_in worker.old).operation ≡ Some op }
    requires puts { put_of op ≡ Some what }
    requires at { ClaimsAt (worker_in worker.old) at.leaf at.parent }
    ensures { TakesTurn act.Claim memory.old worker.old memory.new worker.new result }
{
    let leaf_key = memory.key(at.leaf);
    let leaf_value = memory.value(at.leaf);
    if !what.may_replace(leaf_key, leaf_value) {
        return Err(CoreFault::NotNow);
    }
    let card = memory.next();
    if card > memory.last_card {
        return Err(CoreFault::NoCards);
    }
    let leaf = Link {
        node: at.leaf,
        tag: at.parent.tag,
    };
    memory.claim(&insert_filling(
        card,
        what.key,
        what.value,
        at.parent.node,
        leaf.word(),
        leaf_key,
        leaf_value,
    ));
    worker.card = Some(card);
    worker.flagged = false;
    Ok(Stepped::Moved)
}

fn claim_for_delete<A: Allocator + Copy>(
    memory: &mut Memory<A>,
    worker: &mut Worker<A>,
    key: u64,
    at: CleanLeaf,
) -> Result<Stepped, CoreFault>
    requires ready { IsReady memory.old worker.old }
    requires deletes { (worker_in worker.old).operation ≡ Some (Delete key) }
    requires at { ClaimsAt (worker_in worker.old) at.leaf at.parent }
    ensures { TakesTurn act.Claim memory.old worker.old memory.new worker.new result }
{
    let Some(grandparent) = worker.search.grandparent else {
        return Err(CoreFault::NotNow);
    };
    if memory.key(at.leaf) != key || !is_clean(grandparent.word) {
        return Err(CoreFault::NotNow);
    }
    let card = memory.next();
    if card > memory.last_card {
        return Err(CoreFault::NoCards);
    }
    let leaf = Link {
        node: at.leaf,
        tag: grandparent.tag,
    };
    memory.claim(&delete_filling(
        grandparent.node,
        at.parent.node,
        leaf.word(),
        at.parent.word,
    ));
    worker.card = Some(card);
    worker.flagged = false;
    Ok(Stepped::Moved)
}

// Whether the worker may stop: an operation is in hand, and its card, if that is flagged, is known backed.
fn may_stop<A: Allocator + Copy>(worker: &Worker<A>) -> bool
    ensures { IsTrue result ↔ MayStop (worker_in worker.now) }
{
    let backed = match worker.card {
        Some(card) => !worker.flagged || worker.knows(Fact::Backed(card)),
        None => true,
    };
    worker.operation.is_some() && backed
}

/// Starts the search anew.
pub(crate) fn again<A: Allocator + Copy>(
    memory: &Memory<A>,
    worker: &mut Worker<A>,
) -> Result<Stepped, CoreFault>
    requires { IsReady memory.now worker.old }
    ensures { TakesTurn act.Again memory.now worker.old memory.now worker.new result }
{
    if !may_stop(worker) {
        return Err(CoreFault::NotNow);
    }
    to_root(worker);
    Ok(Stepped::Moved)
}

/// Gives the operation up without an answer.
pub(crate) fn leave<A: Allocator + Copy>(
    memory: &Memory<A>,
    worker: &mut Worker<A>,
) -> Result<Stepped, CoreFault>
    requires { IsReady memory.now worker.old }
    ensures { TakesTurn act.Leave memory.now worker.old memory.now worker.new result }
{
    if !may_stop(worker) {
        return Err(CoreFault::NotNow);
    }
    put_down(worker);
    Ok(Stepped::Moved)
}

/// Returns the answer of an operation at a leaf, which has the operation's key with this value, or has another key. It
/// returns `None` if there is something to do.
pub fn leaf_answer(op: Op, there: Option<u64>) -> Option<Reply>
    // Returns the answer that the operation has at a leaf, if it has one there.
    ensures { result ≡ leaf_answer op there }
{
    match (op, there) {
        (Op::Find(_), there) => Some(Reply::found(there)),
        (Op::Insert(_, _), Some(_)) | (Op::Delete(_) | Op::Swap(_, _, _), None) => Some(Reply::No),
        (Op::Swap(_, was, _), Some(there)) if there != was => Some(Reply::Found(there)),
        _ => None,
    }
}

/// Returns what an operation answers that has changed the tree: yes, or for a swap the value that it has replaced. A
/// find changes nothing.
pub fn reply_of_change(op: Op) -> Reply
    ensures { result ≡ reply_of_change op }
{
    match op {
        Op::Swap(_, was, _) => Reply::Found(was),
        _ => Reply::Yes,
    }
}

// The value of a key at a leaf, if the leaf has the key.
fn value_at<A: Allocator + Copy>(memory: &Memory<A>, leaf: u64, key: u64) -> Option<u64>
    requires sized { IsSized memory.now }
    requires node { IsTableNode memory.now.last_card leaf }
    requires outer { IsLeaf leaf }
    ensures { result ≡ value_at (words_in memory.now) leaf key }
{
    if memory.key(leaf) == key {
        Some(memory.value(leaf))
    } else {
        None
    }
}

// The answer by a flagged card.
fn card_answer<A: Allocator + Copy>(worker: &Worker<A>, op: Op, card: u64) -> Option<Reply>
    ensures { result ≡ card_answer op card (worker_in worker.now).knows }
{
    let over = match op {
        Op::Find(_) => false,
        Op::Insert(_, _) | Op::Swap(_, _, _) => worker.knows(Fact::IOver(card)),
        Op::Delete(_) => worker.knows(Fact::DOver(card)),
    };
    if over {
        Some(reply_of_change(op))
    } else {
        None
    }
}

// The operation's answer: at a leaf if it has one there, else by its card.
fn answer_of<A: Allocator + Copy>(memory: &Memory<A>, worker: &Worker<A>, op: Op) -> Option<Reply>
    requires { IsReady memory.now worker.now }
    ensures some { IfSome result (λ reply. HasAnswer (scene_in memory.now worker.now) op reply) }
    ensures none { IfNone result ((reply : Reply) → ¬ HasAnswer (scene_in memory.now worker.now) op reply) }
{
    if let Some(node) = worker.search.node
        && !is_internal(node)
        && let Some(reply) = leaf_answer(op, value_at(memory, node, op.key()))
    {
        return Some(reply);
    }
    match worker.card {
        Some(card) if worker.flagged => card_answer(worker, op, card),
        _ => None,
    }
}

// Writes into the ledger what an operation with this answer has made of its key.
fn settle<A: Allocator + Copy>(worker: &mut Worker<A>, op: Op, reply: Reply)
    requires { (worker_in worker.old).ledger (key_of op) ≢ None }
    ensures { worker_in worker.new ≡ record (worker_in worker.old) {
      ledger = ledger_after op reply (worker_in worker.old).ledger;
    } }
{
    match (op, reply) {
        (Op::Insert(key, value), Reply::Yes) => worker.settle(key, Entry::Present(value)),
        (Op::Delete(key), Reply::Yes) => worker.settle(key, Entry::Absent),
        (Op::Swap(key, was, value), Reply::Found(there)) if there == was => {
            worker.settle(key, Entry::Present(value));
        }
        _ => {}
    }
}

/// Answers the operation, after which the worker has nothing in hand. An insert that answers yes makes its key present
/// with its value, a delete that answers yes makes it absent, and a swap that found its first value makes it present
/// with its second one.
pub(crate) fn answer<A: Allocator + Copy>(
    memory: &Memory<A>,
    worker: &mut Worker<A>,
) -> Result<Stepped, CoreFault>
    requires { IsReady memory.now worker.old }
    ensures { TakesTurn act.Answer memory.now worker.old memory.now worker.new result }
{
    let Some(op) = worker.operation else {
        return Err(CoreFault::NotNow);
    };
    let Some(reply) = answer_of(memory, worker, op) else {
        return Err(CoreFault::NotNow);
    };
    settle(worker, op, reply);
    put_down(worker);
    Ok(Stepped::Answered(reply))
}
