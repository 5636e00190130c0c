//! A list of operations, applied by one thread to an ordered map.
ghost use Rattle.std.specs.Prelude.{◌≡◌, IfOk, OnOk, OnErr};
ghost use Rattle.std.specs.List.Sorted.{IsStrictlyIncreasing};
ghost use Rattle.std.specs.Map.{keys_of};
ghost use Rattle.ell_ops.specs.declared.op.Op.TheVariants.{Insert, Swap};
ghost use Rattle.ell_ops.specs.Contents.{contents_of, nothing, ListsPairs};
ghost use Rattle.ell_ops.specs.Meaning.{reply_of, after, AddsKey, replies, final};

use crate::no_memory::NoMemory;
use crate::op::Op;
use crate::reply::Reply;
use std::alloc::Allocator;
use std::collections::BTreeMap;

/// Applies one operation to an ordered map. Find and swap return the key's value if the key is present, insert returns
/// whether it was absent, and delete returns whether it was present. An insert of a present key leaves its value, and a
/// swap changes the value only if it is the one that the swap names. Only an insert of an absent key can return
/// `NoMemory`, and then the map is as it was.
pub fn apply<A: Allocator + Copy>(
    map: &mut BTreeMap<u64, u64, A>,
    op: Op,
) -> Result<Reply, NoMemory>
    // The reply is that of the operation on the map as it was.
    ensures reply { IfOk result (λ reply. reply ≡ reply_of op (contents_of map.old.entries)) }
    // The map becomes what the operation makes of it.
    ensures after { OnOk result (contents_of map.new.entries ≡ after op (contents_of map.old.entries)) }
    // The call fails only at an insert of an absent key, and leaves the map as it was.
    ensures err { OnErr result (map.new.entries ≡ map.old.entries) }
    ensures refused { OnErr result (AddsKey op (contents_of map.old.entries)) }
{
    match op {
        Op::Find(key) => Ok(Reply::found(map.get(&key).copied())),
        Op::Insert(key, value) => insert(map, key, value),
        Op::Delete(key) => Ok(Reply::yes_if(map.remove(&key).is_some())),
        Op::Swap(key, was, value) => Ok(swap(map, key, was, value)),
    }
}

// Adds a key with its value, unless it is present.
fn insert<A: Allocator + Copy>(
    map: &mut BTreeMap<u64, u64, A>,
    key: u64,
    value: u64,
) -> Result<Reply, NoMemory>
    ensures reply { IfOk result (λ reply. reply ≡ reply_of (Insert key value) (contents_of map.old.entries)) }
    ensures after { OnOk result (contents_of map.new.entries ≡ after (Insert key value) (contents_of map.old.entries)) }
    ensures err { OnErr result (map.new.entries ≡ map.old.entries) }
    ensures refused { OnErr result (AddsKey (Insert key value) (contents_of map.old.entries)) }
{
    if map.contains_key(&key) {
        return Ok(Reply::No);
    }
    map.insert(key, value)?;
    Ok(Reply::Yes)
}

// Changes a key's value from one to another, if the key has the first one. Returns the value that was found.
fn swap<A: Allocator + Copy>(
    map: &mut BTreeMap<u64, u64, A>,
    key: u64,
    was: u64,
    value: u64,
) -> Reply
    ensures reply { result ≡ reply_of (Swap key was value) (contents_of map.old.entries) }
    ensures after { contents_of map.new.entries ≡ after (Swap key was value) (contents_of map.old.entries) }
{
    let Some(there) = map.get_mut(&key) else {
        return Reply::No;
    };
    let found = *there;
    if found == was {
        *there = value;
    }
    Reply::Found(found)
}

/// Applies a list of operations to the empty map, one after the other. Returns the reply to each operation, in their
/// order, and the keys of the last map, ascending, with their values.
pub fn apply_all<A: Allocator + Copy>(
    alloc: A,
    ops: &[Op],
) -> Result<(Vec<Reply, A>, Vec<(u64, u64), A>), NoMemory>
    // The replies are those of one thread that applies the operations in their order to the empty map.
    ensures replies { IfOk result (λ done. done.0.items ≡ replies nothing ops.now) }
    // The pairs are those of the map that it leaves, strictly ascending by their keys.
    ensures pairs { IfOk result (λ done. ListsPairs (final nothing ops.now) done.1.items) }
{
    apply_from(alloc, &[], ops)
}

/// Does the same from the map of `start`, whose keys are strictly ascending.
pub fn apply_from<A: Allocator + Copy>(
    alloc: A,
    start: &[(u64, u64)],
    ops: &[Op],
) -> Result<(Vec<Reply, A>, Vec<(u64, u64), A>), NoMemory>
    requires { IsStrictlyIncreasing (keys_of start.now) }
    // The replies are those of one thread that applies the operations in their order to the map of the start pairs.
    ensures replies { IfOk result (λ done. done.0.items ≡ replies (contents_of start.now) ops.now) }
    // The pairs are those of the map that it leaves, strictly ascending by their keys.
    ensures pairs { IfOk result (λ done. ListsPairs (final (contents_of start.now) ops.now) done.1.items) }
{
    let mut map = ordered_map(alloc, start)?;
    let mut replies = Vec::with_capacity(alloc, ops.len())?;
    for op in ops {
        replies.push(apply(&mut map, *op)?)?;
    }
    let pairs = map
        .iter()
        .map(|(key, value)| (*key, *value))
        .collect(alloc)?;
    Ok((replies, pairs))
}

// The map of the pairs in a list.
fn ordered_map<A: Allocator + Copy>(
    alloc: A,
    pairs: &[(u64, u64)],
) -> Result<BTreeMap<u64, u64, A>, NoMemory>
    ensures { IfOk result (λ map. contents_of map.entries ≡ contents_of pairs.now) }
{
    let mut map = BTreeMap::new(alloc);
    for (key, value) in pairs {
        insert(&mut map, *key, *value)?;
    }
    Ok(map)
}
