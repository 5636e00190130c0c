//! Finds, looks, inserts and deletes.
ghost use Rattle.std.specs.Prelude.{◌≡◌, ◌↔◌, None};
ghost use Rattle.elltree.specs.Calls.{Deletes, Finds, Inserts, LooksUp, Outcome, Takes};
ghost use Rattle.elltree.specs.Codes.{code_of_found, code_of_value, code_of_whether, said_closed};
ghost use Rattle.elltree.specs.Slots.{OfHandlesIfAny, handle_of};
ghost use Rattle.elltree.specs.Told.{Says, SaysWith, value_found, value_of};

use crate::codes::{CLOSED, tell, tell_value};
use crate::slot::Slot;
use std::alloc::Global;

/// Returns whether a key is present, and writes its value. No key above `KEY_MAX` is present.
#[unsafe(no_mangle)]
pub extern "C" fn elltree_slot_find(
    alloc: Global,
    slot: &mut Slot,
    key: u64,
    value: &mut u64,
) -> i32
    // `CLOSED` is returned exactly if the slot has no handle, and then nothing is written.
    ensures closed { (result ≡ said_closed) ↔ (handle_of slot.old.raw.inside ≡ None) }
    ensures kept { result ≡ said_closed → value.new ≡ value.old }
    // The answer is that of the tree's `find`: yes, and the value is written, or no. It is the handle's last call in
    // the tree's history, and began behind all that the handle had seen of that; a key above the greatest one adds no
    // call.
    ensures tells { OfHandlesIfAny (SaysWith (Finds key) code_of_found value_found result value.old value.new)
        (handle_of slot.old.raw.inside) (handle_of slot.new.raw.inside) }
{
    let Some(there) = slot.with_handle(alloc, |handle| handle.find(key)) else {
        return CLOSED;
    };
    tell_value(Ok(there), value)
}

/// Returns whether a key is present, and writes its value: as they were in one state of the tree during the call. No
/// key above `KEY_MAX` is present.
#[unsafe(no_mangle)]
pub extern "C" fn elltree_slot_look(
    alloc: Global,
    slot: &mut Slot,
    key: u64,
    value: &mut u64,
) -> i32
    // `CLOSED` is returned exactly if the slot has no handle, and then nothing is written.
    ensures closed { (result ≡ said_closed) ↔ (handle_of slot.old.raw.inside ≡ None) }
    ensures kept { result ≡ said_closed → value.new ≡ value.old }
    // The answer is that of the tree's `look`: yes, and the value is written, or no. Each key up to the greatest of
    // which it tells has a place in one order of the calls that the handle has seen by then.
    ensures tells { OfHandlesIfAny (SaysWith (LooksUp key) code_of_found value_found result value.old value.new)
        (handle_of slot.old.raw.inside) (handle_of slot.new.raw.inside) }
{
    let Some(there) = slot.with_handle(alloc, |handle| handle.look(key)) else {
        return CLOSED;
    };
    tell_value(Ok(there), value)
}

/// Adds a key with its value. Returns whether the key was absent. A key that is present keeps its value.
#[unsafe(no_mangle)]
pub extern "C" fn elltree_slot_insert(
    alloc: Global,
    slot: &mut Slot,
    key: u64,
    value: u64,
    tries: u32,
) -> i32
    // `CLOSED` is returned exactly if the slot has no handle.
    ensures closed { (result ≡ said_closed) ↔ (handle_of slot.old.raw.inside ≡ None) }
    // `NO_TRIES` is returned exactly if no try is allowed, then `BAD_KEY` exactly for a key above the greatest one,
    // and both leave the handle as it was. Otherwise the answer is that of the tree's `insert`. An answered call is
    // the handle's last one in the tree's history, and began behind all that the handle had seen of that; any other
    // adds none.
    ensures tells { OfHandlesIfAny (Says (Outcome key tries (Inserts key value tries)) code_of_whether result)
        (handle_of slot.old.raw.inside) (handle_of slot.new.raw.inside) }
{
    match slot.with_handle(alloc, |handle| handle.insert(key, value, tries)) {
        Some(said) => tell(said),
        None => CLOSED,
    }
}

/// Deletes a key with its value. Returns whether the key was present.
#[unsafe(no_mangle)]
pub extern "C" fn elltree_slot_delete(alloc: Global, slot: &mut Slot, key: u64, tries: u32) -> i32
    // `CLOSED` is returned exactly if the slot has no handle.
    ensures closed { (result ≡ said_closed) ↔ (handle_of slot.old.raw.inside ≡ None) }
    // `NO_TRIES` and `BAD_KEY` are returned as by `elltree_slot_insert`. Otherwise the answer is that of the tree's
    // `delete`. An answered call is the handle's last one in the tree's history, and began behind all that the handle
    // had seen of that; any other adds none.
    ensures tells { OfHandlesIfAny (Says (Outcome key tries (Deletes key tries)) code_of_whether result)
        (handle_of slot.old.raw.inside) (handle_of slot.new.raw.inside) }
{
    match slot.with_handle(alloc, |handle| handle.delete(key, tries)) {
        Some(said) => tell(said),
        None => CLOSED,
    }
}

/// Deletes a key. Returns whether the key was present, and writes the value that it took, which no other call took.
#[unsafe(no_mangle)]
pub extern "C" fn elltree_slot_take(
    alloc: Global,
    slot: &mut Slot,
    key: u64,
    tries: u32,
    taken: &mut u64,
) -> i32
    // `CLOSED` is returned exactly if the slot has no handle, and then nothing is written.
    ensures closed { (result ≡ said_closed) ↔ (handle_of slot.old.raw.inside ≡ None) }
    ensures kept { result ≡ said_closed → taken.new ≡ taken.old }
    // `NO_TRIES` and `BAD_KEY` are returned as by `elltree_slot_insert`. Otherwise the answer is that of the tree's
    // `take`: the value is written with yes. An answered call is the handle's last one in the tree's history, in which
    // it took what it tells, and began behind all that the handle had seen of that; any other adds none.
    ensures tells { OfHandlesIfAny
        (SaysWith (Outcome key tries (Takes key tries)) code_of_value value_of result taken.old taken.new)
        (handle_of slot.old.raw.inside) (handle_of slot.new.raw.inside) }
{
    let Some(said) = slot.with_handle(alloc, |handle| handle.take(key, tries)) else {
        return CLOSED;
    };
    tell_value(said, taken)
}
