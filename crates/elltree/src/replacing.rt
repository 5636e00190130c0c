//! Compares, puts, sums and removals of values in place.
ghost use Rattle.std.specs.Prelude.{◌≡◌, ◌↔◌, None};
ghost use Rattle.elltree.specs.Calls.{Adds, Outcome, Puts, Removes, Swaps};
ghost use Rattle.elltree.specs.Codes.{code_of_expected, code_of_value, said_closed};
ghost use Rattle.elltree.specs.Slots.{OfHandlesIfAny, handle_of};
ghost use Rattle.elltree.specs.Told.{SaysWith, value_of};

use crate::codes::{CLOSED, tell_expected, tell_value};
use crate::slot::Slot;
use std::alloc::Global;

/// Stores `new` as the value of a key if its value is `current`. Returns whether it was exchanged, and if not, whether
/// the key is absent or has another value. The value that was found is written, if there was one.
#[unsafe(no_mangle)]
pub extern "C" fn elltree_slot_compare_exchange(
    alloc: Global,
    slot: &mut Slot,
    key: u64,
    current: u64,
    new: u64,
    tries: u32,
    found: &mut u64,
) -> i32
    // `CLOSED` is returned exactly if the slot has no handle, and then nothing is written.
    ensures closed { (result ≡ said_closed) ↔ (handle_of slot.old.raw.inside ≡ None) }
    ensures kept { result ≡ said_closed → found.new ≡ found.old }
    // `NO_TRIES` and `BAD_KEY` are returned as by `elltree_slot_insert`. Otherwise the answer is that of the tree's
    // `swap`: yes if the key had the expected value, no if it is absent, and `OTHER_VALUE` if it has another one,
    // which is written. An answered call is the handle's last one in the tree's history, and began behind all that the
    // handle had seen of that; any other adds none.
    ensures tells { OfHandlesIfAny
        (SaysWith (Outcome key tries (Swaps key current new tries)) (code_of_expected current) value_of result found.old found.new)
        (handle_of slot.old.raw.inside) (handle_of slot.new.raw.inside) }
{
    let said = slot.with_handle(alloc, |handle| {
        handle.compare_exchange(key, current, new, tries)
    });
    match said {
        Some(said) => tell_expected(said, current, found),
        None => CLOSED,
    }
}

/// Removes a key if its value is `current`. Returns whether it was removed, and if not, whether the key is absent or has
/// another value. The value that was found is written, if there was one.
#[unsafe(no_mangle)]
pub extern "C" fn elltree_slot_remove_if(
    alloc: Global,
    slot: &mut Slot,
    key: u64,
    current: u64,
    tries: u32,
    found: &mut u64,
) -> i32
    // `CLOSED` is returned exactly if the slot has no handle, and then nothing is written.
    ensures closed { (result ≡ said_closed) ↔ (handle_of slot.old.raw.inside ≡ None) }
    ensures kept { result ≡ said_closed → found.new ≡ found.old }
    // `NO_TRIES` and `BAD_KEY` are returned as by `elltree_slot_insert`. Otherwise the answer is that of the tree's
    // `remove_if`: yes if the key had the expected value, no if it is absent, and `OTHER_VALUE` if it has another one,
    // which is written. Its operations are the handle's last calls in the tree's history, and each began behind all
    // that the handle had seen of that before; only the last one of an answered call may have changed anything.
    ensures tells { OfHandlesIfAny
        (SaysWith (Outcome key tries (Removes key current tries)) (code_of_expected current) value_of result found.old found.new)
        (handle_of slot.old.raw.inside) (handle_of slot.new.raw.inside) }
{
    match slot.with_handle(alloc, |handle| handle.remove_if(key, current, tries)) {
        Some(said) => tell_expected(said, current, found),
        None => CLOSED,
    }
}

/// Stores a value of a key, whether the key was present or not. Returns whether it was; if it was, the value that it had
/// is written.
#[unsafe(no_mangle)]
pub extern "C" fn elltree_slot_put(
    alloc: Global,
    slot: &mut Slot,
    key: u64,
    value: u64,
    tries: u32,
    was: &mut u64,
) -> i32
    // `CLOSED` is returned exactly if the slot has no handle, and then nothing is written.
    ensures closed { (result ≡ said_closed) ↔ (handle_of slot.old.raw.inside ≡ None) }
    ensures kept { result ≡ said_closed → was.new ≡ was.old }
    // `NO_TRIES` and `BAD_KEY` are returned as by `elltree_slot_insert`. Otherwise the answer is that of the tree's
    // call of this name: yes, and the old value is written, if the key was present, and otherwise no. Its operations
    // are the handle's last calls in the tree's history, and each began behind all that the handle had seen of that
    // before; only the last one of an answered call may have changed anything.
    ensures tells { OfHandlesIfAny
        (SaysWith (Outcome key tries (Puts key value tries)) code_of_value value_of result was.old was.new)
        (handle_of slot.old.raw.inside) (handle_of slot.new.raw.inside) }
{
    match slot.with_handle(alloc, |handle| handle.put(key, value, tries)) {
        Some(said) => tell_value(said, was),
        None => CLOSED,
    }
}

/// Adds to the value of a key, modulo 2^64. Returns whether the key is present; if it is, the value that it had is
/// written. A key that is absent stays absent.
#[unsafe(no_mangle)]
pub extern "C" fn elltree_slot_fetch_add(
    alloc: Global,
    slot: &mut Slot,
    key: u64,
    addend: u64,
    tries: u32,
    was: &mut u64,
) -> i32
    // `CLOSED` is returned exactly if the slot has no handle, and then nothing is written.
    ensures closed { (result ≡ said_closed) ↔ (handle_of slot.old.raw.inside ≡ None) }
    ensures kept { result ≡ said_closed → was.new ≡ was.old }
    // `NO_TRIES` and `BAD_KEY` are returned as by `elltree_slot_insert`. Otherwise the answer is that of the tree's
    // call of this name: yes, and the old value is written, if the key was present, and otherwise no. Its operations
    // are the handle's last calls in the tree's history, and each began behind all that the handle had seen of that
    // before; only the last one of an answered call may have changed anything.
    ensures tells { OfHandlesIfAny
        (SaysWith (Outcome key tries (Adds key addend tries)) code_of_value value_of result was.old was.new)
        (handle_of slot.old.raw.inside) (handle_of slot.new.raw.inside) }
{
    match slot.with_handle(alloc, |handle| handle.fetch_add(key, addend, tries)) {
        Some(said) => tell_value(said, was),
        None => CLOSED,
    }
}
