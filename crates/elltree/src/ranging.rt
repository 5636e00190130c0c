//! Scans of a range, and the next key above or below one.
ghost use Rattle.std.specs.Prelude.{◌≡◌, ◌≢◌, ◌↔◌, None};
ghost use Rattle.elltree.specs.Calls.{SeeksLast, SeeksNext};
ghost use Rattle.elltree.specs.Codes.{code_of_found, said_closed};
ghost use Rattle.elltree.specs.Slots.{OfHandlesIfAny, handle_of};
ghost use Rattle.elltree.specs.Told.{SaysRange, SaysWith, pair_of};

use crate::Pair;
use crate::codes::{CLOSED, NO, YES};
use crate::handle::Handle;
use crate::slot::Slot;
use std::alloc::Global;

/// Writes the pairs of the keys that are at least `from` and below `upto`, ascending, as far as there is room, the
/// number of pairs written, and the key at which to continue: `upto`, if the range is written to its end. Each key is
/// reported as it was in one state of the tree during the call: two keys may be of two states.
#[unsafe(no_mangle)]
pub extern "C" fn elltree_slot_range(
    alloc: Global,
    slot: &mut Slot,
    from: u64,
    upto: u64,
    out: &mut [Pair],
    count: &mut usize,
    next: &mut u64,
) -> i32
    // `CLOSED` is returned exactly if the slot has no handle, and then nothing is written.
    ensures closed { (result ≡ said_closed) ↔ (handle_of slot.old.raw.inside ≡ None) }
    ensures kept { result ≡ said_closed → (out.new ≡ out.old) × ((count.new ≡ count.old) × (next.new ≡ next.old)) }
    // The answer is that of the tree's `scan`, always with yes: the pairs, their number, and where to continue, which
    // is the end of the range, or the array is full. The rest of the array is unchanged. Each key up to the greatest
    // of which it tells has a place in one order of the calls that the handle has seen by then.
    ensures tells { OfHandlesIfAny (SaysRange from upto result count.new next.new out.old out.new)
        (handle_of slot.old.raw.inside) (handle_of slot.new.raw.inside) }
{
    let Some(mut place) = slot.take(alloc) else {
        return CLOSED;
    };
    let code = match &mut place.handle {
        Some(handle) => range(handle, from, upto, out, count, next),
        None => CLOSED,
    };
    slot.put(place);
    code
}

// A scan as a code.
fn range(
    handle: &mut Handle,
    from: u64,
    upto: u64,
    out: &mut [Pair],
    count: &mut usize,
    next: &mut u64,
) -> i32
    ensures tells { SaysRange from upto result count.new next.new out.old out.new handle.old handle.new }
{
    let scanned = handle.scan(from, upto, out);
    *count = scanned.count;
    *next = scanned.next.unwrap_or(upto);
    YES
}

/// Returns whether a key that is at least `key` is present, and writes the least of them with its value: it was present
/// in one state of the tree during the call, and each key before it was absent in one.
#[unsafe(no_mangle)]
pub extern "C" fn elltree_slot_next_at_least(
    alloc: Global,
    slot: &mut Slot,
    key: u64,
    found: &mut u64,
    value: &mut u64,
) -> i32
    // `CLOSED` is returned exactly if the slot has no handle, and then nothing is written.
    ensures closed { (result ≡ said_closed) ↔ (handle_of slot.old.raw.inside ≡ None) }
    ensures kept { result ≡ said_closed → (found.new ≡ found.old) × (value.new ≡ value.old) }
    // The answer is that of the tree's call of this name: yes, and the key and its value are written, or no. Each key
    // up to the greatest of which it tells has a place in one order of the calls that the handle has seen by then.
    ensures tells { OfHandlesIfAny
        (SaysWith (SeeksNext key) code_of_found pair_of result (found.old, value.old) (found.new, value.new))
        (handle_of slot.old.raw.inside) (handle_of slot.new.raw.inside) }
{
    let Some(there) = slot.with_handle(alloc, |handle| handle.next_at_least(key)) else {
        return CLOSED;
    };
    tell_pair(there, found, value)
}

/// Returns whether a key that is at most `key` is present, and writes the greatest of them with its value: it was
/// present in one state of the tree during the call, and each key after it was absent in one.
#[unsafe(no_mangle)]
pub extern "C" fn elltree_slot_last_at_most(
    alloc: Global,
    slot: &mut Slot,
    key: u64,
    found: &mut u64,
    value: &mut u64,
) -> i32
    // `CLOSED` is returned exactly if the slot has no handle, and then nothing is written.
    ensures closed { (result ≡ said_closed) ↔ (handle_of slot.old.raw.inside ≡ None) }
    ensures kept { result ≡ said_closed → (found.new ≡ found.old) × (value.new ≡ value.old) }
    // The answer is that of the tree's call of this name: yes, and the key and its value are written, or no. Each key
    // up to the greatest of which it tells has a place in one order of the calls that the handle has seen by then.
    ensures tells { OfHandlesIfAny
        (SaysWith (SeeksLast key) code_of_found pair_of result (found.old, value.old) (found.new, value.new))
        (handle_of slot.old.raw.inside) (handle_of slot.new.raw.inside) }
{
    let Some(there) = slot.with_handle(alloc, |handle| handle.last_at_most(key)) else {
        return CLOSED;
    };
    tell_pair(there, found, value)
}

// What was found, as a code. It is written.
fn tell_pair(there: Option<(u64, u64)>, found: &mut u64, value: &mut u64) -> i32
    ensures code { result ≡ code_of_found there }
    ensures closed { result ≢ said_closed }
    ensures pair { (found.new, value.new) ≡ pair_of there (found.old, value.old) }
{
    let Some(pair) = there else {
        return NO;
    };
    (*found, *value) = pair;
    YES
}
