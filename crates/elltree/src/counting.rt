//! How many cards are left, and how many steps were made.
ghost use Rattle.std.specs.Prelude.{◌≡◌, ◌≢◌, ◌↔◌, None};
ghost use Rattle.elltree.specs.Calls.{ReadsCards};
ghost use Rattle.elltree.specs.Codes.{said_closed};
ghost use Rattle.elltree.specs.Slots.{OfHandlesIfAny, handle_of};
ghost use Rattle.elltree.specs.Told.{CountsSteps, SaysWith, code_of_count, count_of};

use crate::codes::{CLOSED, YES};
use crate::slot::Slot;
use std::alloc::Global;

/// Writes how many cards of the slot's tree are not given out yet, 0 if all are: the number at one step of the call. No
/// more than that are ever left in this tree afterwards. A tree whose cards come back has a card for each of
/// 2^62 numbers, however few slots it has, and these are counted.
#[unsafe(no_mangle)]
pub extern "C" fn elltree_slot_cards_left(alloc: Global, slot: &mut Slot, left: &mut u64) -> i32
    // `CLOSED` is returned exactly if the slot has no handle, and then nothing is written.
    ensures closed { (result ≡ said_closed) ↔ (handle_of slot.old.raw.inside ≡ None) }
    ensures kept { result ≡ said_closed → left.new ≡ left.old }
    // The answer is yes, and the tree's number is written.
    ensures tells { OfHandlesIfAny (SaysWith ReadsCards code_of_count count_of result left.old left.new)
        (handle_of slot.old.raw.inside) (handle_of slot.new.raw.inside) }
{
    let Some(found) = slot.with_handle(alloc, |handle| handle.cards_left()) else {
        return CLOSED;
    };
    *left = found;
    YES
}

/// Writes how many atomic steps were made in a row through the slot's handle, and through those that it came from.
#[unsafe(no_mangle)]
pub extern "C" fn elltree_slot_steps(alloc: Global, slot: &mut Slot, steps: &mut u64) -> i32
    // `CLOSED` is returned exactly if the slot has no handle, and then nothing is written.
    ensures closed { (result ≡ said_closed) ↔ (handle_of slot.old.raw.inside ≡ None) }
    ensures kept { result ≡ said_closed → steps.new ≡ steps.old }
    // The answer is yes, and the handle's number is written. The handle stays as it was.
    ensures tells { OfHandlesIfAny (SaysWith CountsSteps code_of_count count_of result steps.old steps.new)
        (handle_of slot.old.raw.inside) (handle_of slot.new.raw.inside) }
{
    let Some(found) = slot.with_handle(alloc, |handle| handle.steps()) else {
        return CLOSED;
    };
    *steps = found;
    YES
}
