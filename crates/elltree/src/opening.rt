//! How slots are opened and closed, and get further handles.
ghost use Rattle.std.specs.Prelude.{◌≡◌, ◌≢◌, ◌↔◌, true, None, Some, IfOk, IfErr, OnErr, OnOk, [], ◌∷◌};
ghost use Rattle.elltree.specs.Codes.{IsOneOf, code_of, said_closed, said_open, said_yes};
ghost use Rattle.elltree.specs.Handles.{IsOpened, IsOpenedReusing, MayOpen, RefusesTree, as_pairs, handles_for};
ghost use Rattle.elltree.specs.Slots.{OfHandle, handle_of};
ghost use Rattle.elltree.specs.Told.{SaysWhyShut, TellsAnother};

use crate::Pair;
use crate::codes::{CLOSED, NO_MEMORY, OPEN, TOO_MANY_HANDLES, YES, code_of_refusal};
use crate::handle::{Handle, HandlePlace};
use crate::refusal::Refusal;
use crate::slot::Slot;
use std::alloc::Global;

/// Opens a tree with the given number of cards in which every key up to `KEY_MAX` is shared, and which has the start
/// keys with their values.
#[unsafe(no_mangle)]
pub extern "C" fn elltree_slot_open(
    alloc: Global,
    slot: &mut Slot,
    start: &[Pair],
    cards: u64,
) -> i32
    // With yes the slot has the first handle of a new tree with the start pairs and the cards asked for.
    ensures opened { result ≡ said_yes → OfHandle (IsOpened (as_pairs start.now) cards) (handle_of slot.new.raw.inside) }
    // `BAD_START` is returned exactly if the slot is not open and the start keys do not strictly ascend or there are
    // more than 1,000,000, then `BAD_KEY` exactly for a key above the greatest one, then `BAD_CARDS` exactly if the
    // number of cards is not 1 to 1,000,000, and `NO_MEMORY` only if none of these applies.
    ensures why { SaysWhyShut (as_pairs start.now) cards result }
    // `OPEN` is returned exactly if the slot is open. A call that is refused leaves it as it was.
    ensures busy { (result ≡ said_open) ↔ (slot.old.is_open ≡ true) }
    ensures refused { result ≢ said_yes → slot.new.raw.inside ≡ slot.old.raw.inside }
{
    if slot.is_open {
        return OPEN;
    }
    put_opened(slot, open(alloc, start, cards))
}

/// Opens a tree, as `elltree_slot_open` does, whose cards come back, for this many handles: at least one and at most
/// 1,000,000, and what is outside is taken as the nearest of these. The tree has a slot for each card asked for and
/// each start key, and one more. A change returns `SPENT` if it can take no slot, as `Handle::open_reusing` says, and
/// may be made again. A call for another handle returns `TOO_MANY_HANDLES` if the tree has as many handles as asked
/// for; one that is closed makes room for another. That slots and announcements come back is tested, and no clause says
/// it.
#[unsafe(no_mangle)]
pub extern "C" fn elltree_slot_open_reusing(
    alloc: Global,
    slot: &mut Slot,
    start: &[Pair],
    cards: u64,
    handles: u32,
) -> i32
    // With yes the slot has the first handle of a new tree with the start pairs whose cards come back, with slots for
    // the cards asked for and announcements for the handles asked for, or the nearest number that there may be.
    ensures opened { result ≡ said_yes → OfHandle
        (IsOpenedReusing (as_pairs start.now) cards (handles_for handles)) (handle_of slot.new.raw.inside) }
    // `BAD_START` is returned exactly if the slot is not open and the start keys do not strictly ascend or there are
    // more than 1,000,000, then `BAD_KEY` exactly for a key above the greatest one, then `BAD_CARDS` exactly if the
    // number of cards is not 1 to 1,000,000, and `NO_MEMORY` only if none of these applies.
    ensures why { SaysWhyShut (as_pairs start.now) cards result }
    // `OPEN` is returned exactly if the slot is open. A call that is refused leaves it as it was.
    ensures busy { (result ≡ said_open) ↔ (slot.old.is_open ≡ true) }
    ensures refused { result ≢ said_yes → slot.new.raw.inside ≡ slot.old.raw.inside }
{
    if slot.is_open {
        return OPEN;
    }
    put_opened(slot, open_reusing(alloc, start, cards, handles))
}

// A tree, and its first handle in a box.
fn open(alloc: Global, start: &[Pair], cards: u64) -> Result<Box<HandlePlace, Global>, Refusal>
    ensures opened { IfOk result (λ place. OfHandle (IsOpened (as_pairs start.now) cards) place.value.handle) }
    ensures may { OnOk result (MayOpen (as_pairs start.now) cards) }
    ensures refused { IfErr result (RefusesTree (as_pairs start.now) cards) }
{
    let handle = Handle::open(alloc, start, cards)?;
    Ok(Box::new(alloc, HandlePlace::of(Some(handle)))?)
}

// The same of a tree whose cards come back.
fn open_reusing(
    alloc: Global,
    start: &[Pair],
    cards: u64,
    handles: u32,
) -> Result<Box<HandlePlace, Global>, Refusal>
    ensures opened { IfOk result (λ place. OfHandle
        (IsOpenedReusing (as_pairs start.now) cards (handles_for handles)) place.value.handle) }
    ensures may { OnOk result (MayOpen (as_pairs start.now) cards) }
    ensures refused { IfErr result (RefusesTree (as_pairs start.now) cards) }
{
    let handle = Handle::open_reusing(alloc, start, cards, u64::from(handles))?;
    Ok(Box::new(alloc, HandlePlace::of(Some(handle)))?)
}

// Puts what was opened into a slot that is not open, and returns the code of that.
fn put_opened(slot: &mut Slot, opened: Result<Box<HandlePlace, Global>, Refusal>) -> i32
    requires { slot.old.raw.inside ≡ None }
    ensures put { IfOk opened (λ place. (result ≡ said_yes) × (slot.new.raw.inside ≡ Some place.value)) }
    ensures why { IfErr opened (λ why. (result ≡ code_of why) × (result ≢ said_yes)) }
    ensures refused { IfErr opened (λ _. slot.new.raw.inside ≡ slot.old.raw.inside) }
    ensures shut { result ≢ said_open }
{
    match opened {
        Ok(place) => {
            slot.put(place);
            YES
        }
        Err(refusal) => code_of_refusal(refusal),
    }
}

/// Gives another slot, which is not open yet, a handle of the same tree.
#[tactic(auto, using(crate::proofs::lemmas::Parting::another_refused))]
#[unsafe(no_mangle)]
pub extern "C" fn elltree_slot_another(alloc: Global, from: &mut Slot, into: &mut Slot) -> i32
    // `OPEN` is returned exactly if the other slot is open.
    ensures busy { (result ≡ said_open) ↔ (into.old.is_open ≡ true) }
    // With yes the other slot has a handle of the same tree, with a piece of the share, which has seen of the tree's
    // history what this slot's handle has, and has no calls; that handle goes on as it was, with the rest of the
    // share. `CLOSED` is returned exactly if the slot has no handle. Then, where no card comes back,
    // `TOO_MANY_HANDLES` is returned exactly if the share is the least one, and otherwise only `NO_MEMORY`; where
    // cards come back, it is returned in that case too, and may be in others.
    ensures tells { result ≢ said_open → TellsAnother result (handle_of from.old.raw.inside)
        (handle_of from.new.raw.inside) (handle_of into.new.raw.inside) }
    // A call that is refused leaves both slots as they were.
    ensures refused { result ≢ said_yes → from.new.raw.inside ≡ from.old.raw.inside }
    ensures unopened { result ≢ said_yes → into.new.raw.inside ≡ into.old.raw.inside }
{
    if into.is_open {
        return OPEN;
    }
    let Some(mut place) = from.take(alloc) else {
        return CLOSED;
    };
    let code = match another(alloc, &mut place) {
        Ok(made) => {
            into.put(made);
            YES
        }
        Err(code) => code,
    };
    from.put(place);
    code
}

// Another handle of the tree of a place's handle, in a box of its own, or a code.
fn another(alloc: Global, place: &mut HandlePlace) -> Result<Box<HandlePlace, Global>, i32>
    ensures another { IfOk result (λ made.
        TellsAnother said_yes place.old.handle place.new.handle made.value.handle) }
    ensures why { IfErr result (λ code. TellsAnother code place.old.handle None None) }
    ensures others { IfErr result (λ code. (code ≢ said_yes) × (code ≢ said_open)) }
    ensures refused { OnErr result (place.new ≡ place.old) }
{
    let Some(handle) = place.handle.take() else {
        return Err(CLOSED);
    };
    let Ok(mut made) = Box::new(alloc, HandlePlace::of(None)) else {
        let code = if handle.has_least_share() {
            TOO_MANY_HANDLES
        } else {
            NO_MEMORY
        };
        place.handle = Some(handle);
        return Err(code);
    };
    match handle.another() {
        Ok((kept, other)) => {
            place.handle = Some(kept);
            made.handle = Some(other);
            Ok(made)
        }
        Err((whole, refusal)) => {
            place.handle = Some(whole);
            Err(code_of_refusal(refusal))
        }
    }
}

/// Closes a slot. In a tree whose cards come back, that makes room for another handle. The tree goes with its last slot.
#[unsafe(no_mangle)]
pub extern "C" fn elltree_slot_free(alloc: Global, slot: &mut Slot) -> i32
    // It leaves the slot empty. It returns `CLOSED` exactly if the slot was empty before, and otherwise yes.
    ensures closed { slot.new.raw.inside ≡ None }
    ensures none { (result ≡ said_closed) ↔ (slot.old.raw.inside ≡ None) }
    ensures codes { IsOneOf (said_yes ∷ said_closed ∷ []) result }
{
    match slot.take(alloc) {
        Some(mut place) => {
            release(&mut place);
            YES
        }
        None => CLOSED,
    }
}

// Gives the handle of a place up, if it has one.
fn release(place: &mut HandlePlace)
    ensures { place.new.handle ≡ None }
{
    if let Some(handle) = place.handle.take() {
        handle.release();
    }
}
