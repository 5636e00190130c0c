//! An event's turn: the words, its worker, and what it does.
ghost use Rattle.ell_world.specs.Inside.{IsReady, TakesTurn};

use crate::exchanges::{backtrack, dchild, dflag, dunflag, ichild, iflag, iunflag, mark};
use crate::memory::Memory;
use crate::searching::{again, answer, begin, claim, down, leave, upd};
use crate::worker::Worker;
use ell_core::{Act, CoreFault, Stepped};
use std::alloc::Allocator;

/// Does what the act says, or refuses it and changes nothing.
pub(crate) fn turn<A: Allocator + Copy>(
    memory: &mut Memory<A>,
    worker: &mut Worker<A>,
    act: Act,
) -> Result<Stepped, CoreFault>
    requires { IsReady memory.old worker.old }
    ensures { TakesTurn act memory.old worker.old memory.new worker.new result }
{
    match act {
        Act::Begin(op) => begin(memory, worker, op),
        Act::Upd => upd(memory, worker),
        Act::Down => down(memory, worker),
        Act::Claim => claim(memory, worker),
        Act::IFlag => iflag(memory, worker),
        Act::DFlag => dflag(memory, worker),
        Act::IChild(card) => ichild(memory, worker, card),
        Act::IUnflag(card) => iunflag(memory, worker, card),
        Act::Mark(card) => mark(memory, worker, card),
        Act::DChild(card) => dchild(memory, worker, card),
        Act::DUnflag(card) => dunflag(memory, worker, card),
        Act::Backtrack(card) => backtrack(memory, worker, card),
        Act::Again => again(memory, worker),
        Act::Leave => leave(memory, worker),
        Act::Answer => answer(memory, worker),
    }
}
