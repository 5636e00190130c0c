//! The events of the machine, and their outcomes.
ghost use Rattle.std.specs.Prelude.{◌≡◌};

use ell_ops::{NoMemory, Op, Reply};
use std::alloc::{AllocError, AllocFailed};

/// One event: a worker, by its number, and what it does.
#[derive(Clone, Copy, Debug, PartialEq, Eq)]
pub struct Event {
    pub worker: u32,
    pub act: Act,
}

/// What a worker does. Six acts name the card that they help.
#[derive(Clone, Copy, Debug, PartialEq, Eq)]
pub enum Act {
    /// Takes an operation in hand, and stands at the root.
    Begin(Op),
    /// Reads the update word of the node where it stands.
    Upd,
    /// Goes down to the child on its key's side.
    Down,
    /// Takes the next card, and fills it. In a flat tree a card in hand that has not won its flag is discarded for it.
    Claim,
    /// Flags the parent for its insert.
    IFlag,
    /// Flags the grandparent for its delete.
    DFlag,
    /// Exchanges the child of an insert's parent.
    IChild(u64),
    /// Takes an insert's flag away.
    IUnflag(u64),
    /// Marks the parent of a delete.
    Mark(u64),
    /// Exchanges the child of a delete's grandparent.
    DChild(u64),
    /// Takes a delete's flag away, after its child exchange.
    DUnflag(u64),
    /// Takes a delete's flag away, after its lost mark.
    Backtrack(u64),
    /// Starts the search anew.
    Again,
    /// Gives the operation up without an answer.
    Leave,
    /// Answers the operation.
    Answer,
}

/// What an event answers.
#[derive(Clone, Copy, Debug, PartialEq, Eq)]
pub enum Stepped {
    Moved,
    /// The exchange found what it expected.
    Won,
    /// The exchange found another word.
    Lost,
    /// The operation's answer.
    Answered(Reply),
}

/// Why an event, or an opening, is refused. The refusals of an event are tested in this order.
#[derive(Clone, Copy, Debug, PartialEq, Eq)]
pub enum CoreFault {
    /// The worker's number is not below the number of workers.
    NoSuchWorker,
    /// The worker does not own the key of the operation that it would begin.
    NotOwned,
    /// The event's guard does not hold.
    NotNow,
    /// All cards are claimed.
    NoCards,
    /// A key is already owned. Only an opening is refused for this reason.
    OwnedTwice,
    /// An allocation failed.
    NoMemory,
}

impl From<NoMemory> for CoreFault {
    ghost use Rattle.ell_core.specs.declared.event.CoreFault.TheVariants as fault;

    ghost from_gives = { λ _ e. e ≡ fault.NoMemory };

    fn from(_: NoMemory) -> CoreFault {
        CoreFault::NoMemory
    }
}

impl From<AllocError> for CoreFault {
    ghost use Rattle.ell_core.specs.declared.event.CoreFault.TheVariants as fault;

    ghost from_gives = { λ _ e. e ≡ fault.NoMemory };

    fn from(_: AllocError) -> CoreFault {
        CoreFault::NoMemory
    }
}

impl<T: Drop> From<AllocFailed<T>> for CoreFault {
    ghost use Rattle.ell_core.specs.declared.event.CoreFault.TheVariants as fault;

    ghost from_gives = { λ _ e. e ≡ fault.NoMemory };

    fn from(_: AllocFailed<T>) -> CoreFault {
        CoreFault::NoMemory
    }
}

/// What a replay shows of an event.
#[derive(Clone, Copy, Debug, PartialEq, Eq)]
pub enum Shown {
    Step(Stepped),
    Refused(CoreFault),
}
