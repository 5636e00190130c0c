//! What a table asks of its memory: words that passes share, wherever they lie, and seats by which passes step on them.
ghost use Rattle.std.specs.Prelude.{◌≡◌, ◌<◌, ◌==◌, []};
ghost use mathlib.Core.Option.{none};
ghost use prog.Atomic.{either};
ghost use Rattle.atomic_table.specs.Table.{Allows, Joins, Splits, step};
ghost use Rattle.ell_cards.specs.Whole.{IsWhole};

use crate::view::Known;
use atomic_table::{Join, Play, Split};
use std::alloc::Allocator;
use std::marker::Model;

/// What a pass has of the memory of its table. It steps on the memory's words by this alone.
#[derive(Drop)]
pub struct Seat<M: Memory> {
    pub(crate) seat: M::Seat,
}

impl<M: Memory> Model for Seat<M> {
    ghost use Rattle.ell_cards.specs.Memories.{SeatModel};

    ghost Value = { SeatModel };

    ghost view = { λ s. M.stands s.seat };
}

/// Words that passes share, and a step of each kind that a table makes on them. A step takes place at one moment, and
/// keeps the rule of tables; its contract is that of the step of the same name of `atomic_table`.
pub trait Memory: Drop {
    ghost use Rattle.atomic_table.specs.Seated.{TableId};
    ghost use Rattle.ell_cards.specs.Memories.{SeatModel};
    ghost use Rattle.ell_runs.specs.Plans.{TablePlan};

    /// The allocator of the memory, which the keys of passes come from too.
    type Alloc: Allocator + Copy;

    /// What the memory keeps in the seat of a pass.
    type Seat: Drop;

    // Which memory it is, and how many words it has.
    ghost table_id: { Self → TableId };

    // The plan of the table whose rule its words keep.
    ghost key: { Self → TablePlan };

    // The memory that a seat steps on, its number there, and what it knows.
    ghost stands: { Self.Seat → SeatModel };

    /// Loads a word.
    fn load<J: Play<(), Known>>(&self, seat: &mut Seat<Self>, word: usize) -> u64
        requires { (seat.old.table_id ≡ table_id self.now) × (word < (table_id self.now).words)
            × Allows (IsWhole (key self.now)) (table_id self.now).slots seat.old.id seat.old.me word (λ n. n)
            (J.then (step (table_id self.now).slots word 0 0 none) seat.old.me) }
        ensures { (seat.new.table_id ≡ seat.old.table_id) × (seat.new.id ≡ seat.old.id)
            × J.then (step (table_id self.now).slots word 0 0 none) seat.old.me result seat.new.me };

    /// Stores a word.
    fn store<J: Play<(), Known>>(&self, seat: &mut Seat<Self>, word: usize, new: u64)
        requires { (seat.old.table_id ≡ table_id self.now) × (word < (table_id self.now).words)
            × Allows (IsWhole (key self.now)) (table_id self.now).slots seat.old.id seat.old.me word (λ _. new)
            (λ _. J.then (step (table_id self.now).slots word new 0 none) seat.old.me new) }
        ensures { (seat.new.table_id ≡ seat.old.table_id) × (seat.new.id ≡ seat.old.id)
            × J.then (step (table_id self.now).slots word new 0 none) seat.old.me new seat.new.me };

    /// Makes a word `new` if it is `old`, and returns what it was.
    fn compare_exchange<J: Play<(), Known>>(
        &self,
        seat: &mut Seat<Self>,
        word: usize,
        old: u64,
        new: u64,
    ) -> u64
        requires { (seat.old.table_id ≡ table_id self.now) × (word < (table_id self.now).words)
            × Allows (IsWhole (key self.now)) (table_id self.now).slots seat.old.id seat.old.me word
            (λ n. either (n == old) new n) (J.then (step (table_id self.now).slots word old new none) seat.old.me) }
        ensures { (seat.new.table_id ≡ seat.old.table_id) × (seat.new.id ≡ seat.old.id)
            × J.then (step (table_id self.now).slots word old new none) seat.old.me result seat.new.me };

    /// Parts what a seat knows, and returns the seat of the other part.
    fn split_seat<J: Split<Known>>(&self, seat: &mut Seat<Self>) -> Seat<Self>
        requires { (seat.old.table_id ≡ table_id self.now) × (0 < (table_id self.now).words)
            × Splits (IsWhole (key self.now)) seat.old.id seat.old.me.0 (J.left seat.old.me.0) (J.right seat.old.me.0) }
        ensures { (seat.new.table_id ≡ seat.old.table_id) × (seat.new.id ≡ seat.old.id)
            × (seat.new.me ≡ (J.left seat.old.me.0, seat.old.me.1))
            × (result.table_id ≡ seat.old.table_id) × (result.me ≡ (J.right seat.old.me.0, [])) };

    /// Adds what another seat knows, which goes, to what a seat knows.
    fn join_seat<J: Join<Known>>(&self, seat: &mut Seat<Self>, other: Self::Seat)
        requires { (seat.old.table_id ≡ table_id self.now) × ((stands other).table_id ≡ table_id self.now)
            × ((stands other).me.1 ≡ []) × (0 < (table_id self.now).words)
            × Joins (IsWhole (key self.now)) seat.old.id seat.old.me.0 (stands other).id (stands other).me.0
            (J.both seat.old.me.0 (stands other).me.0) J.spent }
        ensures { (seat.new.table_id ≡ seat.old.table_id) × (seat.new.id ≡ seat.old.id)
            × (seat.new.me ≡ (J.both seat.old.me.0 (stands other).me.0, seat.old.me.1)) };
}

/// Adds what another seat knows, which goes, to what a seat knows: `Memory::join_seat`, for seats as passes have them.
#[inline(always)]
pub(crate) fn join_seat<M: Memory, J: Join<Known>>(memory: &M, seat: &mut Seat<M>, other: Seat<M>)
    requires { (seat.old.table_id ≡ M.table_id memory.now) × (other.table_id ≡ M.table_id memory.now)
        × (other.me.1 ≡ []) × (0 < (M.table_id memory.now).words)
        × Joins (IsWhole (M.key memory.now)) seat.old.id seat.old.me.0 other.id other.me.0
        (J.both seat.old.me.0 other.me.0) J.spent }
    ensures { (seat.new.table_id ≡ seat.old.table_id) × (seat.new.id ≡ seat.old.id)
        × (seat.new.me ≡ (J.both seat.old.me.0 other.me.0, seat.old.me.1)) }
{
    let Seat { seat: other } = other;
    memory.join_seat::<J>(seat, other)
}
