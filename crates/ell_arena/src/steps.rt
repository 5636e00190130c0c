//! Single steps on a word that is shared, and plain reads and writes of one that is lent to a seat.
ghost use Rattle.std.specs.Prelude.{◌≡◌, ◌<◌, ◌++◌, ◌==◌, []};
ghost use prog.Atomic.{either};
ghost use Rattle.ell_arena.specs.Seats.{SameSeat, IsLent, IsLentAs, IsWritten, after_put};
ghost use Rattle.ell_arena.specs.Words.{Tells, Allows, Splits, Joins};

use crate::shared::{Base, Seat, Shared};
use atomic_table::{Join, Play, Split, TableRule, exchange};
use std::marker::{Brand, PhantomData};
use std::sync::atomic::Ordering::SeqCst;
use std::sync::atomic::raw;

impl<V, K, P: TableRule<u64, V, K>> Shared<V, K, P> {
    /// Loads a shared word.
    pub(crate) fn load_at<M: Play<u64, V>>(
        &self,
        seat: &mut Seat<V>,
        base: Base,
        address: usize,
    ) -> u64
        // The seat is one of these words.
        requires of_these { seat.old.words ≡ self.now.id }
        // The base is where they lie.
        requires place { base.ptr ≡ self.now.id.base }
        // The address is that of one of them.
        requires inside { address < self.now.id.count }
        // The rule shows that the word is shared, and allows the step.
        requires rule { Allows (P.holds self.now.key) seat.old.id seat.old.me address (λ n. n)
            (Tells M.then address 0 0 seat.old.me) }
        // It stays the same seat.
        ensures same { SameSeat seat.old seat.new }
        // The play holds of the number and of the seat.
        ensures told { Tells M.then address 0 0 seat.old.me result seat.new.me }
    {
        unsafe { raw::load::<Brand>(base.ptr.add(address), SeqCst) }
    }

    /// Stores a shared word.
    pub(crate) fn store_at<M: Play<u64, V>>(
        &self,
        seat: &mut Seat<V>,
        base: Base,
        address: usize,
        new: u64,
    )
        // The seat is one of these words.
        requires of_these { seat.old.words ≡ self.now.id }
        // The base is where they lie.
        requires place { base.ptr ≡ self.now.id.base }
        // The address is that of one of them.
        requires inside { address < self.now.id.count }
        // The rule shows that the word is shared, and allows the step.
        requires rule { Allows (P.holds self.now.key) seat.old.id seat.old.me address (λ _. new)
            (λ _. Tells M.then address new 0 seat.old.me new) }
        // It stays the same seat.
        ensures same { SameSeat seat.old seat.new }
        // The play holds of the number and of the seat.
        ensures told { Tells M.then address new 0 seat.old.me new seat.new.me }
    {
        unsafe { raw::store::<Brand>(base.ptr.add(address), new, SeqCst) }
    }

    /// Makes a shared word `new` if it is `old`, and returns what it was.
    pub(crate) fn exchange_at<M: Play<u64, V>>(
        &self,
        seat: &mut Seat<V>,
        base: Base,
        address: usize,
        old: u64,
        new: u64,
    ) -> u64
        // The seat is one of these words.
        requires of_these { seat.old.words ≡ self.now.id }
        // The base is where they lie.
        requires place { base.ptr ≡ self.now.id.base }
        // The address is that of one of them.
        requires inside { address < self.now.id.count }
        // The rule shows that the word is shared, and allows the step.
        requires rule { Allows (P.holds self.now.key) seat.old.id seat.old.me address
            (λ n. either (n == old) new n) (Tells M.then address old new seat.old.me) }
        // It stays the same seat.
        ensures same { SameSeat seat.old seat.new }
        // The play holds of the number and of the seat.
        ensures told { Tells M.then address old new seat.old.me result seat.new.me }
    {
        unsafe { exchange::<Brand>(base.ptr.add(address), old, new) }
    }

    /// Writes a word that is lent to the seat.
    pub(crate) fn put_at(&self, seat: &mut Seat<V>, base: Base, address: usize, new: u64)
        // The seat is one of these words.
        requires of_these { seat.old.words ≡ self.now.id }
        // The base is where they lie.
        requires place { base.ptr ≡ self.now.id.base }
        // The word is lent to the seat.
        requires lent { IsLent seat.old.me.1 address }
        // It stays the same seat.
        ensures same { SameSeat seat.old seat.new }
        // The word is `new`, and nothing else of the seat changes.
        ensures written { seat.new.me ≡ (seat.old.me.0, after_put seat.old.me.1 address new) }
    {
        unsafe { base.ptr.add(address).write(new) }
    }

    /// Reads a word that is lent to the seat.
    pub(crate) fn get_at(&self, seat: &mut Seat<V>, base: Base, address: usize) -> u64
        // The seat is one of these words.
        requires of_these { seat.old.words ≡ self.now.id }
        // The base is where they lie.
        requires place { base.ptr ≡ self.now.id.base }
        // The word is lent to the seat, and has been written.
        requires written { IsWritten seat.old.me.1 address }
        // It stays the same seat.
        ensures same { SameSeat seat.old seat.new }
        // Nothing of it changes.
        ensures me { seat.new.me ≡ seat.old.me }
        // The number is the one that was written last.
        ensures found { IsLentAs seat.old.me.1 address result }
    {
        unsafe { base.ptr.add(address).read() }
    }

    /// Adds what another seat knows and has to a seat. It costs one load of a shared word, which is the step for the
    /// proof.
    pub(crate) fn join_at<M: Join<V>>(
        &self,
        seat: &mut Seat<V>,
        other: &mut Seat<V>,
        base: Base,
        address: usize,
    )
        // The seat is one of these words.
        requires of_these { seat.old.words ≡ self.now.id }
        // So is the other.
        requires of_these_too { other.old.words ≡ self.now.id }
        // The base is where they lie.
        requires place { base.ptr ≡ self.now.id.base }
        // The address is that of one of them.
        requires inside { address < self.now.id.count }
        // The rule shows that the word is shared, and allows the join.
        requires rule { Joins (P.holds self.now.key) address seat.old.id seat.old.me.0 other.old.id other.old.me.0
            (M.both seat.old.me.0 other.old.me.0) M.spent }
        // It stays the same seat.
        ensures same { SameSeat seat.old seat.new }
        // It has both views as one, and what was lent to it and to the other.
        ensures both { seat.new.me ≡ (M.both seat.old.me.0 other.old.me.0, seat.old.me.1 ++ other.old.me.1) }
    {
        unsafe { raw::load::<Brand>(base.ptr.add(address), SeqCst) };
    }

    /// Parts what a seat knows between it and a new one. It costs one load of a shared word, which is the step for the
    /// proof.
    pub(crate) fn split_at<M: Split<V>>(
        &self,
        seat: &mut Seat<V>,
        base: Base,
        address: usize,
    ) -> Seat<V>
        // The seat is one of these words.
        requires of_these { seat.old.words ≡ self.now.id }
        // The base is where they lie.
        requires place { base.ptr ≡ self.now.id.base }
        // The address is that of one of them.
        requires inside { address < self.now.id.count }
        // The rule shows that the word is shared, and allows the cut.
        requires rule { Splits (P.holds self.now.key) address seat.old.id seat.old.me.0
            (M.left seat.old.me.0) (M.right seat.old.me.0) }
        // It stays the same seat.
        ensures same { SameSeat seat.old seat.new }
        // It has the left part, and what was lent to it.
        ensures left { seat.new.me ≡ (M.left seat.old.me.0, seat.old.me.1) }
        // The new seat is one of the same words.
        ensures of_same { result.words ≡ seat.old.words }
        // It has the right part, and nothing is lent to it.
        ensures right { result.me ≡ (M.right seat.old.me.0, []) }
    {
        unsafe { raw::load::<Brand>(base.ptr.add(address), SeqCst) };
        Seat {
            marker: PhantomData,
        }
    }
}
