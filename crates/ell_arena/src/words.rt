//! Words of one block, of which the first are written at the opening.
ghost use Rattle.std.specs.Prelude.{◌≡◌, ℕ, ◌+◌, ◌^◌, ◌<◌, ◌≤◌, ◌++◌, ◌==◌, [], length, IfOk};
ghost use prog.Atomic.{either};
ghost use Rattle.ell_arena.specs.Seats.{SameSeat, IsLent, IsLentAs, IsWritten, after_put};
ghost use Rattle.ell_arena.specs.Words.{Tells, Allows, Splits, Joins, opening};

use crate::block::Block;
use crate::shared::{Base, Seat, Shared};
use atomic_table::{Join, Play, Split, TableRule};
use std::alloc::{AllocError, Global};

/// How often `open_largest` halves the number of words: from there on it is the least.
const HALVINGS: usize = 40;

/// Words of 64 bits in one block. Each is unwritten, shared, or lent to one seat. A rule holds of them at all times.
pub struct Words<V, K, P: TableRule<u64, V, K>> {
    pub(crate) shared: Shared<V, K, P>,
    pub(crate) base: Base,
    pub(crate) count: usize,
    pub(crate) alloc: Global,
    ghost place: { base.ptr ≡ shared.id.base },
    ghost counts: { count ≡ shared.id.count },
}

impl<V, K, P: TableRule<u64, V, K>> Words<V, K, P> {
    /// Opens `count` words, with their first seat. The first words are `first`, and nothing touches the memory of the
    /// others. `Err` if the system grants no memory for the block: then nothing stays.
    pub fn open(
        alloc: Global,
        about: &K,
        count: usize,
        first: &[u64],
    ) -> Result<(Words<V, K, P>, Seat<V>), AllocError>
        // There are no more first words than words.
        requires first { length first.now ≤ count }
        // The words take fewer than 2^43 bytes.
        requires size { count < 2 ^ 40 }
        // The rule holds of the words as they start.
        requires rule { (left : ℕ) → left + length first.now ≡ count
            → P.holds about.now (opening first.now left (P.first about.now)) }
        // The rule has this key.
        ensures key { IfOk result (λ r. r.0.shared.key ≡ about.now) }
        // There are so many words.
        ensures count { IfOk result (λ r. r.0.shared.id.count ≡ count) }
        // The seat is one of these words.
        ensures of_these { IfOk result (λ r. r.1.words ≡ r.0.shared.id) }
        // It has the first view, and nothing is lent to it.
        ensures me { IfOk result (λ r. r.1.me ≡ (P.first about.now, [])) }
    {
        let block = Block::of(&alloc, first, count)?;
        let (shared, seat, base) = Shared::open(about, block);
        Ok((
            Words {
                shared,
                base,
                count,
                alloc,
            },
            seat,
        ))
    }

    /// Opens as many words as the system grants memory for: `most` of them, or half as many, and so on, but never fewer
    /// than `least`. The first words are `first`. `Err` if it does not grant the memory of `least` words.
    pub fn open_largest(
        alloc: Global,
        about: &K,
        least: usize,
        most: usize,
        first: &[u64],
    ) -> Result<(Words<V, K, P>, Seat<V>), AllocError>
        // There are no more first words than the least number of words.
        requires first { length first.now ≤ least }
        // The least number is no more than the greatest.
        requires order { least ≤ most }
        // The words take fewer than 2^43 bytes.
        requires size { most < 2 ^ 40 }
        // The rule holds of the words as they start, however many there are.
        requires rule { (left : ℕ) → least ≤ left + length first.now → left + length first.now ≤ most
            → P.holds about.now (opening first.now left (P.first about.now)) }
        // The rule has this key.
        ensures key { IfOk result (λ r. r.0.shared.key ≡ about.now) }
        // There are no fewer words than the least number.
        ensures least { IfOk result (λ r. least ≤ r.0.shared.id.count) }
        // There are no more than the greatest.
        ensures most { IfOk result (λ r. r.0.shared.id.count ≤ most) }
        // The seat is one of these words.
        ensures of_these { IfOk result (λ r. r.1.words ≡ r.0.shared.id) }
        // It has the first view, and nothing is lent to it.
        ensures me { IfOk result (λ r. r.1.me ≡ (P.first about.now, [])) }
    {
        let mut count = most;
        for _ in 0..HALVINGS {
            if let Ok(opened) = Words::open(alloc, about, count, first) {
                return Ok(opened);
            }
            count = if count / 2 < least { least } else { count / 2 };
        }
        Words::open(alloc, about, least, first)
    }

    /// How many words there are.
    pub fn len(&self) -> usize
        // It is the number with which they were opened.
        ensures { result ≡ self.now.shared.id.count }
    {
        self.count
    }

    /// Loads a shared word, as one atomic step. By the rule, the step may lend words to the seat, or share ones that
    /// were lent to it.
    pub fn load<M: Play<u64, V>>(&self, seat: &mut Seat<V>, address: usize) -> u64
        // The seat is one of these words.
        requires of_these { seat.old.words ≡ self.now.shared.id }
        // The address is that of one of them.
        requires inside { address < self.now.shared.id.count }
        // The rule shows that the word is shared, and allows the step.
        requires rule { Allows (P.holds self.now.shared.key) seat.old.id seat.old.me address (λ n. n)
            (Tells M.then address 0 0 seat.old.me) }
        // It stays the same seat.
        ensures same { SameSeat seat.old seat.new }
        // The play holds of the number and of the seat.
        ensures told { Tells M.then address 0 0 seat.old.me result seat.new.me }
    {
        self.shared.load_at::<M>(seat, self.base, address)
    }

    /// Stores a shared word, as one atomic step.
    pub fn store<M: Play<u64, V>>(&self, seat: &mut Seat<V>, address: usize, new: u64)
        // The seat is one of these words.
        requires of_these { seat.old.words ≡ self.now.shared.id }
        // The address is that of one of them.
        requires inside { address < self.now.shared.id.count }
        // The rule shows that the word is shared, and allows the step.
        requires rule { Allows (P.holds self.now.shared.key) seat.old.id seat.old.me address (λ _. new)
            (λ _. Tells M.then address new 0 seat.old.me new) }
        // It stays the same seat.
        ensures same { SameSeat seat.old seat.new }
        // The play holds of the number and of the seat.
        ensures told { Tells M.then address new 0 seat.old.me new seat.new.me }
    {
        self.shared.store_at::<M>(seat, self.base, address, new)
    }

    /// Makes a shared word `new` if it is `expected`, as one atomic step, and returns what it was. By the rule, the
    /// step may lend words to the seat, or share ones that were lent to it, as it depends on the number found.
    pub fn compare_exchange<M: Play<u64, V>>(
        &self,
        seat: &mut Seat<V>,
        address: usize,
        expected: u64,
        new: u64,
    ) -> u64
        // The seat is one of these words.
        requires of_these { seat.old.words ≡ self.now.shared.id }
        // The address is that of one of them.
        requires inside { address < self.now.shared.id.count }
        // The rule shows that the word is shared, and allows the step.
        requires rule { Allows (P.holds self.now.shared.key) seat.old.id seat.old.me address
            (λ n. either (n == expected) new n) (Tells M.then address expected new seat.old.me) }
        // It stays the same seat.
        ensures same { SameSeat seat.old seat.new }
        // The play holds of the number and of the seat.
        ensures told { Tells M.then address expected new seat.old.me result seat.new.me }
    {
        self.shared
            .exchange_at::<M>(seat, self.base, address, expected, new)
    }

    /// Writes a word that is lent to the seat, as plain memory. The rule has no part in it.
    pub fn put(&self, seat: &mut Seat<V>, address: usize, new: u64)
        // The seat is one of these words.
        requires of_these { seat.old.words ≡ self.now.shared.id }
        // The word is lent to the seat.
        requires lent { IsLent seat.old.me.1 address }
        // It stays the same seat.
        ensures same { SameSeat seat.old seat.new }
        // The word is `new`, and nothing else of the seat changes.
        ensures written { seat.new.me ≡ (seat.old.me.0, after_put seat.old.me.1 address new) }
    {
        self.shared.put_at(seat, self.base, address, new)
    }

    /// Reads a word that is lent to the seat, as plain memory. It changes nothing.
    pub fn get(&self, seat: &mut Seat<V>, address: usize) -> u64
        // The seat is one of these words.
        requires of_these { seat.old.words ≡ self.now.shared.id }
        // The word is lent to the seat, and has been written.
        requires written { IsWritten seat.old.me.1 address }
        // It stays the same seat.
        ensures same { SameSeat seat.old seat.new }
        // Nothing of it changes.
        ensures me { seat.new.me ≡ seat.old.me }
        // The number is the one that was written last.
        ensures found { IsLentAs seat.old.me.1 address result }
    {
        self.shared.get_at(seat, self.base, address)
    }

    /// Adds what another seat knows to a seat, and the words that are lent to it. It costs one load of a word that is
    /// always shared.
    pub fn join<M: Join<V>>(&self, seat: &mut Seat<V>, mut other: Seat<V>, address: usize)
        // The seat is one of these words.
        requires of_these { seat.old.words ≡ self.now.shared.id }
        // So is the other.
        requires of_these_too { other.words ≡ self.now.shared.id }
        // The address is that of one of them.
        requires inside { address < self.now.shared.id.count }
        // The rule shows that the word is shared, and allows the join.
        requires rule { Joins (P.holds self.now.shared.key) address seat.old.id seat.old.me.0 other.id other.me.0
            (M.both seat.old.me.0 other.me.0) M.spent }
        // It stays the same seat.
        ensures same { SameSeat seat.old seat.new }
        // It has both views as one, and what was lent to it and to the other.
        ensures both { seat.new.me ≡ (M.both seat.old.me.0 other.me.0, seat.old.me.1 ++ other.me.1) }
    {
        self.shared
            .join_at::<M>(seat, &mut other, self.base, address);
    }

    /// Parts what a seat knows between it and a new one. What is lent to the seat stays with it. It costs one load of a
    /// word that is always shared.
    pub fn split<M: Split<V>>(&self, seat: &mut Seat<V>, address: usize) -> Seat<V>
        // The seat is one of these words.
        requires of_these { seat.old.words ≡ self.now.shared.id }
        // The address is that of one of them.
        requires inside { address < self.now.shared.id.count }
        // The rule shows that the word is shared, and allows the cut.
        requires rule { Splits (P.holds self.now.shared.key) address seat.old.id seat.old.me.0
            (M.left seat.old.me.0) (M.right seat.old.me.0) }
        // It stays the same seat.
        ensures same { SameSeat seat.old seat.new }
        // It has the left part, and what was lent to it.
        ensures left { seat.new.me ≡ (M.left seat.old.me.0, seat.old.me.1) }
        // The new seat is one of the same words.
        ensures of_same { result.words ≡ seat.old.words }
        // It has the right part, and nothing is lent to it.
        ensures right { result.me ≡ (M.right seat.old.me.0, []) }
    {
        self.shared.split_at::<M>(seat, self.base, address)
    }
}

impl<V, K, P: TableRule<u64, V, K>> Drop for Words<V, K, P> {
    /// Frees the block, whatever was lent, and whichever seats were dropped.
    fn drop(self) {
        let Self {
            shared,
            base,
            count,
            alloc,
        } = self;
        shared.close(base, &alloc).release(&alloc, count);
    }
}
