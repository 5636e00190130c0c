//! The memory whose words are all there when it is made: a table of `atomic_table`.
use crate::memory::{Memory, Seat};
use crate::rule::CardRule;
use crate::view::{Known, Plan};
use atomic_table::{Join, Play, Split, Table};
use std::alloc::Allocator;

/// A memory whose words are all there when it is made.
#[derive(Drop)]
pub struct FixedMemory<A: Allocator + Copy> {
    pub(crate) table: Table<(), Known, Plan<A>, CardRule, A>,
}

impl<A: Allocator + Copy> Memory for FixedMemory<A> {
    type Alloc = A;

    type Seat = atomic_table::Seat<(), Known>;

    ghost table_id = { λ m. m.table.shared.table_id };

    ghost key = { λ m. m.table.shared.key };

    ghost stands = { λ s. record { table_id = s.table_id; id = s.id; me = s.me } };

    fn load<J: Play<(), Known>>(&self, seat: &mut Seat<FixedMemory<A>>, word: usize) -> u64 {
        self.table.shared.load::<J>(&mut seat.seat, word)
    }

    fn store<J: Play<(), Known>>(&self, seat: &mut Seat<FixedMemory<A>>, word: usize, new: u64) {
        self.table.shared.store::<J>(&mut seat.seat, word, new)
    }

    fn compare_exchange<J: Play<(), Known>>(
        &self,
        seat: &mut Seat<FixedMemory<A>>,
        word: usize,
        old: u64,
        new: u64,
    ) -> u64 {
        self.table
            .shared
            .compare_exchange::<J>(&mut seat.seat, word, old, new)
    }

    fn split_seat<J: Split<Known>>(&self, seat: &mut Seat<FixedMemory<A>>) -> Seat<FixedMemory<A>> {
        Seat {
            seat: self.table.shared.split_seat::<J>(&mut seat.seat),
        }
    }

    fn join_seat<J: Join<Known>>(
        &self,
        seat: &mut Seat<FixedMemory<A>>,
        other: atomic_table::Seat<(), Known>,
    ) {
        self.table.shared.join_seat::<J>(&mut seat.seat, other)
    }
}
