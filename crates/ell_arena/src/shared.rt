//! The words as threads see them, and what one of them knows and has.
ghost use Rattle.std.specs.Prelude.{◌≡◌, ◌+◌, ℕ, List, [], ◌∷◌, length};
ghost use base.Stored.{coded×, coded_ℕ, coded_list};
ghost use Rattle.ell_arena.specs.Ownership.{WordsId, words_id_coded, words_own, words_share, mine};
ghost use Rattle.ell_arena.specs.Words.{Me, opening};

use crate::block::Block;
use atomic_table::TableRule;
use std::alloc::Global;
use std::marker::{Model, PhantomData};

/// Where the words lie. It owns nothing.
#[derive(Clone, Copy)]
pub struct Base {
    pub ptr: *mut u64,
}

/// The right to step on the words. It has no bytes.
pub struct Shared<V, K, P: TableRule<u64, V, K>> {
    // `*mut` makes the type invariant.
    pub(crate) marker: PhantomData<*mut (V, K, P)>,
    pub ghost id: { WordsId } by { words_id_coded },
    pub ghost key: { K },
}

impl<V, K, P: TableRule<u64, V, K>> Model for Shared<V, K, P> {
    ghost also_owns = { λ w. words_own V.row.coded.code w.id (P.holds w.key) };

    ghost also_shares = { λ w _ κ. words_share V.row.coded.code w.id (P.holds w.key) κ };
}

/// A view of the words, and the words that are lent to it. A thread steps by it. It has no bytes, may go to another
/// thread, and may be dropped with words lent to it: these stay lent until all words are dropped.
pub struct Seat<V> {
    pub(crate) marker: PhantomData<V>,
    pub ghost words: { WordsId } by { words_id_coded },
    pub ghost id: { ℕ },
    pub ghost me: { Me V } by { coded× V.code (coded_list (coded× coded_ℕ coded_ℕ)) },
}

impl<V> Model for Seat<V> {
    ghost also_owns = { λ s. mine V.row.coded.code s.words s.id s.me };
}

impl<V> Drop for Seat<V> {
    fn drop(self) {
        let Self { marker: _ } = self;
    }
}

unsafe impl Send for Base {}

unsafe impl Sync for Base {}

unsafe impl<V> Send for Seat<V> {}

unsafe impl<V, K, P: TableRule<u64, V, K>> Send for Shared<V, K, P> {}

unsafe impl<V, K, P: TableRule<u64, V, K>> Sync for Shared<V, K, P> {}

impl<V, K, P: TableRule<u64, V, K>> Shared<V, K, P> {
    /// Shares the words of a block, from which on a rule holds of them.
    pub(crate) fn open(about: &K, block: Block<u64, Global>) -> (Shared<V, K, P>, Seat<V>, Base)
        // The rule holds of the words as they start.
        requires { P.holds about.now (opening block.items block.left (P.first about.now)) }
        // The rule has this key.
        ensures key { result.0.key ≡ about.now }
        // There are as many words as the block has written values and room for more.
        ensures count { result.0.id.count ≡ length block.items + block.left }
        // The seat is one of these words.
        ensures of_these { result.1.words ≡ result.0.id }
        // It is the first.
        ensures number { result.1.id ≡ 0 }
        // It has the first view, and nothing is lent to it.
        ensures me { result.1.me ≡ (P.first about.now, []) }
        // The base is where the words lie.
        ensures place { result.2.ptr ≡ result.0.id.base }
    {
        let Block { ptr, marker: _ } = block;
        (
            Shared {
                marker: PhantomData,
            },
            Seat {
                marker: PhantomData,
            },
            Base { ptr },
        )
    }

    /// The block again, whatever was lent.
    pub(crate) fn close(self, base: Base, alloc: &Global) -> Block<u64, Global>
        // The base is where the words lie.
        requires { base.ptr ≡ self.id.base }
        // The allocator may free the block.
        ensures heap { result.heap ≡ alloc.now }
        // It has room for all words.
        ensures count { length result.items + result.left ≡ self.id.count }
    {
        let Shared { marker: _ } = self;
        Block {
            ptr: base.ptr,
            marker: PhantomData,
        }
    }
}
