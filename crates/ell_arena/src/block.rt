//! Values side by side behind a pointer, that no thread shares, with the right to free them.
ghost use Rattle.std.specs.Prelude.{◌≡◌, ℕ, ◌+◌, ◌^◌, ◌<◌, ◌≤◌, List, [], ◌∷◌, ◌++◌, length, IfOk};
ghost use Rattle.ell_arena.specs.Blocks.{block_owns, Fits};

use std::alloc::{AllocError, Allocator};
use std::marker::{Model, PhantomData};
use std::mem::{align_of, size_of};

/// The first values of a block, and room for `left` more.
pub struct Block<T, A: Allocator> {
    pub(crate) ptr: *mut T,
    pub(crate) marker: PhantomData<A>,
    pub ghost heap: { A },
    pub ghost items: { List T },
    pub ghost left: { ℕ },
}

impl<T, A: Allocator> Model for Block<T, A> {
    ghost also_owns = { λ b. block_owns T.row (A.dealloc_token b.heap) b.ptr b.items b.left };
}

impl<T, A: Allocator> Block<T, A> {
    /// Room for `len` values, or `Err` if the system grants none.
    pub(crate) fn reserve(alloc: &A, len: usize) -> Result<Block<T, A>, AllocError>
        // So many values take fewer than 2^63 bytes.
        requires { Fits T.row len }
        // The allocator may free the block, no value is written, and there is room for `len`.
        ensures { IfOk result (λ b. (b.heap ≡ alloc.now) × (b.items ≡ []) × (b.left ≡ len)) }
    {
        match alloc.allocate(len * size_of::<T>(), align_of::<T>()) {
            Ok(room) => {
                let ptr = room as *mut T;
                let marker = PhantomData;
                Ok(Block { ptr, marker })
            }
            Err(error) => Err(error),
        }
    }

    /// One more value.
    pub(crate) fn push(self, index: usize, value: T) -> Block<T, A>
        // The index is that of the first value that is not written.
        requires index { index ≡ length self.items }
        // There is room for it.
        requires room { 0 < self.left }
        // It is the same block.
        ensures place { result.ptr ≡ self.ptr }
        // The same allocator may free it.
        ensures heap { result.heap ≡ self.heap }
        // The value stands behind the others.
        ensures items { result.items ≡ self.items ++ value ∷ [] }
        // There is room for one less.
        ensures left { result.left + 1 ≡ self.left }
    {
        let Block { ptr, marker } = self;
        unsafe {
            ptr.add(index).write(value);
        }
        Block { ptr, marker }
    }

    /// Frees the block. Its values are not dropped.
    pub(crate) fn release(self, alloc: &A, len: usize)
        // The block is this allocator's.
        requires heap { self.heap ≡ alloc.now }
        // The length is that of its values and its room.
        requires len { length self.items + self.left ≡ len }
    {
        let Block { ptr, marker: _ } = self;
        unsafe {
            alloc.deallocate(ptr as *mut u8, len * size_of::<T>(), align_of::<T>());
        }
    }
}

impl<A: Allocator> Block<u64, A> {
    /// A block of `count` words, of which the first are these, and nothing writes the others; or `Err` if the system
    /// grants no memory.
    pub(crate) fn of(alloc: &A, words: &[u64], count: usize) -> Result<Block<u64, A>, AllocError>
        // There are no more first words than words.
        requires first { length words.now ≤ count }
        // The words take fewer than 2^63 bytes.
        requires size { count < 2 ^ 40 }
        // The allocator may free the block, the first words are written, and there is room for the others.
        ensures { IfOk result (λ b. (b.heap ≡ alloc.now) × (b.items ≡ words.now)
            × (b.left + length words.now ≡ count)) }
    {
        let mut block = Block::reserve(alloc, count)?;
        for i in 0..words.len() {
            block = block.push(i, words[i]);
        }
        Ok(block)
    }
}
