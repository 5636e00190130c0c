//! An allocator that counts growths, and refuses those that it is told to.
use std::alloc::{AllocError, Allocator, Global};
use std::sync::atomic::{AtomicBool, AtomicU64, Ordering};

/// Which growths are refused. They are counted from 1.
#[derive(Clone, Copy)]
pub(crate) enum Refusal {
    /// The growth of this number alone.
    At(u64),
    /// That of this number, and all after it.
    From(u64),
}

impl Refusal {
    // The first growth that is refused, and the last one.
    fn bounds(self) -> (u64, u64) {
        match self {
            Refusal::At(number) => (number, number),
            Refusal::From(number) => (number, u64::MAX),
        }
    }
}

/// How many growths there were, and which are refused.
#[derive(Drop)]
pub(crate) struct Growths {
    count: AtomicU64,
    first: AtomicU64,
    last: AtomicU64,
    is_counting: AtomicBool,
}

impl Growths {
    fn new() -> Growths {
        Growths {
            count: AtomicU64::new(0),
            first: AtomicU64::new(0),
            last: AtomicU64::new(0),
            is_counting: AtomicBool::new(false),
        }
    }

    // Counts anew from the next growth on, and refuses those from the first to the last.
    fn start(&self, first: u64, last: u64) {
        self.first.store(first, Ordering::SeqCst);
        self.last.store(last, Ordering::SeqCst);
        self.count.store(0, Ordering::SeqCst);
        self.is_counting.store(true, Ordering::SeqCst);
    }

    fn stop(&self) {
        self.is_counting.store(false, Ordering::SeqCst);
    }

    fn count(&self) -> u64 {
        self.count.load(Ordering::SeqCst)
    }

    // Counts a growth, if growths are counted now: whether it is refused.
    fn refuse_next(&self) -> bool {
        if !self.is_counting.load(Ordering::SeqCst) {
            return false;
        }
        let number = self.count.fetch_add(1, Ordering::SeqCst).wrapping_add(1);
        self.first.load(Ordering::SeqCst) <= number && number <= self.last.load(Ordering::SeqCst)
    }
}

/// The allocator of these tests, which take a `&` to it.
pub(crate) type Heap = Refusing<Global>;

/// An allocator that counts its growths, and refuses some. Collections take a `&` to it, also those of several threads.
#[derive(Drop)]
pub(crate) struct Refusing<B: Allocator> {
    inner: B,
    growths: Growths,
}

impl<B: Allocator> Refusing<B> {
    /// One that refuses nothing yet.
    pub(crate) fn new(inner: B) -> Refusing<B> {
        Refusing {
            inner,
            growths: Growths::new(),
        }
    }

    /// Refuses these growths of those that follow, which are counted from 1.
    pub(crate) fn refuse(&self, refusal: Refusal) {
        let (first, last) = refusal.bounds();
        self.growths.start(first, last);
    }

    /// Neither refuses nor counts the growths that follow.
    pub(crate) fn stop(&self) {
        self.growths.stop();
    }

    /// How many growths there were from the last `refuse` on, to the `stop` after it if there was one, the refused ones too.
    pub(crate) fn growths(&self) -> u64 {
        self.growths.count()
    }
}

unsafe impl<B: Allocator> Allocator for Refusing<B> {
    ghost dealloc_token = { λ heap ty ptr. B.dealloc_token heap.inner ty ptr };

    fn allocate(&self, size: usize, align: usize) -> Result<*mut u8, AllocError> {
        if self.growths.refuse_next() {
            return Err(AllocError);
        }
        self.inner.allocate(size, align)
    }

    unsafe fn deallocate(&self, ptr: *mut u8, size: usize, align: usize) {
        self.inner.deallocate(ptr, size, align);
    }
}
