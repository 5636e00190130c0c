//! A tree and a pass of it.
ghost use Rattle.std.specs.Prelude.{◌≡◌, true, false, []};
ghost use Rattle.std.specs.Arc.{arc_value};
ghost use Rattle.ell_runs.specs.Changes.{ownable_if};
ghost use Rattle.ell_tree.specs.Ledgers.{IsIdle};

use ell_tree::{Pass, Tree};
use std::alloc::Global;
use std::marker::Model;
use std::sync::Arc;

mod changing;
mod opening;
mod reading;

/// A place for a handle, into which a handle can be put back without allocating memory. A handle writes to its words at
/// each step, so unused words stand on both sides of it: no cache line, nor the one that a processor fetches with it,
/// has words of two handles.
#[derive(Drop)]
pub struct HandlePlace {
    before: Unused,
    pub handle: Option<Handle>,
    after: Unused,
}

// 128 unused bytes: no clause sees what is in them.
#[derive(Drop)]
struct Unused {
    words: [u64; 16],
}

impl Model for Unused {
    ghost Value = { Unit {0} };

    ghost view = { λ _. tt };
}

impl Unused {
    fn new() -> Unused {
        Unused { words: [0; 16] }
    }
}

impl HandlePlace {
    /// A place with this handle, or an empty one.
    pub fn of(handle: Option<Handle>) -> HandlePlace
        // Returns a place with this handle, or without one.
        ensures { result.handle ≡ handle }
    {
        HandlePlace {
            before: Unused::new(),
            handle,
            after: Unused::new(),
        }
    }
}

/// A tree in which every key up to `KEY_MAX` is shared, and a pass of it with nothing in hand, which is not pinned: in
/// a tree whose cards come back, a handle in no call holds none of them back. It may go from one thread to another. How
/// many cards a change takes is promised only in a tree whose cards do not come back (`open`).
#[derive(Drop)]
pub struct Handle {
    pub tree: Arc<Tree<Global>, Global>,
    pub pass: Pass<Global>,
    ghost own: { pass.table ≡ (arc_value tree).id },
    ghost idle: { IsIdle pass },
    ghost unpinned: { pass.memory.is_pinned ≡ false },
    ghost shared: { (arc_value tree).plan.shared ≡ true },
    ghost alone: { (arc_value tree).plan.keys ≡ [] },
    ghost knows: { pass.view.worker.shared ≡ ownable_if true [] },
}

// Only what may go to another thread.
fn send<T: Send>(value: T) -> T {
    value
}

/// A handle may go to another thread.
pub fn sent(handle: Handle) -> Handle {
    send(handle)
}
