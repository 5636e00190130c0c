//! A writer that fails.
use std::alloc::Global;
use std::io::{Error, ErrorKind, Result, Write};

/// A writer that takes all, and cannot be flushed.
#[derive(Drop)]
pub(super) struct Unflushed {
    pub(super) held: Vec<u8>,
}

impl Unflushed {
    /// A writer that holds nothing yet.
    pub(super) fn new(alloc: Global) -> Unflushed {
        Unflushed {
            held: Vec::new(alloc),
        }
    }
}

impl Write for Unflushed {
    fn write(&mut self, buf: &[u8]) -> Result<usize> {
        self.held.extend_from_slice(buf)?;
        Ok(buf.len())
    }

    fn flush(&mut self) -> Result<()> {
        Err(Error::from(ErrorKind::StorageFull))
    }
}
