//! The version, the start keys and the operations of a bulk text.
ghost use Rattle.std.specs.Prelude.{◌≡◌, ◌≢◌, IfErr, IfOk, IfSome, IsFalse, IsSome, IsTrue, None, OnErr, OnOk, Some};
ghost use Rattle.ell_text.specs.Bulk.{BulkFits, HasSoundLine, bulk, bulk_value, fault_of, fault_of_said, located, next_section, nothing_said, spoken_in, with_line, with_read};
ghost use Rattle.ell_text.specs.Line.{LineFits};
ghost use Rattle.ell_text.specs.Lines.{lines};
ghost use Rattle.ell_text.specs.Operations.{IsReadOn};
ghost use Rattle.ell_text.specs.declared.line.Section.TheVariants.{Operations};
ghost use Rattle.ell_text.specs.Version.{version_numbered};

use crate::halving::read_operations;
use crate::limits::OPERATIONS_MAX;
use crate::line::{Line, LineFault, Section, read_first_line};
use crate::version::Version;
use ell_ops::{NoMemory, Op};
use std::alloc::{Allocator, Global};
use std::thread::Threads;
use thiserror::Error;

/// What a bulk text says.
#[derive(Debug, Drop)]
pub struct Bulk<A: Allocator = Global> {
    /// The version of the text, 1 or 2. In version 1 each value is 0.
    pub version: u8,
    /// The keys that are there before the first operation, strictly ascending, with their values.
    pub start: Vec<(u64, u64), A>,
    /// The operations, in their order.
    pub ops: Vec<Op, A>,
}

/// Why a text was not read. Lines are counted from 1, including the skipped ones. If a line has several faults, the
/// first in this list counts.
#[derive(Debug, Clone, Copy, PartialEq, Eq, Error)]
pub enum TextFault {
    /// The line's name is not `find`, `insert` or `delete`, nor, before the first operation, `start`, and the line is not
    /// `version 2` before all others.
    #[error("line {line}: not an operation")]
    BadOperation { line: usize },
    /// The line's key is not a number in decimal digits without leading zeros.
    #[error("line {line}: not a key")]
    BadKey { line: usize },
    /// The line's key is above `KEY_MAX`.
    #[error("line {line}: key too large")]
    KeyTooLarge { line: usize },
    /// The line, an insert or a start line of version 2, has no value after its key: what stands there is not a number
    /// in decimal digits without leading zeros, or is above `u64::MAX`.
    #[error("line {line}: not a value")]
    BadValue { line: usize },
    /// The line's start key is not greater than the start key before it.
    #[error("line {line}: start keys not ascending")]
    StartOrder { line: usize },
    /// The line comes after `OPERATIONS_MAX` start lines and operations.
    #[error("line {line}: more than {max} operations", max = OPERATIONS_MAX)]
    TooManyOperations { line: usize },
    /// An allocation failed.
    #[error("out of memory")]
    NoMemory,
}

// How many times a long text is halved among threads.
const HALVINGS: u32 = 2;

// The fewest bytes of a long text, which take much longer to read than threads take to begin.
const LONG: usize = 131_072;

/// Reads the version, the start keys with their values, and the operations of a bulk text. The operations of a long
/// text are read by four threads, if they can be created. A fault is that of the first line that has one. `NoMemory` is
/// returned only at a line that says a start key or an operation, if no line so far has a fault.
pub fn read_bulk<R: Threads + Sync, A: Allocator + Copy + Send + Sync>(
    rt: &R,
    alloc: A,
    bytes: &[u8],
) -> Result<Bulk<A>, TextFault>
    // The version, the start pairs and the operations are what the text says.
    ensures ok { IfOk result (λ found. bulk bytes.now ≡ Ok (bulk_value found)) }
    // A fault is the first one of the text, with the number of its line.
    ensures fault { IfErr result (λ fault. fault ≢ TextFault.NoMemory → bulk bytes.now ≡ Err fault) }
    // `NoMemory` is returned only if the text has an operation or a start key without a fault up to its line.
    ensures no_memory { IfErr result (λ fault. fault ≡ TextFault.NoMemory → HasSoundLine (lines bytes.now)) }
    // The version is 1 or 2, the start keys ascend strictly, all keys are at most 2^64 - 3, and start keys and
    // operations together are at most 200,000.
    ensures fits { IfOk result (λ found. BulkFits (bulk_value found)) }
{
    let mut bulk = Bulk::new(alloc);
    let mut rest = bytes;
    let mut number = 0;
    'lines: while !rest.is_empty() {
        let section = bulk.section();
        let (read, behind) = read_first_line(bulk.version(), section, rest);
        number += 1;
        bulk.append_read(read, number)?;
        rest = behind;
        if bulk.read_on(rt, alloc, section, rest) {
            return Ok(bulk);
        }
    }
    Ok(bulk)
}

impl<A: Allocator + Copy + Send + Sync> Bulk<A> {
    fn new(alloc: A) -> Bulk<A>
        ensures value { bulk_value result ≡ nothing_said }
        ensures fits { BulkFits (bulk_value result) }
    {
        Bulk {
            version: 1,
            start: Vec::new(alloc),
            ops: Vec::new(alloc),
        }
    }

    // The section of the next line.
    fn section(&self) -> Section
        ensures { result ≡ next_section (bulk_value self.now) }
    {
        if !self.ops.is_empty() {
            Section::Operations
        } else if self.start.is_empty() && self.version() == Version::One {
            Section::Head
        } else {
            Section::Opening
        }
    }

    fn version(&self) -> Version
        ensures { result ≡ version_numbered self.now.version }
    {
        Version::numbered(self.version)
    }

    // Appends what the line of this number says, which was read so, if it says something.
    fn append_read(
        &mut self,
        read: Result<Option<Line>, LineFault>,
        number: usize,
    ) -> Result<(), TextFault>
        requires fits { BulkFits (bulk_value self.old) }
        requires within { IfOk read (λ found. IfSome found LineFits) }
        ensures ok { OnOk result (bulk_value self.new ≡ with_read (bulk_value self.old) read) }
        ensures sound { OnOk result (fault_of number (bulk_value self.old) read ≡ None) }
        ensures fault { IfErr result (λ fault. fault ≢ TextFault.NoMemory
            → fault_of number (bulk_value self.old) read ≡ Some fault) }
        ensures no_memory { IfErr result (λ fault. fault ≡ TextFault.NoMemory → IsSome (spoken_in read)) }
        ensures no_memory_sound { IfErr result (λ fault. fault ≡ TextFault.NoMemory
            → fault_of number (bulk_value self.old) read ≡ None) }
        ensures fits { OnOk result (BulkFits (bulk_value self.new)) }
    {
        let said = match read {
            Ok(Some(said)) => said,
            Ok(None) => return Ok(()),
            Err(fault) => return Err(located(fault, number)),
        };
        if let Some(fault) = self.fault_of(said, number) {
            return Err(fault);
        }
        self.append(said).map_err(|_| TextFault::NoMemory)
    }

    // Appends all operations that the rest of a text says, if it is long and begins behind the first operation;
    // `before` is the section of the line before it. Returns `true` if it did. If not, as when a line of the rest is at
    // fault or an allocation fails, each line is to be read in its turn.
    fn read_on<R: Threads + Sync>(&mut self, rt: &R, alloc: A, before: Section, rest: &[u8]) -> bool
        requires fits { BulkFits (bulk_value self.old) }
        ensures behind { IsTrue result → next_section (bulk_value self.old) ≡ Operations }
        ensures read { IsTrue result → IsReadOn (bulk_value self.old) (lines rest.now) (bulk_value self.new) }
        ensures fits { BulkFits (bulk_value self.new) }
        ensures stays { IsFalse result → bulk_value self.new ≡ bulk_value self.old }
    {
        let begins = before != Section::Operations && self.section() == Section::Operations;
        if !begins || rest.len() < LONG {
            return false;
        }
        let version = self.version();
        match read_operations(rt, alloc, version, &self.ops, rest, 1, HALVINGS) {
            Some(ops) if self.start.len() + ops.len() <= OPERATIONS_MAX => {
                self.ops = ops;
                true
            }
            _ => false,
        }
    }

    // The fault of what the line of this number says, if it has one.
    fn fault_of(&self, said: Line, number: usize) -> Option<TextFault>
        ensures value { result ≡ fault_of_said number (bulk_value self.now) said }
        ensures fault { result ≢ Some TextFault.NoMemory }
    {
        if matches!(said, Line::Version) {
            return None;
        }
        if let (Line::Start(key, _), Some((before, _))) = (said, self.start.last())
            && key <= *before
        {
            return Some(TextFault::StartOrder { line: number });
        }
        if self.start.len() + self.ops.len() >= OPERATIONS_MAX {
            return Some(TextFault::TooManyOperations { line: number });
        }
        None
    }

    // Appends what a line says: the line of the version sets it.
    fn append(&mut self, said: Line) -> Result<(), NoMemory>
        ensures ok { OnOk result (bulk_value self.new ≡ with_line (bulk_value self.old) said) }
        ensures no_memory { OnErr result (IsSome (spoken_in (Ok (Some said)))) }
    {
        match said {
            Line::Version => {
                self.version = 2;
                Ok(())
            }
            Line::Start(key, value) => self.start.push((key, value)).map_err(|_| NoMemory),
            Line::Operation(op) => self.ops.push(op).map_err(|_| NoMemory),
        }
    }
}

// The fault of a line, with the line's number.
fn located(fault: LineFault, line: usize) -> TextFault
    ensures { result ≡ located line fault }
{
    match fault {
        LineFault::BadOperation => TextFault::BadOperation { line },
        LineFault::BadKey => TextFault::BadKey { line },
        LineFault::KeyTooLarge => TextFault::KeyTooLarge { line },
        LineFault::BadValue => TextFault::BadValue { line },
    }
}
