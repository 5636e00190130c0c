//! Text on its way to a writer: it is gathered in a buffer of a fixed size, and the bytes that
//! the writer took are counted.
ghost use Rattle.std.specs.Prelude.{◌≡◌, ◌+◌, ◌^◌, ◌≤◌, ◌<◌, ◌↔◌, [], ◌++◌, length, take, IsTrue, IfOk, IfErr, OnOk};
ghost use Rattle.std.specs.Fmt.{decimal};
ghost use Rattle.std.specs.Io.KnownBytes.{Appends};
ghost use Rattle.ell_text.specs.declared.output.TheConstants.{CAPACITY};
ghost use Rattle.ell_text.specs.Sending.{Sends, Stops};

use std::io::Write;
use thiserror::Error;

// How many bytes wait at most, before they go to the writer together.
const CAPACITY: usize = 64 * 1024;

/// The writer failed before the whole text was out.
///
/// Each error of the writer counts, including that of an interrupted write, and so does a write that takes no byte.
#[derive(Debug, Clone, Copy, PartialEq, Eq, Error)]
#[error("write failed after {written} bytes")]
pub struct WriteFault {
    /// How many bytes of the text the writer took.
    pub written: u64,
}

// Whether the bytes can be added to a count.
fn can_count(bytes: &[u8], written: u64) -> bool
    ensures { IsTrue result ↔ (written + length bytes.now < 2 ^ 64) }
{
    bytes.len() as u64 <= u64::MAX - written
}

// Gives all of the bytes to the writer. Adds one to the count `written` for each byte that the writer takes, and
// returns the sum. Returns `Err` at the first failure of the writer.
fn send<W: Write>(out: &mut W, bytes: &[u8], written: u64) -> Result<u64, WriteFault>
    ensures ok { IfOk result (λ count.
        Sends (W.contents out.old) (W.contents out.new) bytes.now [] written count) }
    ensures fault { IfErr result (λ fault.
        Stops (W.contents out.old) (W.contents out.new) bytes.now written fault.written) }
    // None of the bytes goes out if the count could exceed `u64::MAX`.
    ensures uncountable { 2 ^ 64 ≤ written + length bytes.now → result ≡ Err (record { written = written }) }
{
    if !can_count(bytes, written) {
        return Err(WriteFault { written });
    }
    let mut count = written;
    let mut rest = bytes;
    while !rest.is_empty() {
        let taken = out.write(rest).unwrap_or(0);
        if taken == 0 {
            return Err(WriteFault { written: count });
        }
        count += taken as u64;
        rest = &rest[taken..];
    }
    Ok(count)
}

/// Text that waits to be written, and the count of the bytes that the writer took so far.
///
/// It holds its whole buffer, so make it once and lend it. After an `Err` nothing is known about it: do not use it
/// again.
#[derive(Drop)]
pub(crate) struct Output {
    bytes: [u8; CAPACITY],
    filled: usize,
    written: u64,
    ghost in_range: { filled ≤ CAPACITY },
}

impl Output {
    ghost use Rattle.ell_text.specs.Output.{HasPut, waiting_bytes};

    /// Returns output in which nothing waits, and of which nothing has been written.
    pub(crate) fn new() -> Self
        ensures waiting { waiting_bytes result ≡ [] }
        ensures written { result.written ≡ 0 }
    {
        Output {
            bytes: [0; CAPACITY],
            filled: 0,
            written: 0,
        }
    }

    /// Puts the text behind what waits. Each time that the buffer is full and more is to come, it
    /// goes to the writer.
    #[inline(always)]
    pub(crate) fn put<W: Write>(&mut self, out: &mut W, text: &[u8]) -> Result<(), WriteFault>
        ensures { HasPut (W.contents out.old) (W.contents out.new) self.old self.new
            text.now result }
    {
        let mut rest = text;
        while rest.len() > CAPACITY - self.filled {
            let (front, back) = rest.split_at(CAPACITY - self.filled);
            self.keep(front);
            self.flush(out)?;
            rest = back;
        }
        self.keep(rest);
        Ok(())
    }

    /// Puts the number in decimal digits, without leading zeros.
    pub(crate) fn put_number<W: Write>(
        &mut self,
        out: &mut W,
        number: u64,
    ) -> Result<(), WriteFault>
        ensures { HasPut (W.contents out.old) (W.contents out.new) self.old self.new
            (decimal number) result }
    {
        self.put(out, itoa::Buffer::new().format(number).as_bytes())
    }

    /// Gives what waits to the writer.
    pub(crate) fn flush<W: Write>(&mut self, out: &mut W) -> Result<(), WriteFault>
        ensures put { HasPut (W.contents out.old) (W.contents out.new) self.old self.new
            [] result }
        // Nothing waits, and the whole buffer is free.
        ensures empty { OnOk result (self.new.filled ≡ 0) }
    {
        self.written = send(out, &self.bytes[..self.filled], self.written)?;
        self.filled = 0;
        Ok(())
    }

    /// Copies the text behind what waits. Condition: there is room for it.
    #[inline(always)]
    fn keep(&mut self, text: &[u8])
        requires { self.old.filled + length text.now ≤ CAPACITY }
        ensures waiting { waiting_bytes self.new ≡ waiting_bytes self.old ++ text.now }
        ensures written { self.new.written ≡ self.old.written }
    {
        let end = self.filled + text.len();
        self.bytes[self.filled..end].copy_from_slice(text);
        self.filled = end;
    }
}
