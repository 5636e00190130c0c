//! All the bytes of a reader.
ghost use Rattle.std.specs.Prelude.{◌≡◌, ◌≢◌, ◌+◌, ◌<◌, ◌≤◌, IfErr, IfOk, IfSome, IsErrOf, OnOk, length, take, vec_len};
ghost use Rattle.std.specs.Io.KnownBytes.{IsAtEnd};
ghost use Rattle.ell_text.specs.Input.{GivesFront, IsFilledTo, ReadsTo};
ghost use Rattle.ell_text.specs.Limits.{most_bytes};

use crate::limits::INPUT_MAX;
use std::alloc::Allocator;
use std::io::Read;
use thiserror::Error;

// The least room that a read is given, in bytes.
const READ_ROOM: usize = 65_536;

/// Why an input was not read.
#[derive(Debug, Clone, Copy, PartialEq, Eq, Error)]
pub enum InputFault {
    /// The reader returned an error of any kind, including that of an interrupted call.
    #[error("read failed")]
    Read,
    /// The reader gave more than `INPUT_MAX` bytes.
    #[error("input over {max} bytes", max = INPUT_MAX)]
    TooLong,
    /// An allocation failed.
    #[error("out of memory")]
    NoMemory,
}

/// Reads all of a reader's bytes, until it first returns no byte. The first fault that is met is returned, and the
/// reader has then given some of its bytes.
pub fn read_all<A: Allocator, R: Read>(alloc: A, reader: &mut R) -> Result<Vec<u8, A>, InputFault>
    // If it succeeds, the bytes are all those of the reader, which is then at its end.
    ensures bytes { IfOk result (λ v. IfSome (R.remaining reader.old) (λ bytes. v.items ≡ bytes)) }
    ensures end { OnOk result (IsAtEnd (R.remaining reader.new)) }
    // They are at most 16,777,216.
    ensures within { IfOk result (λ v. vec_len v ≤ most_bytes) }
    // `TooLong` is returned only if the reader has more bytes than that.
    ensures too_long { IsErrOf result InputFault.TooLong
        → IfSome (R.remaining reader.old) (λ bytes. most_bytes < length bytes) }
    // However the call ends, the reader has given a prefix of its bytes.
    ensures given { GivesFront (R.remaining reader.old) (R.remaining reader.new) }
{
    let mut bytes = Vec::new(alloc);
    let mut filled = 0;
    while filled <= INPUT_MAX {
        let count = read_more(reader, &mut bytes, filled)?;
        if count == 0 {
            bytes.truncate(filled);
            return Ok(bytes);
        }
        filled += count;
    }
    Err(InputFault::TooLong)
}

// Reads once, to behind the filled front of the list, and says how many bytes came.
fn read_more<A: Allocator, R: Read>(
    reader: &mut R,
    bytes: &mut Vec<u8, A>,
    filled: usize,
) -> Result<usize, InputFault>
    requires { IsFilledTo filled bytes.old }
    ensures read { ReadsTo (R.remaining reader.old) (R.remaining reader.new)
        filled bytes.old.items bytes.new.items result }
    ensures within { vec_len bytes.new ≤ most_bytes + READ_ROOM }
    ensures fits { IfOk result (λ count. filled + count ≤ vec_len bytes.new) }
    ensures end { IfOk result (λ count. count ≡ 0 → IsAtEnd (R.remaining reader.new)) }
    ensures fault { IfErr result (λ fault. fault ≢ InputFault.TooLong) }
{
    make_room(bytes, filled)?;
    read_at(reader, bytes.as_mut_slice(), filled)
}

// Makes the list longer than its filled front by at least `READ_ROOM`, and twice as long as it was up
// to the most that it may be.
fn make_room<A: Allocator>(bytes: &mut Vec<u8, A>, filled: usize) -> Result<(), InputFault>
    requires { IsFilledTo filled bytes.old }
    ensures front { take filled bytes.new.items ≡ take filled bytes.old.items }
    ensures room { OnOk result (filled + READ_ROOM ≤ vec_len bytes.new) }
    ensures within { vec_len bytes.new ≤ most_bytes + READ_ROOM }
    ensures kept { vec_len bytes.old ≤ vec_len bytes.new }
    ensures fault { IfErr result (λ fault. fault ≡ InputFault.NoMemory) }
{
    let len = bytes.len();
    if len - filled >= READ_ROOM {
        return Ok(());
    }
    let doubled = (2 * len).min(INPUT_MAX + READ_ROOM);
    bytes
        .resize(doubled.max(filled + READ_ROOM), 0)
        .map_err(|_| InputFault::NoMemory)
}

// Reads once, to the part of the buffer from an index on.
fn read_at<R: Read>(reader: &mut R, buffer: &mut [u8], at: usize) -> Result<usize, InputFault>
    requires { at < length buffer.old }
    ensures read { ReadsTo (R.remaining reader.old) (R.remaining reader.new) at buffer.old buffer.new result }
    ensures fits { IfOk result (λ count. at + count ≤ length buffer.new) }
    ensures end { IfOk result (λ count. count ≡ 0 → IsAtEnd (R.remaining reader.new)) }
    ensures fault { IfErr result (λ fault. fault ≡ InputFault.Read) }
{
    reader.read(&mut buffer[at..]).map_err(|_| InputFault::Read)
}
