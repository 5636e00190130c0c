//! The text that answers a file of operations.
ghost use Rattle.std.specs.Prelude.{◌≡◌};
ghost use Rattle.ell_text.specs.declared.version.Version.TheVariants.{One};
ghost use Rattle.ell_text.specs.Answer.{reply_line, answer};
ghost use Rattle.ell_text.specs.Output.{IsWritten};
ghost use Rattle.ell_text.specs.Version.{IsVersion};

use crate::listing::{Listed, write_listing};
use crate::output::{Output, WriteFault};
use crate::version::Version;
use ell_ops::Reply;
use std::io::Write;

/// Writes the answer to a text of a version, which is 1 or 2: a line `yes` or `no` for each reply, in order, then a line
/// `keys N` with the number of the keys, and then a line for each key, in order. In version 2 the line of a find that found
/// its key is `yes V`, and that of a key is `K V`, V being its value.
///
/// Each line ends with a line feed, and numbers are in decimal digits without leading zeros.
/// Nothing is allocated, and the writer is called for many lines at a time.
///
/// Returns `Err` at the first failure of the writer, and also if the count of the bytes could exceed `u64::MAX`, before
/// a byte goes out that is not counted.
pub fn write_answer<W: Write>(
    out: &mut W,
    version: u8,
    replies: &[Reply],
    pairs: &[(u64, u64)],
) -> Result<(), WriteFault>
    requires { IsVersion version }
    // The whole answer is appended to what the writer had. After a fault exactly its first `written` bytes are
    // appended, which are not all of them.
    ensures { IsWritten (W.contents out.old) (W.contents out.new)
        (answer version replies.now pairs.now) result }
{
    write_listing(out, Version::numbered(version), replies, pairs)
}

impl Listed for Reply {
    ghost line = { reply_line };

    fn put_line<W: Write>(
        &self,
        version: Version,
        output: &mut Output,
        out: &mut W,
    ) -> Result<(), WriteFault> {
        match (version, *self) {
            (Version::Two, Reply::Found(value)) => {
                output.put(out, b"yes ")?;
                value.put_line(version, output, out)
            }
            // Each arm copies a text of a fixed size, which takes no call.
            (_, Reply::No) => output.put(out, b"no\n"),
            (_, Reply::Yes | Reply::Found(_)) => output.put(out, b"yes\n"),
        }
    }
}

/// Returns the line of a reply, without a value.
pub(crate) fn line_of(reply: Reply) -> &'static [u8]
    ensures { result.now ≡ reply_line One reply }
{
    match reply {
        Reply::No => b"no\n",
        Reply::Yes | Reply::Found(_) => b"yes\n",
    }
}
