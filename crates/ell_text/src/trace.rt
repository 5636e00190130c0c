//! The text of a replay.
ghost use Rattle.std.specs.Prelude.{◌≡◌};
ghost use Rattle.ell_text.specs.Output.{IsWritten};
ghost use Rattle.ell_text.specs.replays.Trace.{shown_line, refusal_line, trace};

use crate::answer::line_of;
use crate::listing::{Listed, write_listing};
use crate::output::{Output, WriteFault};
use crate::version::Version;
use ell_core::{CoreFault, Shown, Stepped};
use std::io::Write;

/// Writes the trace: a line for what is shown of each event, in order, then a line `keys N` with the
/// number of the keys, and then a line for each key, in order.
///
/// The line of an event is `moved`, `won` or `lost`, for an answer `yes` or `no` without a value, and for a refusal
/// `refused` and the fault's name. Each line ends with a line feed, and numbers are in decimal digits
/// without leading zeros. Nothing is allocated, and the writer is called for many lines at a time.
///
/// Returns `Err` at the first failure of the writer, and also if the count of the bytes could exceed `u64::MAX`, before
/// a byte goes out that is not counted.
pub fn write_trace<W: Write>(out: &mut W, shown: &[Shown], keys: &[u64]) -> Result<(), WriteFault>
    // The whole trace is appended to what the writer had. After a fault exactly its first `written` bytes are appended,
    // which are not all of them.
    ensures { IsWritten (W.contents out.old) (W.contents out.new)
        (trace shown.now keys.now) result }
{
    write_listing(out, Version::One, shown, keys)
}

impl Listed for Shown {
    ghost line = { λ version. shown_line };

    fn put_line<W: Write>(
        &self,
        _version: Version,
        output: &mut Output,
        out: &mut W,
    ) -> Result<(), WriteFault> {
        output.put(out, shown_line(*self))
    }
}

fn shown_line(event: Shown) -> &'static [u8]
    ensures { result.now ≡ shown_line event }
{
    match event {
        Shown::Step(Stepped::Moved) => b"moved\n",
        Shown::Step(Stepped::Won) => b"won\n",
        Shown::Step(Stepped::Lost) => b"lost\n",
        Shown::Step(Stepped::Answered(reply)) => line_of(reply),
        Shown::Refused(fault) => refusal_line(fault),
    }
}

fn refusal_line(fault: CoreFault) -> &'static [u8]
    ensures { result.now ≡ refusal_line fault }
{
    match fault {
        CoreFault::NoSuchWorker => b"refused NoSuchWorker\n",
        CoreFault::NotOwned => b"refused NotOwned\n",
        CoreFault::NotNow => b"refused NotNow\n",
        CoreFault::NoCards => b"refused NoCards\n",
        CoreFault::OwnedTwice => b"refused OwnedTwice\n",
        CoreFault::NoMemory => b"refused NoMemory\n",
    }
}
