//! A listing: a line for each item, and then the keys. Replies are listed, and what is shown of events.
ghost use Rattle.std.specs.Prelude.{ℕ, List};
ghost use Rattle.std.specs.List.{flat_map};
ghost use Rattle.ell_text.specs.declared.version.Version.{Version};
ghost use Rattle.ell_text.specs.Answer.{number_line, pair_line, keys_lines, listing};
ghost use Rattle.ell_text.specs.Output.{HasPut, IsWritten};

use crate::output::{Output, WriteFault};
use crate::version::Version;
use std::io::Write;

/// What a text shows in a line of its own, which may differ between versions.
pub(crate) trait Listed {
    ghost line: { Version → Self → List ℕ };

    /// Puts the line that it has in a version, with its line feed.
    fn put_line<W: Write>(
        &self,
        version: Version,
        output: &mut Output,
        out: &mut W,
    ) -> Result<(), WriteFault>
        ensures { HasPut (W.contents out.old) (W.contents out.new) output.old output.new
            (line version self.now) result };
}

impl Listed for u64 {
    ghost line = { λ version. number_line };

    fn put_line<W: Write>(
        &self,
        _version: Version,
        output: &mut Output,
        out: &mut W,
    ) -> Result<(), WriteFault> {
        output.put_number(out, *self)?;
        output.put(out, b"\n")
    }
}

// A key with its value.
impl Listed for (u64, u64) {
    ghost line = { pair_line };

    fn put_line<W: Write>(
        &self,
        version: Version,
        output: &mut Output,
        out: &mut W,
    ) -> Result<(), WriteFault> {
        let (key, value) = *self;
        match version {
            Version::One => key.put_line(version, output, out),
            Version::Two => {
                output.put_number(out, key)?;
                output.put(out, b" ")?;
                value.put_line(version, output, out)
            }
        }
    }
}

/// Writes a line for each item, in order, then a line `keys N` with the number of the keys, and then a line for each
/// key, in order: the lines that they have in a version. Nothing is allocated, and the writer is called for many lines
/// at a time.
pub(crate) fn write_listing<W: Write, T: Listed, K: Listed>(
    out: &mut W,
    version: Version,
    items: &[T],
    keys: &[K],
) -> Result<(), WriteFault>
    ensures { IsWritten (W.contents out.old) (W.contents out.new)
        (listing (T.line version) (K.line version) items.now keys.now) result }
{
    let mut output = Output::new();
    put_listing(&mut output, out, version, items, keys)?;
    output.flush(out)
}

fn put_listing<W: Write, T: Listed, K: Listed>(
    output: &mut Output,
    out: &mut W,
    version: Version,
    items: &[T],
    keys: &[K],
) -> Result<(), WriteFault>
    ensures { HasPut (W.contents out.old) (W.contents out.new) output.old output.new
        (listing (T.line version) (K.line version) items.now keys.now) result }
{
    put_lines(output, out, version, items)?;
    put_keys(output, out, version, keys)
}

// A line `keys N` with the number of the keys, and then a line for each key, in order.
fn put_keys<W: Write, K: Listed>(
    output: &mut Output,
    out: &mut W,
    version: Version,
    keys: &[K],
) -> Result<(), WriteFault>
    ensures { HasPut (W.contents out.old) (W.contents out.new) output.old output.new
        (keys_lines (K.line version) keys.now) result }
{
    output.put(out, b"keys ")?;
    (keys.len() as u64).put_line(version, output, out)?;
    put_lines(output, out, version, keys)
}

fn put_lines<W: Write, T: Listed>(
    output: &mut Output,
    out: &mut W,
    version: Version,
    items: &[T],
) -> Result<(), WriteFault>
    ensures { HasPut (W.contents out.old) (W.contents out.new) output.old output.new
        (flat_map (T.line version) items.now) result }
{
    for item in items {
        item.put_line(version, output, out)?;
    }
    Ok(())
}
