//! Lines of a bulk text that are spelled plainly, as most are, each read in one pass.
ghost use Rattle.std.specs.Prelude.{IfSome, Ok, Some};
ghost use Rattle.ell_text.specs.Line.{HasKindInFront, IsFirstLine, IsValueInFront, LineFits};
ghost use Rattle.ell_text.specs.Lines.{IsBehindLineEnd};

use crate::line::{Line, LineKind, OpKind, Section};
use crate::number::read_number_in_front;
use crate::version::Version;
use ell_ops::KEY_MAX;

/// Reads the first line of a text, which stands in a section, in one pass if it is spelled plainly: its name, one
/// space, its key, then one space and its value if it has one, and its end. Returns what it says in a version, and the
/// text behind it. `None` is not a fault: `read_line` then has to tell what the line says.
pub(crate) fn read_plain_line(
    version: Version,
    section: Section,
    text: &[u8],
) -> Option<(Line, &[u8])>
    // What it reads is what the rule of lines says of the first line.
    ensures line { IfSome result (λ read. IsFirstLine version section text.now (Ok (Some read.0)) read.1.now) }
    ensures within { IfSome result (λ read. LineFits read.0) }
{
    let (kind, behind) = kind_in_front(section, text)?;
    let (key, behind) = read_number_in_front(behind, KEY_MAX)?;
    let (value, behind) = value_in_front(kind.has_value(version), behind)?;
    let rest = behind_line_end(behind)?;
    Some((kind.on(key, value), rest))
}

// The kind of line whose name stands at the front of a text, with a space behind it, and the text behind that.
fn kind_in_front(section: Section, text: &[u8]) -> Option<(LineKind, &[u8])>
    ensures { IfSome result (λ found. HasKindInFront section text.now found.0 found.1.now) }
{
    match text {
        [b'f', b'i', b'n', b'd', b' ', rest @ ..] => Some((
            LineKind::Operation(OpKind::Find),
            rest,
        )),
        [b'i', b'n', b's', b'e', b'r', b't', b' ', rest @ ..] => {
            Some((LineKind::Operation(OpKind::Insert), rest))
        }
        [b'd', b'e', b'l', b'e', b't', b'e', b' ', rest @ ..] => {
            Some((LineKind::Operation(OpKind::Delete), rest))
        }
        [b's', b't', b'a', b'r', b't', b' ', rest @ ..] if section != Section::Operations => {
            Some((LineKind::Start, rest))
        }
        _ => None,
    }
}

// The value at the front of some bytes, behind one space, if there is to be one, and else 0; and the bytes behind it.
fn value_in_front(has_value: bool, bytes: &[u8]) -> Option<(u64, &[u8])>
    ensures { IfSome result (λ read. IsValueInFront has_value bytes.now read.0 read.1.now) }
{
    if !has_value {
        return Some((0, bytes));
    }
    match bytes {
        [b' ', behind @ ..] => read_number_in_front(behind, u64::MAX),
        _ => None,
    }
}

// What stands behind the end of a line, if one stands at the front of some bytes: a line feed, which may have one carriage return
// before it.
fn behind_line_end(bytes: &[u8]) -> Option<&[u8]>
    ensures { IfSome result (λ rest. IsBehindLineEnd bytes.now rest.now) }
{
    match bytes {
        [b'\n', rest @ ..] => Some(rest),
        [b'\r', b'\n', rest @ ..] => Some(rest),
        _ => None,
    }
}
