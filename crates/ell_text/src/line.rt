//! What one line of a bulk text says.
ghost use Rattle.std.specs.Prelude.{◌≡◌, ◌<◌, ◌≤◌, IfOk, IfSome, length};
ghost use Rattle.ell_ops.specs.Meaning.{greatest_key, key_of};
ghost use Rattle.ell_text.specs.Line.{IsFirstLine, LineFits, line_behind_name, line_of, or_bad_key, or_bad_value, said_in};
ghost use Rattle.ell_text.specs.Number.{key_in, key_spelled};

use crate::lines::{cut_first_line, is_skipped, split_at_space};
use crate::number::{NumberFault, read_key, read_value};
use crate::plain::read_plain_line;
use crate::version::Version;
use ell_ops::Op;

/// Why a line of a bulk text is at fault by itself. The first in this list that holds counts.
#[derive(Clone, Copy)]
pub(crate) enum LineFault {
    /// What stands before the first space is not the name of a line that may stand there.
    BadOperation,
    /// What stands after the first space is not a number.
    BadKey,
    /// The key is above `KEY_MAX`.
    KeyTooLarge,
    /// The line must have a value, and there is none after the key.
    BadValue,
}

/// What an operation of a text does, without its key. No text has a swap.
#[derive(Clone, Copy)]
pub(crate) enum OpKind {
    Find,
    Insert,
    Delete,
}

impl OpKind {
    ghost use Rattle.ell_text.specs.Line.{kind_of, operation_on};

    /// Returns the kind that a name names.
    pub(crate) fn named(name: &[u8]) -> Option<OpKind>
        ensures { result ≡ kind_of name.now }
    {
        match name {
            b"find" => Some(OpKind::Find),
            b"insert" => Some(OpKind::Insert),
            b"delete" => Some(OpKind::Delete),
            _ => None,
        }
    }

    /// Returns the operation of this kind on a key. An insert has the value.
    pub(crate) fn on(self, key: u64, value: u64) -> Op
        ensures value { result ≡ operation_on self key value }
        ensures key { key_of result ≡ key }
    {
        match self {
            OpKind::Find => Op::Find(key),
            OpKind::Insert => Op::Insert(key, value),
            OpKind::Delete => Op::Delete(key),
        }
    }
}

/// A section of a bulk text, by the lines that may stand in it.
#[derive(Clone, Copy, PartialEq, Eq)]
pub(crate) enum Section {
    /// The first line that says something: it may say the version.
    Head,
    /// Start lines, and the first operation.
    Opening,
    /// Operations alone.
    Operations,
}

/// What a line of a bulk text says.
#[derive(Clone, Copy)]
pub(crate) enum Line {
    /// The text has version 2.
    Version,
    /// A key that is there before the first operation, and its value.
    Start(u64, u64),
    /// An operation.
    Operation(Op),
}

/// What a line says, without its key.
#[derive(Clone, Copy)]
pub(crate) enum LineKind {
    Start,
    Operation(OpKind),
}

impl LineKind {
    ghost use Rattle.ell_text.specs.Line.{has_value, line_kind_of, line_on};

    // The kind that a name names in a section.
    fn named(section: Section, name: &[u8]) -> Option<LineKind>
        ensures { result ≡ line_kind_of section name.now }
    {
        if section != Section::Operations && name == b"start".as_slice() {
            return Some(LineKind::Start);
        }
        OpKind::named(name).map(LineKind::Operation)
    }

    /// Returns `true` if a line of this kind has a value.
    pub(crate) fn has_value(self, version: Version) -> bool
        ensures { result ≡ has_value version self }
    {
        matches!(
            (version, self),
            (
                Version::Two,
                LineKind::Start | LineKind::Operation(OpKind::Insert)
            )
        )
    }

    /// What a line of this kind says of a key and a value.
    pub(crate) fn on(self, key: u64, value: u64) -> Line
        ensures value { result ≡ line_on self key value }
        ensures within { key ≤ greatest_key → LineFits result }
    {
        match self {
            LineKind::Start => Line::Start(key, value),
            LineKind::Operation(kind) => Line::Operation(kind.on(key, value)),
        }
    }
}

/// Reads the first line of a text that is not empty, which stands in a section: what it says in a version, as `read_line`
/// does, and the text behind it.
pub(crate) fn read_first_line(
    version: Version,
    section: Section,
    text: &[u8],
) -> (Result<Option<Line>, LineFault>, &[u8])
    requires { 0 < length text.now }
    ensures line { IsFirstLine version section text.now result.0 result.1.now }
    ensures within { IfOk result.0 (λ found. IfSome found LineFits) }
{
    if let Some((said, rest)) = read_plain_line(version, section, text) {
        return (Ok(Some(said)), rest);
    }
    let (line, rest) = cut_first_line(text);
    (read_line(version, section, line), rest)
}

/// Reads what a line of a section says in a version, or returns `None` if the line is skipped.
pub(crate) fn read_line(
    version: Version,
    section: Section,
    line: &[u8],
) -> Result<Option<Line>, LineFault>
    ensures value { result ≡ line_of version section line.now }
    ensures within { IfOk result (λ found. IfSome found LineFits) }
{
    if is_skipped(line) {
        return Ok(None);
    }
    Ok(Some(read_said(version, section, line)?))
}

// What a line says that is not skipped.
fn read_said(version: Version, section: Section, line: &[u8]) -> Result<Line, LineFault>
    ensures value { result ≡ said_in version section line.now }
    ensures within { IfOk result LineFits }
{
    if section == Section::Head && line == b"version 2".as_slice() {
        return Ok(Line::Version);
    }
    let (name, rest) = split_at_space(line);
    let Some(kind) = LineKind::named(section, name) else {
        return Err(LineFault::BadOperation);
    };
    read_behind_name(version, kind, rest)
}

// What a line of a kind says, by what stands behind its name.
fn read_behind_name(version: Version, kind: LineKind, rest: &[u8]) -> Result<Line, LineFault>
    ensures value { result ≡ line_behind_name version (Some kind) rest.now }
    ensures within { IfOk result LineFits }
{
    if !kind.has_value(version) {
        return Ok(kind.on(read_line_key(rest)?, 0));
    }
    let (key, value) = split_at_space(rest);
    let key = read_line_key(key)?;
    Ok(kind.on(key, read_line_value(value)?))
}

fn read_line_key(bytes: &[u8]) -> Result<u64, LineFault>
    ensures value { result ≡ or_bad_key (key_in bytes.now) }
    ensures within { IfOk result (λ key. key ≤ greatest_key) }
{
    match read_key(bytes) {
        Ok(key) => Ok(key),
        Err(NumberFault::NotANumber) => Err(LineFault::BadKey),
        Err(NumberFault::TooLarge) => Err(LineFault::KeyTooLarge),
    }
}

fn read_line_value(bytes: &[u8]) -> Result<u64, LineFault>
    ensures { result ≡ or_bad_value (key_spelled bytes.now) }
{
    read_value(bytes).map_err(|_| LineFault::BadValue)
}
