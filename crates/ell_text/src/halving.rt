//! The operations of a long text, which is halved among threads that read it.
ghost use Rattle.std.specs.Prelude.{◌≡◌, ◌≤◌, ◌++◌, All, IfOk, IfSome, Ok, OnSome, Some, [], length};
ghost use denote.Param.Send.{Frees, IsSend, IsSync};
ghost use Rattle.ell_ops.specs.Meaning.{Fits};
ghost use Rattle.ell_text.specs.Line.{LineFits};
ghost use Rattle.ell_text.specs.Lines.{lines};
ghost use Rattle.ell_text.specs.Operations.{Follow, ReadAsOperation};

use crate::limits::OPERATIONS_MAX;
use crate::line::{Line, LineFault, Section, read_first_line};
use crate::lines::cut_behind_line;
use crate::version::Version;
use ell_ops::Op;
use std::alloc::Allocator;
use std::thread::{Threads, join};

/// Reads a text that stands behind operations, and returns those before it and then its own, in a list that has room
/// for those of so many `parts` of this length. The text is halved as many times as `halvings` says, and its parts are
/// read by threads of their own, if they can be created. Returns `None` if a line is at fault, a part has more than
/// `OPERATIONS_MAX` operations, or an allocation fails: then no fault is told.
#[cycle(halving)]
pub(crate) fn read_operations<R: Threads + Sync, A: Allocator + Copy + Send + Sync>(
    rt: &R,
    alloc: A,
    version: Version,
    before: &[Op],
    text: &[u8],
    parts: usize,
    halvings: u32,
) -> Option<Vec<Op, A>>
    requires fits { All Fits before.now }
    ensures follow { IfSome result (λ ops. Follow version before.now (lines text.now) ops.items) }
    ensures fits { IfSome result (λ ops. All Fits ops.items) }
{
    if halvings == 0 {
        return read_in_turn(alloc, version, before, text, parts);
    }
    let (front, back) = cut_behind_line(text, text.len() / 2);
    let fewer = halvings - 1;
    // The list of the front has room for both halves, so that it is not moved when the back is joined to it.
    let halves = parts.saturating_mul(2);
    let first = move || -> Option<Vec<Op, A>>
        requires { IsSync R.row × IsSend A.row × IsSync A.row × Frees A.Allocator A.dealloc_token × (All Fits before.now) }
        ensures follow { IfSome result (λ ops. Follow version before.entry.now (lines front.entry.now) ops.items) }
        ensures fits { IfSome result (λ ops. All Fits ops.items) }
    { read_operations(rt, alloc, version, before, front, halves, fewer) };
    let second = move || -> Option<Vec<Op, A>>
        requires { IsSync R.row × IsSend A.row × IsSync A.row × Frees A.Allocator A.dealloc_token }
        ensures follow { IfSome result (λ ops. Follow version [] (lines back.entry.now) ops.items) }
        ensures fits { IfSome result (λ ops. All Fits ops.items) }
    { read_operations(rt, alloc, version, &[], back, 1, fewer) };
    let (first, second) = join(rt, first, second);
    let mut ops = first?;
    ops.extend_from_slice(&second?).ok()?;
    Some(ops)
}

// The same, in this thread alone.
fn read_in_turn<A: Allocator + Copy>(
    alloc: A,
    version: Version,
    before: &[Op],
    text: &[u8],
    parts: usize,
) -> Option<Vec<Op, A>>
    requires fits { All Fits before.now }
    ensures follow { IfSome result (λ ops. Follow version before.now (lines text.now) ops.items) }
    ensures fits { IfSome result (λ ops. All Fits ops.items) }
{
    let mut ops = with_room(alloc, before, room_for(text, parts))?;
    let mut rest = text;
    'lines: while !rest.is_empty() {
        let (read, behind) = read_first_line(version, Section::Operations, rest);
        append(&mut ops, read)?;
        rest = behind;
    }
    Some(ops)
}

// A list of operations, with room for this many more.
fn with_room<A: Allocator + Copy>(alloc: A, before: &[Op], more: usize) -> Option<Vec<Op, A>>
    ensures { IfSome result (λ ops. ops.items ≡ before.now) }
{
    let mut ops = Vec::with_capacity(alloc, before.len().saturating_add(more)).ok()?;
    ops.extend_from_slice(before).ok()?;
    Some(ops)
}

// How many operations to have room for, if so many parts of a text have about as many lines as this one: an eighth of
// one more, but no more than may be read.
fn room_for(text: &[u8], parts: usize) -> usize {
    let lines = most_lines(text);
    lines
        .saturating_mul(parts)
        .saturating_add(lines / 8)
        .min(OPERATIONS_MAX)
}

// How many lines a text has, but no more than operations may be read.
fn most_lines(text: &[u8]) -> usize {
    let ends = text.iter().filter(|byte| **byte == b'\n').count();
    ends.saturating_add(1).min(OPERATIONS_MAX)
}

// Appends the operation that a line says, if it says one. `None` if the line is at fault, or says something else, there
// are `OPERATIONS_MAX` operations before it, or an allocation fails.
fn append<A: Allocator + Copy>(
    ops: &mut Vec<Op, A>,
    read: Result<Option<Line>, LineFault>,
) -> Option<()>
    requires within { IfOk read (λ found. IfSome found LineFits) }
    requires fits { All Fits ops.old.items }
    ensures read { OnSome result (ReadAsOperation read ops.old.items ops.new.items) }
    ensures fits { OnSome result (All Fits ops.new.items) }
{
    match read.ok()? {
        None => Some(()),
        Some(Line::Operation(op)) if ops.len() < OPERATIONS_MAX => ops.push(op).ok(),
        Some(_) => None,
    }
}
