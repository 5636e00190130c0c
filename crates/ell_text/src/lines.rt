//! The lines of a text, and the parts of one line.
ghost use Rattle.std.specs.Prelude.{◌≡◌, ◌<◌, ◌≤◌, [], ◌∷◌, ◌++◌, length, position, MatchOption};
ghost use Rattle.std.specs.List.{after_first, before_first, slice_split};
ghost use Rattle.std.specs.Str.Lines.{strip_carriage_return};
ghost use Rattle.ell_text.specs.Lines.{is_blank, is_skipped, is_space, lines};

use bstr::{ByteSlice, Lines};

/// Returns the lines of a text, in order. A line ends at a line feed, which may have one carriage return before it. The
/// last line may lack its end. What follows the last line feed is not a line if it is empty.
pub(crate) fn lines(text: &[u8]) -> Lines<'_>
    ensures value { result ≡ lines text.now }
    ensures len { length result ≤ length text.now }
{
    text.lines()
}

/// Returns the first line of a text that is not empty, and the text behind it.
pub(crate) fn cut_first_line(text: &[u8]) -> (&[u8], &[u8])
    requires { 0 < length text.now }
    ensures cut { lines text.now ≡ result.0.now ∷ lines result.1.now }
    ensures shorter { length result.1.now < length text.now }
{
    match text.find_byte(b'\n') {
        Some(at) => (without_carriage_return(&text[..at]), &text[at + 1..]),
        None => (text, &[]),
    }
}

/// A text in two, cut behind the first line feed at or behind a place; the second part is empty if there is none.
pub(crate) fn cut_behind_line(text: &[u8], place: usize) -> (&[u8], &[u8])
    requires { place ≤ length text.now }
    ensures { lines text.now ≡ lines result.0.now ++ lines result.1.now }
{
    match (&text[place..]).find_byte(b'\n') {
        Some(at) => text.split_at(place + at + 1),
        None => (text, &[]),
    }
}

// A line without the one carriage return at its end, if it has one.
fn without_carriage_return(line: &[u8]) -> &[u8]
    ensures { result.now ≡ strip_carriage_return line.now }
{
    match line {
        [front @ .., b'\r'] => front,
        _ => line,
    }
}

/// Returns `true` if a line says nothing: a comment, or nothing but spaces and tabs.
pub(crate) fn is_skipped(line: &[u8]) -> bool
    ensures { result ≡ is_skipped line.now }
{
    line.starts_with(b"#") || is_blank(line)
}

fn is_blank(line: &[u8]) -> bool
    ensures { result ≡ is_blank line.now }
{
    line.iter().all(|byte| *byte == b' ' || *byte == b'\t')
}

/// Returns what stands before the first space and what stands after it: all and nothing if there is no space.
pub(crate) fn split_at_space(line: &[u8]) -> (&[u8], &[u8])
    ensures before { result.0.now ≡ before_first is_space line.now }
    ensures after { result.1.now ≡ after_first is_space line.now }
{
    match first_space(line) {
        Some(at) => (&line[..at], &line[at + 1..]),
        None => (line, &[]),
    }
}

/// Returns what stands before the first space and what stands after it, if there is a space.
pub(crate) fn cut_at_space(line: &[u8]) -> Option<(&[u8], &[u8])>
    ensures { MatchOption result (slice_split is_space line.now ≡ line.now ∷ [])
        (λ parts. slice_split is_space line.now ≡ parts.0.now ∷ slice_split is_space parts.1.now) }
{
    match first_space(line) {
        Some(at) => Some((&line[..at], &line[at + 1..])),
        None => None,
    }
}

fn first_space(line: &[u8]) -> Option<usize>
    ensures { result ≡ position is_space line.now }
{
    line.iter().position(|byte| *byte == b' ')
}
