//! What each code says, for a reader. The texts stand only here: the header and the bindings ask for them.
ghost use Rattle.std.specs.Prelude.{◌≡◌, ◌<◌, length};
ghost use Rattle.elltree.specs.Texts.{WritesText, text_of};

use crate::codes::{
    BAD_CARDS, BAD_KEY, BAD_START, BUSY, CLOSED, FORKED, IN_CALL, NO, NO_MEMORY, NO_ROOM, NO_TRIES,
    NULL, OPEN, OTHER_VALUE, SAME, SPENT, TOO_MANY_HANDLES, YES,
};

/// Writes what a code says to the front of an array, with a 0 after it, and returns how many bytes the whole text has,
/// without the 0. Like `snprintf`, it truncates the text if the array has no room for all of it, and still writes the
/// 0; an array without room stays as it was. A text is pure ASCII, and 64 bytes are enough for each. A number that is
/// not a code has a text too, which says so.
#[unsafe(no_mangle)]
pub extern "C" fn elltree_code_text(code: i32, out: &mut [u8]) -> usize
    // Returns the length of the code's text, below 64.
    ensures length { result ≡ length (text_of code) }
    ensures short { result < 64 }
    // The text is written, cut off to the room before a 0. The rest of the array is unchanged.
    ensures text { WritesText (text_of code) out.old out.new }
{
    let text = text_of(code);
    write_text(text, out);
    text.len()
}

// Writes a text to the front of an array, as much of it as there is room for, and a 0 after it.
fn write_text(text: &[u8], out: &mut [u8])
    ensures { WritesText text.now out.old out.new }
{
    if let Some(room) = out.len().checked_sub(1) {
        let fits = text.len().min(room);
        out[..fits].copy_from_slice(&text[..fits]);
        out[fits] = 0;
    }
}

// The text of a code.
fn text_of(code: i32) -> &'static [u8]
    ensures text { result.now ≡ text_of code }
    ensures short { length result.now < 64 }
{
    match code {
        NO => b"no",
        YES => b"yes",
        OTHER_VALUE => b"the key has another value",
        BUSY => b"something was in the way of each try",
        SPENT => b"no card is free for the change",
        NO_TRIES => b"the call allows no try",
        BAD_CARDS => b"cards are not 1 to 1,000,000",
        BAD_KEY => b"a key is above 18446744073709551613",
        BAD_START => b"start keys do not ascend strictly, or are more than 1,000,000",
        NO_ROOM => b"no room for all pairs",
        NO_MEMORY => b"out of memory",
        CLOSED => b"the handle holds nothing",
        OPEN => b"the handle holds something already",
        NULL => b"a pointer is null",
        SAME => b"the same handle is given twice",
        IN_CALL => b"the handle is in another call",
        TOO_MANY_HANDLES => b"the handle can make no more handles",
        FORKED => b"the map is of another process, of which this is a forked child",
        _ => b"no code of elltree",
    }
}
