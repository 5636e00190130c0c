//! What the exported functions return.
ghost use Rattle.std.specs.Prelude.{◌≡◌, ◌≢◌};
ghost use Rattle.elltree.specs.Codes.{code_of, code_of_expected, code_of_value, code_of_whether, said_closed, said_no, said_open, said_yes};
ghost use Rattle.elltree.specs.Told.{value_of};

use crate::refusal::Refusal;

pub const NO: i32 = 0;

pub const YES: i32 = 1;

pub const OTHER_VALUE: i32 = 2;

pub const BUSY: i32 = -1;

pub const SPENT: i32 = -2;

pub const NO_TRIES: i32 = -4;

pub const BAD_CARDS: i32 = -5;

pub const BAD_KEY: i32 = -6;

pub const BAD_START: i32 = -7;

// What calls on a map return. No exported function returns it.
pub const NO_ROOM: i32 = -8;

pub const NO_MEMORY: i32 = -9;

pub const CLOSED: i32 = -10;

pub const OPEN: i32 = -11;

// What the header and the bindings return before a call. No exported function returns one of these three.
pub const NULL: i32 = -13;

pub const SAME: i32 = -14;

pub const IN_CALL: i32 = -15;

pub const TOO_MANY_HANDLES: i32 = -16;

// What calls on a map return in a forked child. No exported function returns it.
pub const FORKED: i32 = -18;

/// The code of a refusal.
pub(crate) fn code_of_refusal(refusal: Refusal) -> i32
    // Returns the code of the refusal, which is neither yes nor no, nor `CLOSED` or `OPEN`.
    ensures code { result ≡ code_of refusal }
    ensures yes { result ≢ said_yes }
    ensures no { result ≢ said_no }
    ensures closed { result ≢ said_closed }
    ensures opened { result ≢ said_open }
{
    match refusal {
        Refusal::NoTries => NO_TRIES,
        Refusal::BadKey => BAD_KEY,
        Refusal::Busy => BUSY,
        Refusal::Spent => SPENT,
        Refusal::BadCards => BAD_CARDS,
        Refusal::BadStart => BAD_START,
        Refusal::TooManyHandles => TOO_MANY_HANDLES,
        Refusal::NoMemory => NO_MEMORY,
    }
}

/// The code of whether a key was added, or removed.
pub(crate) fn tell(said: Result<bool, Refusal>) -> i32
    ensures code { result ≡ code_of_whether said }
    ensures closed { result ≢ said_closed }
{
    match said {
        Ok(true) => YES,
        Ok(false) => NO,
        Err(refusal) => code_of_refusal(refusal),
    }
}

/// The code of the value that a key had, which is written if there was one.
pub(crate) fn tell_value(said: Result<Option<u64>, Refusal>, value: &mut u64) -> i32
    ensures code { result ≡ code_of_value said }
    ensures value { value.new ≡ value_of said value.old }
    ensures closed { result ≢ said_closed }
{
    match said {
        Ok(Some(there)) => {
            *value = there;
            YES
        }
        Ok(None) => NO,
        Err(refusal) => code_of_refusal(refusal),
    }
}

/// The code of the value that a key had where `current` was expected. It is written if there was one.
pub(crate) fn tell_expected(
    said: Result<Option<u64>, Refusal>,
    current: u64,
    found: &mut u64,
) -> i32
    ensures code { result ≡ code_of_expected current said }
    ensures value { found.new ≡ value_of said found.old }
    ensures closed { result ≢ said_closed }
{
    match said {
        Ok(Some(there)) if there != current => {
            *found = there;
            OTHER_VALUE
        }
        said => tell_value(said, found),
    }
}
