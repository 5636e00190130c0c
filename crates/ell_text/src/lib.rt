//! Texts in and out: the bytes of a reader, the start keys and the operations of a bulk text and the text that answers
//! them, the script of a replay text and the trace of its replay.
//!
//! A line of a bulk text is the name of an operation, `find`, `insert` or `delete`, one space, and a key in decimal
//! digits. Before all operations, lines `start K` may stand, which say the keys that are there before. If the first
//! line is `version 2`, an insert and a start line have one more space, and a value. A replay text has the line
//! `workers N`, the line `cards N`, lines `own W K`, and a line for each event, such as `0 begin find 5` and
//! `0 mark 3`. Empty lines, lines of spaces and tabs, and lines whose first byte is `#` are skipped.
//! `docs/REFERENCE.md` has these texts in full.
#![tactic(auto)]

mod answer;
mod bulk;
mod bytes;
mod halving;
mod input;
mod limits;
mod line;
mod lines;
mod listing;
mod number;
mod output;
mod plain;
mod replay;
mod replay_line;
mod trace;
mod version;

pub use answer::write_answer;
pub use bulk::{Bulk, TextFault, read_bulk};
pub use bytes::{ScriptFault, replay_bytes};
pub use input::{InputFault, read_all};
pub use limits::{INPUT_MAX, LINES_MAX, OPERATIONS_MAX};
pub use output::WriteFault;
pub use replay::{ReplayFault, Script, read_replay};
pub use trace::write_trace;
