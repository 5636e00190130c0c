//! The script of a replay text.
ghost use Rattle.std.specs.Prelude.{◌≡◌, ◌≢◌, ◌<◌, ◌≤◌, None, Some, IfErr, IfOk, IsTrue, OnErr, OnOk};
ghost use Rattle.ell_text.specs.replays.Draft.{DraftFits, ScriptFits, count_in_draft, draft_value, finished, next_fault, next_line, no_draft, place_in_draft, with_line, with_said};
ghost use Rattle.ell_text.specs.Limits.{most_lines};
ghost use Rattle.ell_text.specs.Lines.{lines};
ghost use Rattle.ell_text.specs.replays.ReplayLine.{SaidFits};
ghost use Rattle.ell_text.specs.replays.Script.{HasSoundEntry, is_kept, replay_located, script, script_value};

use crate::limits::LINES_MAX;
use crate::lines::lines;
use crate::replay_line::{Place, ReplayLineFault, Said, read_replay_line};
use ell_core::Event;
use std::alloc::{Allocator, Global};
use thiserror::Error;

/// A replay: how many workers and cards there are, which worker owns which key, and the events in their order.
#[derive(Debug, Drop)]
pub struct Script<A: Allocator = Global> {
    pub workers: u32,
    pub cards: u64,
    pub owned: Vec<(u32, u64), A>,
    pub events: Vec<Event, A>,
}

/// Why a replay text was not read. Lines are counted from 1, including the skipped ones. If a line has several faults,
/// the first in this list counts.
#[derive(Debug, Clone, Copy, PartialEq, Eq, Error)]
pub enum ReplayFault {
    /// The line has none of the forms that may stand at its place.
    #[error("line {line}: not a replay line")]
    BadLine { line: usize },
    /// A number of the line is misspelled, or a number that is not a key is out of its range.
    #[error("line {line}: not a number in range")]
    BadNumber { line: usize },
    /// The line's key is above `KEY_MAX`.
    #[error("line {line}: key too large")]
    KeyTooLarge { line: usize },
    /// The line comes after `LINES_MAX` own lines and events.
    #[error("line {line}: more than {max} lines", max = LINES_MAX)]
    TooManyLines { line: usize },
    /// No line is bad, and the text ends before its line `cards N`.
    #[error("replay ends too early")]
    Ended,
    /// An allocation failed.
    #[error("out of memory")]
    NoMemory,
}

/// Reads the script of a replay text. A fault is that of the first line that has one. `NoMemory` is returned only at an
/// own line or an event, if no line so far has a fault.
pub fn read_replay<A: Allocator + Copy>(alloc: A, bytes: &[u8]) -> Result<Script<A>, ReplayFault>
    // The script is what the text says.
    ensures ok { IfOk result (λ s. script bytes.now ≡ Ok (script_value s)) }
    // A fault is the first one of the text, with the number of its line.
    ensures fault { IfErr result (λ fault. fault ≢ ReplayFault.NoMemory → script bytes.now ≡ Err fault) }
    // `NoMemory` is returned only if the text has a line without a fault up to it that is not skipped.
    ensures no_memory { IfErr result (λ fault. fault ≡ ReplayFault.NoMemory → HasSoundEntry (lines bytes.now)) }
    // The numbers of workers, cards, owners and keys are in their ranges.
    ensures fits { IfOk result (λ s. ScriptFits (script_value s)) }
{
    let mut draft = Draft::new(alloc);
    for (index, line) in lines(bytes).enumerate() {
        draft.append_line(line, index + 1)?;
    }
    draft.finish()
}

// The script of the lines so far.
#[derive(Drop)]
struct Draft<A: Allocator> {
    workers: Option<u32>,
    cards: Option<u64>,
    owned: Vec<(u32, u64), A>,
    events: Vec<Event, A>,
}

impl<A: Allocator + Copy> Draft<A> {
    fn new(alloc: A) -> Draft<A>
        ensures value { draft_value result ≡ no_draft }
        ensures fits { DraftFits (draft_value result) }
    {
        Draft {
            workers: None,
            cards: None,
            owned: Vec::new(alloc),
            events: Vec::new(alloc),
        }
    }

    // The place of the next line.
    fn place(&self) -> Place
        ensures { result ≡ place_in_draft (draft_value self.now) }
    {
        if self.workers.is_none() {
            Place::Workers
        } else if self.cards.is_none() {
            Place::Cards
        } else if self.events.is_empty() {
            Place::Owns
        } else {
            Place::Events
        }
    }

    // Appends what the line of this number says, if it says something.
    fn append_line(&mut self, line: &[u8], number: usize) -> Result<(), ReplayFault>
        requires fits { DraftFits (draft_value self.old) }
        ensures ok { OnOk result (draft_value self.new
            ≡ with_line (draft_value self.old) (next_line (draft_value self.old) line.now)) }
        ensures sound { OnOk result (next_fault number (draft_value self.old) line.now ≡ None) }
        ensures fault { IfErr result (λ fault. fault ≢ ReplayFault.NoMemory
            → next_fault number (draft_value self.old) line.now ≡ Some fault) }
        ensures no_memory { IfErr result (λ fault. fault ≡ ReplayFault.NoMemory
            → IsTrue (is_kept (next_line (draft_value self.old) line.now))) }
        ensures no_memory_sound { IfErr result (λ fault. fault ≡ ReplayFault.NoMemory
            → next_fault number (draft_value self.old) line.now ≡ None) }
        ensures fits { DraftFits (draft_value self.new) }
    {
        match read_replay_line(self.place(), line) {
            Ok(Some(said)) => self.append(said, number),
            Ok(None) => Ok(()),
            Err(fault) => Err(located(fault, number)),
        }
    }

    // Appends what the line of this number says.
    fn append(&mut self, said: Said, number: usize) -> Result<(), ReplayFault>
        requires fits { DraftFits (draft_value self.old) }
        requires said_fits { SaidFits said }
        ensures ok { OnOk result (draft_value self.new ≡ with_said (draft_value self.old) said) }
        ensures sound { OnOk result (count_in_draft (draft_value self.old) < most_lines) }
        ensures fault { IfErr result (λ fault. fault ≢ ReplayFault.NoMemory
            → (fault ≡ ReplayFault.TooManyLines number) × (most_lines ≤ count_in_draft (draft_value self.old))) }
        ensures no_memory { IfErr result (λ fault. fault ≡ ReplayFault.NoMemory
            → IsTrue (is_kept (Ok (Some said)))) }
        ensures no_memory_sound { IfErr result (λ fault. fault ≡ ReplayFault.NoMemory
            → count_in_draft (draft_value self.old) < most_lines) }
        ensures fits { DraftFits (draft_value self.new) }
    {
        if self.owned.len() + self.events.len() >= LINES_MAX {
            return Err(ReplayFault::TooManyLines { line: number });
        }
        match said {
            Said::Workers(count) => {
                self.workers = Some(count);
                Ok(())
            }
            Said::Cards(count) => {
                self.cards = Some(count);
                Ok(())
            }
            Said::Own(worker, key) => {
                self.owned
                    .push((worker, key))
                    .map_err(|_| ReplayFault::NoMemory)
            }
            Said::Event(event) => self.events.push(event).map_err(|_| ReplayFault::NoMemory),
        }
    }

    // The script, if the text had both of its heads.
    fn finish(self) -> Result<Script<A>, ReplayFault>
        requires fits { DraftFits (draft_value self) }
        ensures value { IfOk result (λ s. finished (draft_value self) ≡ Some (script_value s)) }
        ensures fault { IfErr result (λ fault. fault ≡ ReplayFault.Ended) }
        ensures ended { OnErr result (finished (draft_value self) ≡ None) }
        ensures fits { IfOk result (λ s. ScriptFits (script_value s)) }
    {
        let (Some(workers), Some(cards)) = (self.workers, self.cards) else {
            return Err(ReplayFault::Ended);
        };
        Ok(Script {
            workers,
            cards,
            owned: self.owned,
            events: self.events,
        })
    }
}

// The fault of a line, with the line's number.
fn located(fault: ReplayLineFault, line: usize) -> ReplayFault
    ensures { result ≡ replay_located line fault }
{
    match fault {
        ReplayLineFault::BadLine => ReplayFault::BadLine { line },
        ReplayLineFault::BadNumber => ReplayFault::BadNumber { line },
        ReplayLineFault::KeyTooLarge => ReplayFault::KeyTooLarge { line },
    }
}
