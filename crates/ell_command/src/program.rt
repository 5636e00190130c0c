//! The whole program, over the words of its command line, a reader and two writers.
ghost use Rattle.std.specs.Prelude.{◌≡◌, IsTrue, IfErr, Err, map};
ghost use Rattle.std.specs.Io.KnownBytes.{Keeps};
ghost use Rattle.clap.specs.Words.{kind_of};
ghost use Rattle.ell_command.specs.CommandLine.{AreTaken, AreTakenToReplay, AreTakenToRun, AsksForReport, is_mistake};
ghost use Rattle.ell_command.specs.Program.{AnswersReplay, AnswersRun, GoesByWords, IsBeforeOutput, IsSilent, IsStatus};
ghost use Rattle.ell_command.specs.Program.{ReplayEndsBy, ReplayFailureTells, RunEndsBy, RunFailureTells, Succeeded};
ghost use Rattle.ell_command.specs.Program.{status_after, status_of};

use crate::request::{Request, request_of};
use clap::error::ErrorKind;
use ell_run::{NoGate, RunFault, StepGate, run_bytes};
use ell_text::{ScriptFault, replay_bytes};
use std::alloc::Global;
use std::convert::AsStr;
use std::error::Error;
use std::fmt;
use std::io::{self, Cursor, Read, Write};
use std::thread::Threads;

// Success, or help or the version was asked for.
const SUCCEEDED: u8 = 0;

// A fault in the text, an input that is too long, or arguments that are refused.
const REFUSED: u8 = 2;

const OUT_OF_MEMORY: u8 = 3;

// Reading or writing failed.
const TRANSFER_FAILED: u8 = 4;

/// The exit status if the arguments could not be taken.
pub const ARGUMENTS_NOT_TAKEN: u8 = OUT_OF_MEMORY;

// The greatest number of bytes of a text that go to standard error together.
const TEXT_MAX: usize = 1024;

/// Why the program ends with another status than 0.
#[derive(Debug, Drop)]
pub enum Failure {
    /// The words are refused, with the parser's text.
    Refused(clap::Error),
    /// The arguments could not be parsed because an allocation failed.
    NoMemory,
    /// A run ended early.
    Run(RunFault),
    /// A replay ended early.
    Replay(ScriptFault),
    /// `out` did not take the help or the version, or could not be flushed.
    Write,
}

// What standard error gets.
impl fmt::Display for Failure {
    fn fmt<W: fmt::Write>(&self, f: &mut fmt::Formatter<W>) -> fmt::Result {
        match self {
            Failure::Refused(error) => write!(f, "{error}"),
            Failure::NoMemory => writeln!(f, "elltree: out of memory"),
            Failure::Run(fault) => writeln!(f, "elltree: {fault}"),
            Failure::Replay(fault) => writeln!(f, "elltree: {fault}"),
            Failure::Write => writeln!(f, "elltree: write failed"),
        }
    }
}

impl Error for Failure {}

impl Failure {
    /// Returns the exit status that tells of the failure.
    pub fn status(&self) -> u8
        // Returns the exit status of the failure: 2 for words or a text that are refused, 3 for a failed allocation, 4
        // for a failed read or write.
        ensures { result ≡ status_of self.now }
    {
        match self {
            Failure::Refused(_) => REFUSED,
            Failure::NoMemory => OUT_OF_MEMORY,
            Failure::Run(RunFault::TooLong | RunFault::Text(_)) => REFUSED,
            Failure::Run(RunFault::NoMemory) => OUT_OF_MEMORY,
            Failure::Run(RunFault::Read | RunFault::Write { .. }) => TRANSFER_FAILED,
            Failure::Replay(ScriptFault::TooLong | ScriptFault::Text(_) | ScriptFault::Start(_)) =>
                REFUSED,
            Failure::Replay(ScriptFault::NoMemory) => OUT_OF_MEMORY,
            Failure::Replay(ScriptFault::Read | ScriptFault::Write { .. }) => TRANSFER_FAILED,
            Failure::Write => TRANSFER_FAILED,
        }
    }
}

/// The whole program over a reader and two writers. Returns its exit status, which `run --help` explains. Answers,
/// traces, help and the version go to `out`, which is flushed last. The text of a failure goes to `err`, and so does
/// the report of a run that succeeded, before that flush, if the words ask for it: the line `late N`. If `err` fails,
/// the status is the same.
pub fn elltree<R: Threads + Sync, S: AsStr, I: Read, O: Write, E: Write>(
    rt: &R,
    alloc: Global,
    words: &[S],
    input: &mut I,
    out: &mut O,
    err: &mut E,
) -> u8
    // The exit status is 0, 2, 3 or 4. After 2 or 3 nothing is written to `out`.
    ensures status { IsStatus result }
    ensures silent { IsSilent result → Keeps (O.contents out.old) (O.contents out.new) }

    // After 0 `err` is as it was, unless the words ask `run` for a report.
    ensures quiet { Succeeded result → ¬ AsksForReport (map S.text words.now) → err.new ≡ err.old }

    // Words that are taken name `run` or `replay`. Words that are refused end with 2 or 3; words that ask for help or
    // the version never end with 2.
    ensures words { GoesByWords (map S.text words.now) result }
    // After 0 a `run` has appended the answer of one thread, and nothing else.
    ensures run { AnswersRun (map S.text words.now) result
        (I.remaining input.old) (O.contents out.old) (O.contents out.new) }

    // After 0 a `replay` has appended the trace of the script, and nothing to `err`.
    ensures replay { AnswersReplay (map S.text words.now) result
        (I.remaining input.old) (O.contents out.old) (O.contents out.new) }
    ensures unreported { AreTakenToReplay (map S.text words.now) → Succeeded result → err.new ≡ err.old }

    // Any other status of a `run` or a `replay` is that of a failure that tells the truth of the bytes read and
    // written: 2 only if the text or an entry of the script is refused; after a failed write a prefix of the answer or
    // the trace is written.
    ensures failed { AreTakenToRun (map S.text words.now) → ¬ Succeeded result
        → RunEndsBy result (I.remaining input.old) (O.contents out.old) (O.contents out.new) }
    ensures replay_failed { AreTakenToReplay (map S.text words.now) → ¬ Succeeded result
        → ReplayEndsBy result (I.remaining input.old) (O.contents out.old) (O.contents out.new) }

    // If the words are not taken, the input is not read.
    ensures unread { ¬ AreTaken (map S.text words.now) → input.new ≡ input.old }
{
    match carry_out(rt, alloc, words, input, out, err, &NoGate) {
        Ok(()) => SUCCEEDED,
        Err(failure) => {
            let _ = tell(&failure, err);
            failure.status()
        }
    }
}

/// Does what the words ask for, writes the report to `err`, and flushes `out` last. The gate sees each call of a run's
/// tree, under the number of its worker. The text of a failure is left to the caller.
pub fn carry_out<R: Threads + Sync, S: AsStr, I: Read, O: Write, E: Write, G: StepGate + Sync>(
    rt: &R,
    alloc: Global,
    words: &[S],
    input: &mut I,
    out: &mut O,
    err: &mut E,
    gate: &G,
) -> Result<(), Failure>
    // A failure before the output leaves `out` as it was.
    ensures silent { IfErr result (λ failure.
        IsBeforeOutput failure → Keeps (O.contents out.old) (O.contents out.new)) }
    // Words that are taken name `run` or `replay`. Words that are refused end with 2 or 3; words that ask for help or
    // the version never end with 2.
    ensures words { GoesByWords (map S.text words.now) (status_after result) }
    // If it succeeds, a `run` has appended the answer of one thread, and nothing else.
    ensures run { AnswersRun (map S.text words.now) (status_after result)
        (I.remaining input.old) (O.contents out.old) (O.contents out.new) }
    // If it succeeds, a `replay` has appended the trace of the script. Nothing is written to `err`, however it ends.
    ensures replay { AnswersReplay (map S.text words.now) (status_after result)
        (I.remaining input.old) (O.contents out.old) (O.contents out.new) }
    ensures unreported { AreTakenToReplay (map S.text words.now) → err.new ≡ err.old }
    // A failure tells the truth of the bytes read and written.
    ensures failed { AreTakenToRun (map S.text words.now) → IfErr result (λ failure.
        RunFailureTells failure (I.remaining input.old) (O.contents out.old) (O.contents out.new)) }
    ensures replay_failed { AreTakenToReplay (map S.text words.now) → IfErr result (λ failure.
        ReplayFailureTells failure (I.remaining input.old) (O.contents out.old) (O.contents out.new)) }
    // If the words are not taken, the input is not read.
    ensures unread { ¬ AreTaken (map S.text words.now) → input.new ≡ input.old }
    // `err` is as it was, unless the words ask `run` for a report.
    ensures quiet { ¬ AsksForReport (map S.text words.now) → err.new ≡ err.old }
{
    match request_of(alloc, words) {
        Ok(Request::Run { settings, report }) => {
            let told = run_bytes(rt, alloc, input, out, settings, gate).map_err(Failure::Run)?;
            if report {
                let _ = tell(&format_args!("late {}\n", told.late), err);
            }
        }
        Ok(Request::Replay) => replay_bytes(alloc, input, out).map_err(Failure::Replay)?,
        Err(error) => show_help(error, out)?,
    }
    out.flush().map_err(|_| Failure::Write)
}

// Writes a text that should go out in one write, as a fault's line should. It does if it has at most `TEXT_MAX` bytes
// and the writer takes them all at once.
fn tell<D: fmt::Display, E: Write>(text: &D, err: &mut E) -> io::Result<()> {
    let mut whole = Cursor::new([0; TEXT_MAX]);
    let written = write!(whole, "{text}");
    let count = whole.position() as usize;
    match (written, whole.get_ref().get(..count)) {
        (Ok(()), Some(bytes)) => err.write_all(bytes),
        _ => write!(err, "{text}"),
    }
}

// Writes the help or the version that the words asked for; any other error is a failure.
fn show_help<O: Write>(error: clap::Error, out: &mut O) -> Result<(), Failure>
    ensures help { kind_of error ≡ ErrorKind.DisplayHelp
        → IfErr result (λ failure. failure ≡ Failure.Write) }
    ensures version { kind_of error ≡ ErrorKind.DisplayVersion
        → IfErr result (λ failure. failure ≡ Failure.Write) }
    ensures memory { kind_of error ≡ ErrorKind.OutOfMemory
        → (result ≡ Err Failure.NoMemory) × (out.new ≡ out.old) }
    ensures mistake { IsTrue (is_mistake (kind_of error))
        → (result ≡ Err (Failure.Refused error)) × (out.new ≡ out.old) }
    ensures silent { IfErr result (λ failure.
        IsBeforeOutput failure → Keeps (O.contents out.old) (O.contents out.new)) }
{
    match error.kind() {
        ErrorKind::DisplayHelp | ErrorKind::DisplayVersion => {
            write!(out, "{error}").map_err(|_| Failure::Write)
        }
        ErrorKind::OutOfMemory => Err(Failure::NoMemory),
        _ => Err(Failure::Refused(error)),
    }
}
