//! A bulk text, run from bytes to bytes.
ghost use Rattle.std.specs.Prelude.{◌≡◌, IfErr, IfOk, OnOk};
ghost use Rattle.std.specs.Io.KnownBytes.{IsAtEnd};
ghost use Rattle.ell_text.specs.Input.{GivesFront};
ghost use Rattle.ell_run.specs.Answered.{FaultTells, IsAnswered, IsReported};
ghost use Rattle.ell_run.specs.RunFault.{of_input, of_text, of_write};
ghost use Rattle.ell_run.specs.Settings.{AreSettings};
ghost use Rattle.ell_run.specs.declared.bytes.RunFault.TheVariants.{NoMemory as no_memory};

use crate::asked::run_as_asked;
use crate::settings::{Report, Settings};
use ell_ops::NoMemory;
use ell_text::{INPUT_MAX, InputFault, TextFault, WriteFault, read_all, read_bulk, write_answer};
use ell_tree::StepGate;
use std::alloc::Allocator;
use std::io::{Read, Write};
use std::thread::Threads;
use thiserror::Error;

/// Why a run ended early. Nothing was written before any of these except `Write`.
#[derive(Debug, Clone, Copy, PartialEq, Eq, Error)]
pub enum RunFault {
    /// The reader returned an error.
    #[error("read failed")]
    Read,
    /// The input is longer than `INPUT_MAX` bytes.
    #[error("input over {max} bytes", max = INPUT_MAX)]
    TooLong,
    /// The text is at fault.
    #[error("{0}")]
    Text(TextFault),
    /// An allocation failed.
    #[error("out of memory")]
    NoMemory,
    /// The writer failed, or took no bytes, after it had taken this many.
    #[error("write failed after {written} bytes")]
    Write { written: u64 },
}

impl From<InputFault> for RunFault {
    ghost from_gives = { λ fault e. e ≡ of_input fault };

    fn from(fault: InputFault) -> RunFault {
        match fault {
            InputFault::Read => RunFault::Read,
            InputFault::TooLong => RunFault::TooLong,
            InputFault::NoMemory => RunFault::NoMemory,
        }
    }
}

impl From<TextFault> for RunFault {
    ghost from_gives = { λ fault e. e ≡ of_text fault };

    fn from(fault: TextFault) -> RunFault {
        match fault {
            TextFault::NoMemory => RunFault::NoMemory,
            fault => RunFault::Text(fault),
        }
    }
}

impl From<NoMemory> for RunFault {
    ghost from_gives = { λ _ e. e ≡ no_memory };

    fn from(_: NoMemory) -> RunFault {
        RunFault::NoMemory
    }
}

impl From<WriteFault> for RunFault {
    ghost from_gives = { λ fault e. e ≡ of_write fault };

    fn from(fault: WriteFault) -> RunFault {
        RunFault::Write {
            written: fault.written,
        }
    }
}

/// Runs a bulk text: reads all of it, runs its operations from the map of its start keys as the settings say, and
/// writes the answer, as the text's version has it. Of 1,000 operations or more each worker runs its own in rounds of
/// ascending keys (`ell_order`), since a tree that keys enter in ascending order would become a list; replies are
/// written in the order of the text. Nothing is written before the run has ended. The reader is then at its end; after
/// an error it has given some of its bytes, from the first on. The gate sees each call of the tree, under the number of
/// its worker; `NoGate` sees none.
pub fn run_bytes<
    R: Threads + Sync,
    A: Allocator + Copy + Send + Sync,
    I: Read,
    O: Write,
    G: StepGate + Sync,
>(
    rt: &R,
    alloc: A,
    reader: &mut I,
    writer: &mut O,
    settings: Settings,
    gate: &G,
) -> Result<Report, RunFault>
    requires { AreSettings settings }
    // If it succeeds, the answer of one thread to the text is appended, and nothing else.
    ensures ok { OnOk result (IsAnswered (I.remaining reader.old) (O.contents writer.old) (O.contents writer.new)) }
    // `late` is how many operations no piece answers, for some pieces that workers could have left in a run that follows
    // the settings.
    ensures late { IfOk result (λ report. IsReported settings (I.remaining reader.old) report.late) }
    // `Text` tells the text's first fault, and `TooLong` is returned only for more than 16,777,216 bytes. Only a
    // `Write` fault has written anything: its first `written` bytes of the answer.
    ensures fault { IfErr result (λ fault.
        FaultTells fault (I.remaining reader.old) (O.contents writer.old) (O.contents writer.new)) }
    // If it succeeds, the reader is at its end. In any case it has given a prefix of its bytes.
    ensures end { OnOk result (IsAtEnd (I.remaining reader.new)) }
    ensures given { GivesFront (I.remaining reader.old) (I.remaining reader.new) }
{
    let bytes = read_all(alloc, reader)?;
    let bulk = read_bulk(rt, alloc, &bytes)?;
    drop(bytes);
    let outcome = run_as_asked(rt, alloc, &bulk.start, &bulk.ops, settings, gate)?;
    write_answer(writer, bulk.version, &outcome.replies, &outcome.pairs)?;
    Ok(Report { late: outcome.late })
}
