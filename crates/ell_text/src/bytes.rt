//! A replay text, run from bytes to bytes.
ghost use Rattle.std.specs.Prelude.{◌≡◌, IfErr, OnOk};
ghost use Rattle.std.specs.Io.KnownBytes.{IsAtEnd};
ghost use Rattle.ell_text.specs.Input.{GivesFront};
ghost use Rattle.ell_text.specs.replays.Replayed.{IsReplayed, ScriptFaultTells};
ghost use Rattle.ell_text.specs.replays.ScriptFault.{of_input, of_start, of_text, of_write};
ghost use Rattle.ell_text.specs.declared.bytes.ScriptFault.TheVariants.{NoMemory as no_memory};

use crate::input::{InputFault, read_all};
use crate::limits::INPUT_MAX;
use crate::output::WriteFault;
use crate::replay::{ReplayFault, read_replay};
use crate::trace::write_trace;
use ell_core::CoreFault;
use ell_ops::NoMemory;
use ell_world::{World, replay};
use std::alloc::Allocator;
use std::io::{Read, Write};
use thiserror::Error;

/// Why a replay of a text ended early. Before each of these except `Write`, nothing was written.
#[derive(Debug, Clone, Copy, PartialEq, Eq, Error)]
pub enum ScriptFault {
    /// The reader returned an error.
    #[error("read failed")]
    Read,
    /// The input is longer than `INPUT_MAX` bytes.
    #[error("input over {max} bytes", max = INPUT_MAX)]
    TooLong,
    /// The text is at fault.
    #[error("{0}")]
    Text(ReplayFault),
    /// An entry of the script names a worker that does not exist, or a key that an earlier entry names.
    #[error("{}", start_text(.0))]
    Start(CoreFault),
    /// An allocation failed.
    #[error("out of memory")]
    NoMemory,
    /// The writer failed, or took no byte, after it had taken this many.
    #[error("write failed after {written} bytes")]
    Write { written: u64 },
}

// The text of an opening's fault; those that no opening has share one text.
fn start_text(fault: &CoreFault) -> &'static str {
    match fault {
        CoreFault::NoSuchWorker => "no such worker",
        CoreFault::OwnedTwice => "key owned twice",
        _ => "opening refused",
    }
}

impl From<InputFault> for ScriptFault {
    ghost from_gives = { λ fault e. e ≡ of_input fault };

    fn from(fault: InputFault) -> ScriptFault {
        match fault {
            InputFault::Read => ScriptFault::Read,
            InputFault::TooLong => ScriptFault::TooLong,
            InputFault::NoMemory => ScriptFault::NoMemory,
        }
    }
}

impl From<ReplayFault> for ScriptFault {
    ghost from_gives = { λ fault e. e ≡ of_text fault };

    fn from(fault: ReplayFault) -> ScriptFault {
        match fault {
            ReplayFault::NoMemory => ScriptFault::NoMemory,
            fault => ScriptFault::Text(fault),
        }
    }
}

impl From<CoreFault> for ScriptFault {
    ghost from_gives = { λ fault e. e ≡ of_start fault };

    fn from(fault: CoreFault) -> ScriptFault {
        match fault {
            CoreFault::NoMemory => ScriptFault::NoMemory,
            fault => ScriptFault::Start(fault),
        }
    }
}

impl From<NoMemory> for ScriptFault {
    ghost from_gives = { λ _ e. e ≡ no_memory };

    fn from(_: NoMemory) -> ScriptFault {
        ScriptFault::NoMemory
    }
}

impl From<WriteFault> for ScriptFault {
    ghost from_gives = { λ fault e. e ≡ of_write fault };

    fn from(fault: WriteFault) -> ScriptFault {
        ScriptFault::Write {
            written: fault.written,
        }
    }
}

/// Replays a script: reads all of the text, tries the script's events in turn from its opening state, and writes the
/// trace, with the keys that the tree has in the end. Nothing is written before the replay has ended. The reader is then at its end;
/// after an error it has given some of its bytes, from the first on.
pub fn replay_bytes<A: Allocator + Copy, I: Read, O: Write>(
    alloc: A,
    reader: &mut I,
    writer: &mut O,
) -> Result<(), ScriptFault>
    // If it succeeds, the trace of the script's replay, with the last keys, is appended, and nothing else.
    ensures ok { OnOk result (IsReplayed (I.remaining reader.old) (O.contents writer.old) (O.contents writer.new)) }
    // `Text` tells the script's first fault, `TooLong` is returned only for more than 16,777,216 bytes, and `Start`
    // tells an entry that refuses the opening. Only a `Write` fault has written anything: its first `written` bytes of
    // the trace.
    ensures fault { IfErr result (λ fault.
        ScriptFaultTells fault (I.remaining reader.old) (O.contents writer.old) (O.contents writer.new)) }
    // If it succeeds, the reader is at its end. In any case it has given a prefix of its bytes.
    ensures end { OnOk result (IsAtEnd (I.remaining reader.new)) }
    ensures given { GivesFront (I.remaining reader.old) (I.remaining reader.new) }
{
    let bytes = read_all(alloc, reader)?;
    let script = read_replay(alloc, &bytes)?;
    let mut world = World::new(alloc, script.workers, &script.owned, script.cards)?;
    let shown = replay(alloc, &mut world, &script.events)?;
    let keys = world.keys()?;
    write_trace(writer, &shown, &keys)?;
    Ok(())
}
