//! The program `elltree`: its command over the process's arguments and its standard streams.
#![tactic(auto)]

use ell_command::{ARGUMENTS_NOT_TAKEN, elltree};
use std::process::ExitCode;
use std::rt::Env;
use std::{env, io};

/// Runs the program on the words after its name, over the three standard streams.
fn main(rt: HostRuntime) -> ExitCode {
    let Ok(words) = words_of(&rt) else {
        let _ = eprintln!(rt; "elltree: arguments not read");
        return ExitCode::from(ARGUMENTS_NOT_TAKEN);
    };
    let status = elltree(
        &rt,
        rt.alloc(),
        words.as_slice(),
        &mut rt.stdin(),
        &mut rt.stdout(),
        &mut rt.stderr(),
    );
    ExitCode::from(status)
}

// The arguments without the program's name.
fn words_of<R: Env + AllocGlobal>(rt: &R) -> io::Result<Vec<String>> {
    let mut words = env::args(rt)?;
    let _ = words.next();
    Ok(words.collect(rt.alloc())?)
}
