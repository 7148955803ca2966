//! `ftq SESSION` answers the commands of a session's file.
#![tactic(auto)]

use ft_base::Memory;
use ft_io::{FileShelf, StdSink};
use ft_session::{Status, exit_of, line_of, run};
use plan_runs::Direct;
use std::alloc::Global;
use std::env;
use std::io::ErrorKind;
use std::process::ExitCode;

/// The arguments after the program's name. Where one of them isn't UTF-8, they are one empty word, which names no file.
fn words(rt: &HostRuntime, alloc: Global) -> Result<Vec<String>, Memory> {
    let mut words = Vec::new(alloc);
    match env::args(rt) {
        Ok(arguments) => {
            for argument in arguments.skip(1) {
                words.push(argument)?;
            }
        }
        Err(error) if error.kind() == ErrorKind::OutOfMemory => return Err(Memory),
        Err(_) => words.push(String::new(alloc))?,
    }
    Ok(words)
}

fn answer(rt: HostRuntime, alloc: Global) -> Status {
    let Ok(words) = words(&rt, alloc) else {
        return Status::Memory;
    };
    let mut shelf = FileShelf::new(rt, alloc);
    let mut sink = StdSink::new(rt);
    run(alloc, words.as_slice(), Direct, &mut shelf, &mut sink)
}

fn main(rt: HostRuntime) -> ExitCode {
    let status = answer(rt, rt.alloc());
    let line = line_of(&status);
    if !line.is_empty() {
        let _ = eprintln!(rt; "{line}");
    }
    ExitCode::from(exit_of(&status))
}
