//! The program: hands the words of the command line, standard input and standard output to the commands, and says on
//! standard error why a command did not end well.
#![tactic(auto)]

use flit_cli::{Status, StdSink, StdSource, Words, fault_line};
use std::process::ExitCode;
use std::rt::Env;
use std::sync::Wait;
use std::thread::Threads;
use std::{env, io};

/// The words of the command line behind the program's name.
fn words_of(rt: &(impl Env + AllocGlobal)) -> Result<Words, Status> {
    let given = env::args(rt).map_err(|error| match error.kind() {
        io::ErrorKind::OutOfMemory => Status::NoMemory,
        _ => Status::Usage,
    })?;
    let mut words = Words::new(rt.alloc());
    for word in given.skip(1) {
        words.push(word.as_str())?;
    }
    Ok(words)
}

/// Runs the command that the words name, from standard input to standard output.
fn run(rt: &(impl Env + Input + Print + AllocGlobal + Threads + Wait + Sync)) -> Status {
    let words = match words_of(rt) {
        Ok(words) => words,
        Err(status) => return status,
    };
    let mut source = StdSource::new(rt.reader());
    let mut sink = StdSink::new(io::writer(rt));
    flit_cli::flit(rt, rt.alloc(), &words, &mut source, &mut sink).status
}

fn main(rt: HostRuntime) -> ExitCode {
    let status = run(&rt);
    if let Some(line) = fault_line(status) {
        let _ = eprintln!(rt; "{line}");
    }
    ExitCode::from(status.code())
}
