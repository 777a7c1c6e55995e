//! `strictload DIR`: decides the modules of a folder by four loaders beside each other, and writes the report on them to standard output.
//! The exit status tells how the run ended, and nothing goes to standard error.
#![tactic(auto)]

use loader_gate::gate::OpenGate;
use outside::disk_folder::DiskFolder;
use outside::stdout_sink::StdoutSink;
use std::process::ExitCode;
use std::rt::Env;
use std::{env, io};
use strict_top::run::run_many;
use strict_top::status::Status;

/// How many loaders there are.
const LOADERS: u32 = 4;

fn main(rt: HostRuntime) -> ExitCode {
    let alloc = rt.alloc();
    let words = match words(&rt) {
        Ok(words) => words,
        Err(error) if error.kind() == io::ErrorKind::OutOfMemory =>
            return Status::OutOfMemory.into(),
        // A word that isn't UTF-8 is never taken, and neither are no words.
        Err(_) => Vec::new(alloc),
    };
    let mut folder = DiskFolder::new(&rt);
    let mut sink = StdoutSink::new(&rt);
    run_many(
        &rt,
        alloc,
        &words,
        &mut folder,
        &mut sink,
        LOADERS,
        &OpenGate,
    )
    .into()
}

/// The words after the program's name.
fn words(rt: &(impl Env + AllocGlobal)) -> io::Result<Vec<String>> {
    Ok(env::args(rt)?.skip(1).collect(rt.alloc())?)
}
