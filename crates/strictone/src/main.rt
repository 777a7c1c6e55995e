//! `strictone DIR`: decides the modules of a folder on one thread, and writes the report on them to standard output. The
//! exit status tells how the run ended, and nothing goes to standard error.
#![tactic(auto)]

use outside::disk_folder::DiskFolder;
use outside::stdout_sink::StdoutSink;
use std::process::ExitCode;
use std::rt::Env;
use std::{env, io};
use strict_top::run::run_one;
use strict_top::status::Status;

fn main(rt: HostRuntime) -> ExitCode {
    let alloc = rt.alloc();
    let words = match words(&rt) {
        Ok(words) => words,
        Err(error) if error.kind() == io::ErrorKind::OutOfMemory =>
            return Status::OutOfMemory.into(),
        // A word that isn't UTF-8 is never taken, and neither are no words.
        Err(_) => Vec::new(alloc),
    };
    let mut folder = DiskFolder::new(&rt);
    let mut sink = StdoutSink::new(&rt);
    run_one(alloc, &words, &mut folder, &mut sink).into()
}

/// The words after the program's name.
fn words(rt: &(impl Env + AllocGlobal)) -> io::Result<Vec<String>> {
    Ok(env::args(rt)?.skip(1).collect(rt.alloc())?)
}
