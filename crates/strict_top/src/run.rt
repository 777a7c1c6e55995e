ghost use Rattle.std.specs.Prelude.{◌≡◌, ◌≢◌, ◌≤◌, ◌⊎◌, ◌↔◌, None, IfOk, length, map, string_bytes};
ghost use Rattle.std.specs.List.{list_any};
ghost use Rattle.std.specs.Option.{ForSome};
ghost use Rattle.outside.specs.Bytes.{Appends};
ghost use Rattle.outside.specs.Faults.{HasRisen};
ghost use Rattle.module_load.specs.Folders.{file_of};
ghost use Rattle.module_load.specs.Right.{is_refused};
ghost use Rattle.strict_top.specs.Reports.{Report, bad_words, too_large, report_of};
ghost use Rattle.strict_top.specs.EveryReport.{EveryReport};
ghost use Rattle.strict_top.specs.Runs.{HasEnded, IsReport, IsTold, OneReport, WritesFront, WritesReport};
ghost use Rattle.strict_top.specs.Words.{directory_of};
ghost use Rattle.strict_top.specs.Steps.{AreDecided, Writes, paired};

use crate::alone::decide_alone;
use crate::beside::decide_beside;
use crate::reading::{Found, read_modules};
use crate::report::{write_all, write_report};
use crate::status::Status;
use crate::words::directory;
use loader_gate::gate::Gate;
use module_load::folder::{ModuleFile, sources_of};
use module_load::strict_python::StrictPython;
use outside::folder::{Folder, FolderFault};
use outside::sink::{Sink, SinkFault};
use registry_core::world::World;
use std::alloc::{AllocError, Global};
use std::sync::Wait;
use std::thread::Threads;

/// Decides the modules of the directory that the words name, each after those that it needs, and writes the report on them.
///
/// The words are those after the program's name. They are taken where there is one, and it begins neither with `-`
/// nor with `gen:`. The report has a line for each module, in the order of the bytes of their names, or else the one
/// line `bad words`. Each line is a piece for the sink, and what a write leaves of it goes into further writes. A folder of more than
/// 1,024 modules, or of more than 33,554,432 bytes in them, has no line.
pub fn run_one<F: Folder, S: Sink>(
    alloc: Global,
    words: &[String],
    folder: &mut F,
    sink: &mut S,
) -> Status
    // Where the sink tells its room, the report fits.
    requires { ForSome (S.room sink.old) (λ room. (report : Report)
        → IsReport (map string_bytes words.now) (F.told folder.old) report
        → length report.bytes ≤ room) }

    // Where the directory is told, nothing fails and memory is found, exactly its report is written, and its status is the answer.
    ensures exact { IsTold (map string_bytes words.now) (F.told folder.old)
        → (report : Report) → IsReport (map string_bytes words.now) (F.told folder.old) report
        → ¬ (HasRisen (F.faults folder.old) (F.faults folder.new))
        → ¬ (HasRisen (S.faults sink.old) (S.faults sink.new))
        → result ≢ Status.OutOfMemory
        → Appends (S.written sink.old) (S.written sink.new) report.bytes × (result ≡ report.status) }

    // A run that ends has written a whole report and answers its status, also where the folder tells nothing.
    ensures ended { HasEnded result
        → WritesReport (map string_bytes words.now) (F.told folder.old) (S.written sink.old) (S.written sink.new) result }
    ensures ended_faultless { HasEnded result
        → (F.faults folder.new ≡ F.faults folder.old) × (S.faults sink.new ≡ S.faults sink.old) }

    // Words that name no directory: the folder isn't called, and a run that ends answers `BadWords` there and nowhere else.
    ensures no_directory { directory_of (map string_bytes words.now) ≡ None → folder.new ≡ folder.old }
    ensures bad_words { HasEnded result → (result ≡ Status.BadWords) ↔ (directory_of (map string_bytes words.now) ≡ None) }

    // The folder is too large, and the sink isn't called.
    ensures too_large { result ≡ Status.TooLarge
        → IsReport (map string_bytes words.now) (F.told folder.old) too_large × (sink.new ≡ sink.old) }

    // The folder failed: its count has risen, and the sink isn't called.
    ensures folder_fault { result ≡ Status.FolderFault
        → HasRisen (F.faults folder.old) (F.faults folder.new) × (sink.new ≡ sink.old) }

    // The sink failed: its count has risen, and the first bytes of the report are written.
    ensures sink_fault { result ≡ Status.SinkFault
        → HasRisen (S.faults sink.old) (S.faults sink.new) × (F.faults folder.new ≡ F.faults folder.old)
        × WritesFront (map string_bytes words.now) (F.told folder.old) (S.written sink.old) (S.written sink.new) }

    // There was no memory: nothing has failed, and nothing or the first bytes of the report are written.
    ensures out_of_memory { result ≡ Status.OutOfMemory
        → (F.faults folder.new ≡ F.faults folder.old) × (S.faults sink.new ≡ S.faults sink.old)
        × ((sink.new ≡ sink.old)
        ⊎ WritesFront (map string_bytes words.now) (F.told folder.old) (S.written sink.old) (S.written sink.new)) }

    // The files are as they were.
    ensures same { F.told folder.new ≡ F.told folder.old }
{
    let Some(dir) = directory(words) else {
        return report_bad_words(sink);
    };
    let files = match read_modules(alloc, folder, dir) {
        Ok(Found::Modules(files)) => files,
        Ok(Found::TooLarge) => return Status::TooLarge,
        Err(FolderFault::Failed) => return Status::FolderFault,
        Err(FolderFault::Memory) => return Status::OutOfMemory,
    };
    let Ok(world) = decide_files(alloc, &files) else {
        return Status::OutOfMemory;
    };
    report_world(alloc, sink, &files, &world)
}

/// The same by so many loaders beside each other, from 1 to 64, each of which passes the gate with every module that it has claimed. It may
/// wait; where it returns, it has written and answers what `run_one` would.
pub fn run_many<F: Folder, S: Sink, G: Gate + Sync, R: Threads + Wait + Sync>(
    rt: &R,
    alloc: Global,
    words: &[String],
    folder: &mut F,
    sink: &mut S,
    loaders: u32,
    gate: &G,
) -> Status
    requires least { 1 ≤ loaders }
    requires most { loaders ≤ 64 }

    // Where the sink tells its room, the report fits.
    requires room { ForSome (S.room sink.old) (λ room. (report : Report)
        → IsReport (map string_bytes words.now) (F.told folder.old) report
        → length report.bytes ≤ room) }

    // Where the directory is told, nothing fails and memory is found, exactly its report is written, and its status is the answer.
    ensures exact { IsTold (map string_bytes words.now) (F.told folder.old)
        → (report : Report) → IsReport (map string_bytes words.now) (F.told folder.old) report
        → ¬ (HasRisen (F.faults folder.old) (F.faults folder.new))
        → ¬ (HasRisen (S.faults sink.old) (S.faults sink.new))
        → result ≢ Status.OutOfMemory
        → Appends (S.written sink.old) (S.written sink.new) report.bytes × (result ≡ report.status) }

    // A run that ends has written a whole report and answers its status, also where the folder tells nothing.
    ensures ended { HasEnded result
        → WritesReport (map string_bytes words.now) (F.told folder.old) (S.written sink.old) (S.written sink.new) result }
    ensures ended_faultless { HasEnded result
        → (F.faults folder.new ≡ F.faults folder.old) × (S.faults sink.new ≡ S.faults sink.old) }

    // Words that name no directory: the folder isn't called, and a run that ends answers `BadWords` there and nowhere else.
    ensures no_directory { directory_of (map string_bytes words.now) ≡ None → folder.new ≡ folder.old }
    ensures bad_words { HasEnded result → (result ≡ Status.BadWords) ↔ (directory_of (map string_bytes words.now) ≡ None) }

    // The folder is too large, and the sink isn't called.
    ensures too_large { result ≡ Status.TooLarge
        → IsReport (map string_bytes words.now) (F.told folder.old) too_large × (sink.new ≡ sink.old) }

    // The folder failed: its count has risen, and the sink isn't called.
    ensures folder_fault { result ≡ Status.FolderFault
        → HasRisen (F.faults folder.old) (F.faults folder.new) × (sink.new ≡ sink.old) }

    // The sink failed: its count has risen, and the first bytes of the report are written.
    ensures sink_fault { result ≡ Status.SinkFault
        → HasRisen (S.faults sink.old) (S.faults sink.new) × (F.faults folder.new ≡ F.faults folder.old)
        × WritesFront (map string_bytes words.now) (F.told folder.old) (S.written sink.old) (S.written sink.new) }

    // There was no memory: nothing has failed, and nothing or the first bytes of the report are written.
    ensures out_of_memory { result ≡ Status.OutOfMemory
        → (F.faults folder.new ≡ F.faults folder.old) × (S.faults sink.new ≡ S.faults sink.old)
        × ((sink.new ≡ sink.old)
        ⊎ WritesFront (map string_bytes words.now) (F.told folder.old) (S.written sink.old) (S.written sink.new)) }

    // The files are as they were.
    ensures same { F.told folder.new ≡ F.told folder.old }
{
    let Some(dir) = directory(words) else {
        return report_bad_words(sink);
    };
    let files = match read_modules(alloc, folder, dir) {
        Ok(Found::Modules(files)) => files,
        Ok(Found::TooLarge) => return Status::TooLarge,
        Err(FolderFault::Failed) => return Status::FolderFault,
        Err(FolderFault::Memory) => return Status::OutOfMemory,
    };
    let Ok(world) = decide_beside(rt, alloc, &files, loaders, gate) else {
        return Status::OutOfMemory;
    };
    report_world(alloc, sink, &files, &world)
}

/// The law of reports: what is told has at most one.
pub fn one_report()
    ensures { OneReport }
{}

/// The other half of it: what is told has a report.
pub fn every_report()
    ensures { EveryReport }
{}

/// Writes the report of words that aren't taken.
fn report_bad_words<S: Sink>(sink: &mut S) -> Status
    requires { ForSome (S.room sink.old) (λ room. length bad_words.bytes ≤ room) }
    ensures { Writes bad_words (S.written sink.old) (S.written sink.new)
        (S.faults sink.old) (S.faults sink.new) result }
{
    match write_all(sink, b"bad words\n") {
        Ok(()) => Status::BadWords,
        Err(SinkFault::Failed) => Status::SinkFault,
        Err(SinkFault::Memory) => Status::OutOfMemory,
    }
}

/// What is right to decide of the modules of these files.
fn decide_files(alloc: Global, files: &[ModuleFile]) -> Result<World<StrictPython>, AllocError>
    requires { length files.now ≤ 1024 }
    ensures { IfOk result (λ world. AreDecided (map file_of files.now) world) }
{
    let all = sources_of(alloc, files)?;
    decide_alone(alloc, all, &StrictPython)
}

/// Writes the report on the modules of these files, of which this is decided.
fn report_world<S: Sink>(
    alloc: Global,
    sink: &mut S,
    files: &[ModuleFile],
    world: &World<StrictPython>,
) -> Status
    requires each { length world.now ≡ length files.now }
    requires few { length files.now ≤ 1024 }
    requires room { ForSome (S.room sink.old) (λ room. length (report_of (paired (map file_of files.now) world.now)).bytes ≤ room) }
    ensures { Writes (report_of (paired (map file_of files.now) world.now)) (S.written sink.old) (S.written sink.new)
        (S.faults sink.old) (S.faults sink.new) result }
{
    match write_report(alloc, sink, files, world) {
        Ok(()) => status_of(files, world),
        Err(SinkFault::Failed) => Status::SinkFault,
        Err(SinkFault::Memory) => Status::OutOfMemory,
    }
}

/// The status of a report on these modules.
fn status_of(files: &[ModuleFile], world: &World<StrictPython>) -> Status
    requires each { length world.now ≡ length files.now }
    requires few { length files.now ≤ 1024 }
    ensures { result ≡ (report_of (paired (map file_of files.now) world.now)).status }
{
    if some_refused(world, files.len() as u32) {
        Status::Refused
    } else {
        Status::Done
    }
}

/// Whether one of the modules is refused.
fn some_refused(world: &World<StrictPython>, count: u32) -> bool
    requires { length world.now ≡ count }
    ensures { result ≡ list_any is_refused world.now }
{
    for module in 0..count {
        if world.verdict(module).is_refused() {
            return true;
        }
    }
    false
}
