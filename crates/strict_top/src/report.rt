ghost use Rattle.std.specs.Prelude.{◌≡◌, ℕ, ◌≤◌, IfOk, OnOk, OnErr, length, take, map, string_bytes};
ghost use Rattle.std.specs.Option.{ForSome};
ghost use Rattle.outside.specs.Bytes.{Appends, Takes};
ghost use Rattle.outside.specs.Faults.{CountsSink};
ghost use Rattle.module_load.specs.Folders.{file_of};
ghost use Rattle.strict_top.specs.Reports.{report_of, verdict_line};
ghost use Rattle.strict_top.specs.Steps.{paired};

use module_load::folder::ModuleFile;
use module_load::strict_python::StrictPython;
use module_load::verdict::Verdict;
use outside::sink::{Sink, SinkFault};
use registry_core::world::World;
use std::alloc::{AllocError, Global};

/// Writes the report on the modules of these files, a line after the other.
pub(crate) fn write_report<S: Sink>(
    alloc: Global,
    sink: &mut S,
    files: &[ModuleFile],
    world: &World<StrictPython>,
) -> Result<(), SinkFault>
    requires each { length world.now ≡ length files.now }
    requires few { length files.now ≤ 1024 }
    requires room { ForSome (S.room sink.old) (λ room. length (report_of (paired (map file_of files.now) world.now)).bytes ≤ room) }
    ensures ok { OnOk result
        (Appends (S.written sink.old) (S.written sink.new) (report_of (paired (map file_of files.now) world.now)).bytes) }
    ensures err { OnErr result ((n : ℕ)
        × Appends (S.written sink.old) (S.written sink.new) (take n (report_of (paired (map file_of files.now) world.now)).bytes)) }
    ensures count { CountsSink result (S.faults sink.old) (S.faults sink.new) }
{
    for (number, file) in files.iter().enumerate() {
        let line = line_of(alloc, file.name.as_str(), world.verdict(number as u32))?;
        write_all(sink, line.as_bytes())?;
    }
    Ok(())
}

/// The line of a module.
fn line_of(alloc: Global, name: &str, verdict: &Verdict) -> Result<String, AllocError>
    ensures { IfOk result (λ line. string_bytes line ≡ verdict_line name.now verdict.now) }
{
    match verdict {
        Verdict::Published(globals) => {
            let count = globals.len();
            format!(in alloc; "module {name} published {count}\n")
        }
        Verdict::Plain => format!(in alloc; "module {name} plain\n"),
        Verdict::Refused(fault) => {
            let line = fault.line;
            let code = fault.code;
            format!(in alloc; "module {name} refused line {line} {code}\n")
        }
    }
}

/// Writes all of the bytes: what a write leaves of them goes into further writes.
pub(crate) fn write_all<S: Sink>(sink: &mut S, bytes: &[u8]) -> Result<(), SinkFault>
    requires { ForSome (S.room sink.old) (λ room. length bytes.now ≤ room) }
    ensures ok { OnOk result (Appends (S.written sink.old) (S.written sink.new) bytes.now) }
    ensures room { OnOk result (Takes (S.room sink.old) (S.room sink.new) (length bytes.now)) }
    ensures err { OnErr result ((n : ℕ)
        × Appends (S.written sink.old) (S.written sink.new) (take n bytes.now)) }
    ensures count { CountsSink result (S.faults sink.old) (S.faults sink.new) }
{
    let mut rest = bytes;
    while !rest.is_empty() {
        let n = sink.write(rest)?;
        rest = &rest[n..];
    }
    Ok(())
}
