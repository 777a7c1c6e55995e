ghost use Rattle.std.specs.Prelude.{◌≡◌, ◌<◌, ◌≤◌, ◌↔◌, ℕ, length, None, Ok, Err, IsErr, IfOk, IfErr, OnErr};
ghost use Rattle.std.specs.IoError.{error_kind};
ghost use Rattle.outside.specs.Faults.{CountsSink};

use crate::sink::{Sink, SinkFault};
use std::io;
use std::io::ErrorKind;
use std::marker::Model;

/// The standard output, with no buffer: the bytes that a call takes have been handed to the system. A closed pipe is a
/// failure, and ends no process.
#[derive(Drop)]
pub struct StdoutSink<R> {
    rt: R,
    faults: u64,
}

// In clauses it is the count of its faults.
impl<R> Model for StdoutSink<R> {
    ghost Value = { ℕ };

    ghost view = { λ sink. sink.faults };
}

impl<R> StdoutSink<R> {
    pub fn new(rt: R) -> StdoutSink<R>
        ensures { result ≡ 0 }
    {
        StdoutSink { rt, faults: 0 }
    }

    /// Counts the failure of the system that an answer is. Want of memory is none.
    fn count_failure(&mut self, answer: io::Result<usize>) -> Result<usize, SinkFault>
        ensures ok { IfOk answer (λ n. result ≡ Ok n) }
        ensures err { OnErr answer (IsErr result) }
        ensures memory { IfErr answer (λ error.
            (result ≡ Err SinkFault.Memory) ↔ (error_kind error ≡ ErrorKind.OutOfMemory)) }
        ensures count { CountsSink result self.old self.new }
    {
        match answer {
            Ok(n) => Ok(n),
            Err(error) if error.kind() == ErrorKind::OutOfMemory => Err(SinkFault::Memory),
            Err(_) => {
                self.faults = self.faults.saturating_add(1);
                Err(SinkFault::Failed)
            }
        }
    }
}

impl<R: Print> Sink for StdoutSink<R> {
    ghost written = { λ _. None };

    ghost room = { λ _. None };

    ghost faults = { λ faults. faults };

    fn write(&mut self, bytes: &[u8]) -> Result<usize, SinkFault> {
        let written = write_some(&self.rt, bytes);
        self.count_failure(written)
    }
}

/// Writes at least one byte. A write that a signal interrupts is tried again.
fn write_some(rt: &impl Print, bytes: &[u8]) -> io::Result<usize>
    ensures { IfOk result (λ n. (0 < n) × (n ≤ length bytes.now)) }
{
    for _ in 0..u64::MAX {
        match rt.write_some(bytes) {
            Ok(0) => return Err(io::Error::from(ErrorKind::WriteZero)),
            Err(error) if error.kind() == ErrorKind::Interrupted => {}
            written => return written,
        }
    }
    Err(io::Error::from(ErrorKind::TimedOut))
}
