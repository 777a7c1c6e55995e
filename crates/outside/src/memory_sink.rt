ghost use Rattle.std.specs.Prelude.{◌≡◌, ◌<◌, ◌≤◌, [], Some, None, length, take, IfOk, IfErr, OnErr};
ghost use Rattle.outside.specs.Bytes.{Appends};
ghost use Rattle.outside.specs.Faults.{CountsSink};
ghost use Rattle.outside.specs.Written.{call_fails, AnswersWrite};

use crate::rows::CallList;
use crate::sink::{Sink, SinkFault};
use std::alloc::Global;
use std::marker::Model;

/// A sink in memory, which takes a limited number of bytes at once and fails at the calls that it was told.
#[derive(Debug, Drop)]
pub struct MemorySink {
    written: Vec<u8>,
    most: usize,
    failing: CallList,
    calls: u64,
    faults: u64,
}

impl Model for MemorySink {
    ghost use Rattle.std.specs.Prelude.{◌≤◌};
    ghost use Rattle.outside.specs.Written.{SinkState};

    ghost Value = { SinkState };

    ghost view = { λ sink. record {
      written = sink.written.items;
      most = sink.most;
      failing = sink.failing;
      calls = sink.calls;
      faults = sink.faults;
    } };

    ghost invariant = { λ sink. 1 ≤ sink.most };
}

impl MemorySink {
    /// An empty sink, which takes `most` bytes at once. `failing` has the numbers, from 1, of the calls that are to fail.
    pub fn new(alloc: Global, most: usize, failing: CallList) -> MemorySink
        requires { 1 ≤ most }
        ensures { result ≡ record { written = []; most = most; failing = failing; calls = 0; faults = 0 } }
    {
        MemorySink {
            written: Vec::new(alloc),
            most,
            failing,
            calls: 0,
            faults: 0,
        }
    }

    /// The bytes written so far.
    pub fn written(&self) -> &[u8]
        ensures { result.now ≡ self.now.written }
    {
        self.written.as_slice()
    }
}

impl Sink for MemorySink {
    ghost written = { λ sink. Some sink.written };

    ghost room = { λ _. None };

    ghost faults = { λ sink. sink.faults };

    fn write(&mut self, bytes: &[u8]) -> Result<usize, SinkFault>
        requires { 0 < length bytes.now }
        ensures taken { IfOk result (λ n. (0 < n) × (n ≤ length bytes.now)) }
        ensures ok { IfOk result (λ n. Appends (Some self.old.written) (Some self.new.written) (take n bytes.now)) }
        ensures err { OnErr result (self.new.written ≡ self.old.written) }
        ensures count { CountsSink result self.old.faults self.new.faults }
        ensures call { AnswersWrite result (call_fails self.old) bytes.now self.old self.new }
    {
        self.calls = self.calls.saturating_add(1);
        if self.failing.as_slice().contains(&self.calls) {
            self.faults = self.faults.saturating_add(1);
            return Err(SinkFault::Failed);
        }
        let n = self.most.min(bytes.len());
        self.written.extend_from_slice(&bytes[..n])?;
        Ok(n)
    }
}
