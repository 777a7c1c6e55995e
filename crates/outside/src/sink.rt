ghost use Rattle.std.specs.Prelude.{◌≡◌, ◌<◌, ◌≤◌, ℕ, List, Option, length, take, IfOk, OnErr};
ghost use Rattle.std.specs.Option.{ForSome};
ghost use Rattle.outside.specs.Faults.{CountsSink};
ghost use Rattle.outside.specs.Bytes.{Appends, Takes};

use std::alloc::AllocError;
use thiserror::Error;

/// Why a sink took nothing.
#[derive(Clone, Copy, Debug, PartialEq, Eq, Error)]
pub enum SinkFault {
    /// The sink failed: its count of faults has risen.
    #[error("the sink can't be written to")]
    Failed,
    /// There was no memory for the bytes.
    #[error("out of memory")]
    Memory,
}

impl From<AllocError> for SinkFault {
    ghost use Rattle.std.specs.Prelude.{◌≡◌};
    ghost use Rattle.outside.specs.declared.sink.SinkFault.TheVariants.{Memory};

    ghost from_gives = { λ _ fault. fault ≡ Memory };

    fn from(_: AllocError) -> SinkFault {
        SinkFault::Memory
    }
}

/// What bytes are written to, one after the other.
pub trait Sink {
    /// The bytes written so far, where it tells them.
    ghost written: { Self → Option (List ℕ) };

    /// How many more bytes it has room for, where it tells it.
    ghost room: { Self → Option ℕ };

    /// How often it has failed. It never falls, and stands still at the end of 64 bits.
    ghost faults: { Self → ℕ };

    /// Takes the first bytes of a piece, at least one, and answers how many.
    fn write(&mut self, bytes: &[u8]) -> Result<usize, SinkFault>
        requires some { 0 < length bytes.now }
        requires fits { ForSome (room self.old) (λ room. length bytes.now ≤ room) }
        ensures taken { IfOk result (λ n. (0 < n) × (n ≤ length bytes.now)) }
        ensures ok { IfOk result (λ n. Appends (written self.old) (written self.new) (take n bytes.now)) }
        ensures err { OnErr result (written self.new ≡ written self.old) }
        ensures room { IfOk result (λ n. Takes (room self.old) (room self.new) n) }
        ensures room_at_err { OnErr result (room self.new ≡ room self.old) }
        ensures count { CountsSink result (faults self.old) (faults self.new) };
}
