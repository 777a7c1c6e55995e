ghost use Rattle.std.specs.Prelude.{◌≡◌, ◌≤◌, ℕ, List, IfOk, map, vec_len, string_bytes};
ghost use Rattle.outside.specs.Faults.{CountsFolder};
ghost use Rattle.outside.specs.Files.{Told, IsListing, IsThere, IsReading};

use std::alloc::{AllocError, Global};
use thiserror::Error;

/// The most bytes that [`Folder::read`] gives of a file: one more than a module may have.
pub const READ_LIMIT: usize = 1_048_577;

/// Why a folder gave no answer.
#[derive(Clone, Copy, Debug, PartialEq, Eq, Error)]
pub enum FolderFault {
    /// The folder failed: its count of faults has risen.
    #[error("the folder can't be read")]
    Failed,
    /// There was no memory for the answer.
    #[error("out of memory")]
    Memory,
}

impl From<AllocError> for FolderFault {
    ghost use Rattle.std.specs.Prelude.{◌≡◌};
    ghost use Rattle.outside.specs.declared.folder.FolderFault.TheVariants.{Memory};

    ghost from_gives = { λ _ fault. fault ≡ Memory };

    fn from(_: AllocError) -> FolderFault {
        FolderFault::Memory
    }
}

/// Directories of files. What is in them doesn't change under the calls.
pub trait Folder {
    /// What it tells of a directory, by the bytes of its name.
    ghost told: { Self → List ℕ → Told };

    /// How often it has failed. It never falls, and stands still at the end of 64 bits.
    ghost faults: { Self → ℕ };

    /// The names of the files in a directory.
    fn list(&mut self, alloc: Global, dir: &str) -> Result<Vec<String>, FolderFault>
        ensures names { IfOk result (λ names. IsListing (told self.old dir.now) (map string_bytes names.items)) }
        ensures count { CountsFolder result (faults self.old) (faults self.new) }
        ensures same { told self.new ≡ told self.old };

    /// The bytes of a file, or the first [`READ_LIMIT`] of a longer one.
    fn read(&mut self, alloc: Global, dir: &str, name: &str) -> Result<Vec<u8>, FolderFault>
        requires { IsThere (told self.old dir.now) name.now }
        ensures bytes { IfOk result (λ bytes. IsReading (told self.old dir.now) name.now bytes.items) }
        ensures limit { IfOk result (λ bytes. vec_len bytes ≤ READ_LIMIT) }
        ensures count { CountsFolder result (faults self.old) (faults self.new) }
        ensures same { told self.new ≡ told self.old };
}
