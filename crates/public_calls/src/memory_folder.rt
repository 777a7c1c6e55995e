ghost use Rattle.std.specs.Prelude.{◌≡◌, ◌∷◌, [], codes, IfOk};
ghost use Rattle.outside.specs.Files.{IsThere};
ghost use Rattle.outside.specs.Memory.{told_in};

use outside::folder::{Folder, FolderFault};
use outside::memory_folder::MemoryFolder;
use outside::rows::{Bytes, CallList, DirList, DirRow, FileList, FileRow};
use std::alloc::{AllocError, Global};
use std::process::Abort;
use std::test::Fail;

/// The directory `d` with the file `a`, which holds `A`.
fn sample(alloc: Global) -> Result<DirList, AllocError>
    ensures { IfOk result (λ dirs. dirs ≡ record { name = codes "d"; files = record { name = codes "a"; bytes = codes "A" } ∷ [] } ∷ []) }
{
    let mut files = FileList::new(alloc);
    files.push(FileRow {
        name: Bytes::from_slice(alloc, b"a")?,
        bytes: Bytes::from_slice(alloc, b"A")?,
    })?;
    let mut dirs = DirList::new(alloc);
    let name = Bytes::from_slice(alloc, b"d")?;
    dirs.push(DirRow { name, files })?;
    Ok(dirs)
}

/// A folder of that directory, which fails at the calls of these numbers.
fn folder(rt: &impl Abort, alloc: Global, failing: &[u64]) -> Result<MemoryFolder, AllocError>
    ensures { IfOk result (λ folder. IsThere (told_in folder (codes "d")) (codes "a")) }
{
    let dirs = sample(alloc)?;
    let failing = CallList::from_slice(alloc, failing)?;
    assert!(rt; MemoryFolder::takes(dirs.as_slice()));
    Ok(MemoryFolder::new(dirs, failing))
}

#[test]
fn a_directory_is_listed(rt: HostRuntime) -> Result<(), Fail> {
    let alloc = rt.alloc();
    let mut folder = folder(&rt, alloc, &[])?;
    let names = folder.list(alloc, "d")?;
    assert_eq!(rt; names.len(), 1);
    assert_eq!(rt; names[0].as_str(), "a");
    assert_eq!(rt; folder.list(alloc, "e").err(), Some(FolderFault::Failed));
    Ok(())
}

#[test]
fn a_file_is_read_until_a_call_is_to_fail(rt: HostRuntime) -> Result<(), Fail> {
    let alloc = rt.alloc();
    let mut folder = folder(&rt, alloc, &[2])?;
    assert_eq!(rt; folder.read(alloc, "d", "a")?.as_slice(), b"A".as_slice());
    assert_eq!(rt;
        folder.read(alloc, "d", "a").err(),
        Some(FolderFault::Failed)
    );
    Ok(())
}
