ghost use Rattle.std.specs.Prelude.{◌≡◌, ◌≤◌, ℕ, ◌↔◌, vec_len, Ok, Err, IsErr, IfOk, IfErr, OnErr};
ghost use Rattle.std.specs.IoError.{error_kind};
ghost use Rattle.outside.specs.Faults.{CountsFolder};
ghost use Rattle.outside.specs.Files.{Untold};

use crate::folder::{Folder, FolderFault, READ_LIMIT};
use std::alloc::Global;
use std::io::{ErrorKind, Read};
use std::marker::Model;
use std::path::Path;
use std::rt::Files;
use std::{fs, io};

/// The most names that a listing has. A directory of more files can't be listed.
pub const NAME_LIMIT: usize = 1_000_000;

/// The system's directories. It tells nothing of them, since others may change them.
#[derive(Drop)]
pub struct DiskFolder<R> {
    rt: R,
    faults: u64,
}

// In clauses it is the count of its faults.
impl<R> Model for DiskFolder<R> {
    ghost Value = { ℕ };

    ghost view = { λ folder. folder.faults };
}

impl<R> DiskFolder<R> {
    pub fn new(rt: R) -> DiskFolder<R>
        ensures { result ≡ 0 }
    {
        DiskFolder { rt, faults: 0 }
    }

    /// Counts the failure of the system that an answer is. Want of memory is none.
    fn count_failure<T>(&mut self, answer: io::Result<T>) -> Result<T, FolderFault>
        ensures ok { IfOk answer (λ value. result ≡ Ok value) }
        ensures err { OnErr answer (IsErr result) }
        ensures memory { IfErr answer (λ error.
            (result ≡ Err FolderFault.Memory) ↔ (error_kind error ≡ ErrorKind.OutOfMemory)) }
        ensures count { CountsFolder result self.old self.new }
    {
        match answer {
            Ok(value) => Ok(value),
            Err(error) if error.kind() == ErrorKind::OutOfMemory => Err(FolderFault::Memory),
            Err(_) => {
                self.faults = self.faults.saturating_add(1);
                Err(FolderFault::Failed)
            }
        }
    }
}

impl<R: Files> Folder for DiskFolder<R> {
    ghost told = { λ _ _. Untold };

    ghost faults = { λ faults. faults };

    fn list(&mut self, alloc: Global, dir: &str) -> Result<Vec<String>, FolderFault> {
        let names = file_names(&self.rt, alloc, dir);
        self.count_failure(names)
    }

    fn read(&mut self, alloc: Global, dir: &str, name: &str) -> Result<Vec<u8>, FolderFault> {
        let bytes = file_front(&self.rt, alloc, dir, name);
        self.count_failure(bytes)
    }
}

fn file_names<R: Files>(rt: &R, alloc: Global, dir: &str) -> io::Result<Vec<String>>
    ensures { IfOk result (λ names. vec_len names ≤ NAME_LIMIT) }
{
    let rt = (rt, alloc);
    let mut names = Vec::new(alloc);
    for entry in fs::read_dir(&rt, dir)? {
        let entry = entry?;
        if is_file(&rt, entry.path())? {
            if names.len() >= NAME_LIMIT {
                return Err(io::Error::other("too many files"));
            }
            names.push(String::from_str(alloc, entry.file_name())?)?;
        }
    }
    Ok(names)
}

/// Whether a regular file stands there, or where a symlink leads: no directory, and no pipe, at which a reading might wait
/// without end. What has vanished, and a symlink that leads nowhere, name no file. Any other error leaves it open what
/// stands there, so the listing fails.
fn is_file(files: &impl Files, path: Path<'_>) -> io::Result<bool> {
    match fs::metadata(files, path) {
        Ok(metadata) => Ok(metadata.is_file()),
        Err(error) => match error.kind() {
            ErrorKind::NotFound | ErrorKind::NotADirectory | ErrorKind::FilesystemLoop => Ok(false),
            _ => Err(error),
        },
    }
}

fn file_front<R: Files>(rt: &R, alloc: Global, dir: &str, name: &str) -> io::Result<Vec<u8>>
    ensures { IfOk result (λ bytes. vec_len bytes ≤ READ_LIMIT) }
{
    let path = Path::new(dir).join(alloc, name)?;
    let mut front = fs::open(rt, &path)?.take(READ_LIMIT as u64);
    let mut bytes = Vec::new(alloc);
    front.read_to_end(&mut bytes)?;
    bytes.truncate(READ_LIMIT);
    Ok(bytes)
}
