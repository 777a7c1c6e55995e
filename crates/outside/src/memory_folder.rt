ghost use Rattle.std.specs.Prelude.{◌≡◌, ◌≤◌, ◌↔◌, List, [], length, map, vec_len, string_bytes, IsTrue, IfOk, IfErr, IfSome};
ghost use Rattle.std.specs.Option.{option_copied};
ghost use Rattle.std.specs.List.{find};
ghost use Rattle.std.specs.Str.{IsUtf8, bytes_eq};
ghost use Rattle.outside.specs.Calls.{next_count};
ghost use Rattle.outside.specs.Faults.{HasRisen, CountsFolder};
ghost use Rattle.outside.specs.Files.{Holds, IsListing, IsThere, IsReading, front_of};
ghost use Rattle.outside.specs.Memory.{AreFiles, AreDirs, rows_in, row_in, files_in, told_in, call_fails, list_fails, AnswersCall};

use crate::folder::{Folder, FolderFault, READ_LIMIT};
use crate::memory_folder::names::are_dirs;
use crate::rows::{CallList, DirList, DirRow, FileRow};
use std::alloc::{AllocError, Global};
use std::marker::Model;

mod names;

/// A folder in memory, which fails at the calls that it was told.
#[derive(Debug, Drop)]
pub struct MemoryFolder {
    dirs: DirList,
    failing: CallList,
    calls: u64,
    faults: u64,
}

impl Model for MemoryFolder {
    ghost use Rattle.outside.specs.Memory.{FolderState, AreDirs};

    ghost Value = { FolderState };

    ghost view = { λ folder. record {
      dirs = folder.dirs;
      failing = folder.failing;
      calls = folder.calls;
      faults = folder.faults;
    } };

    ghost invariant = { λ folder. AreDirs folder.dirs };
}

impl MemoryFolder {
    /// A folder of these directories. `failing` has the numbers, from 1, of the calls that are to fail, where calls of
    /// `list` and of `read` count together.
    pub fn new(dirs: DirList, failing: CallList) -> MemoryFolder
        requires { AreDirs dirs }
        ensures { result ≡ record { dirs = dirs; failing = failing; calls = 0; faults = 0 } }
    {
        MemoryFolder {
            dirs,
            failing,
            calls: 0,
            faults: 0,
        }
    }

    /// Whether a folder may be made of these directories: their names, and those of the files in each, are texts and
    /// stand once in their lists. It compares the names of a list pairwise.
    pub fn takes(dirs: &[DirRow]) -> bool
        ensures { IsTrue result ↔ AreDirs dirs.now }
    {
        are_dirs(dirs)
    }

    /// Counts a call, and fails it where it is to.
    fn count_call(&mut self) -> Result<(), FolderFault>
        ensures fault { IfErr result (λ fault. fault ≡ FolderFault.Failed) }
        ensures count { CountsFolder result self.old.faults self.new.faults }
        ensures call { AnswersCall result (call_fails self.old) self.old self.new }
    {
        self.calls = self.calls.saturating_add(1);
        if self.failing.as_slice().contains(&self.calls) {
            Err(self.count_fault())
        } else {
            Ok(())
        }
    }

    fn count_fault(&mut self) -> FolderFault
        ensures fault { result ≡ FolderFault.Failed }
        ensures state { self.new ≡ record self.old { faults = next_count self.old.faults } }
        ensures risen { HasRisen self.old.faults self.new.faults }
    {
        self.faults = self.faults.saturating_add(1);
        FolderFault::Failed
    }

    fn files_of(&self, dir: &str) -> Option<&[FileRow]>
        ensures found { option_copied result ≡ rows_in self.now.dirs dir.now }
        ensures files { IfSome result (λ rows. AreFiles rows.now) }
    {
        let row = find_dir(self.dirs.as_slice(), dir)?;
        Some(row.files.as_slice())
    }
}

impl Folder for MemoryFolder {
    ghost told = { told_in };

    ghost faults = { λ folder. folder.faults };

    fn list(&mut self, alloc: Global, dir: &str) -> Result<Vec<String>, FolderFault>
        ensures names { IfOk result (λ names. IsListing (told_in self.old dir.now) (map string_bytes names.items)) }
        ensures count { CountsFolder result self.old.faults self.new.faults }
        ensures same { told_in self.new ≡ told_in self.old }
        ensures call { AnswersCall result (list_fails self.old dir.now) self.old self.new }
    {
        self.count_call()?;
        let Some(files) = self.files_of(dir) else {
            return Err(self.count_fault());
        };
        Ok(file_names(alloc, files)?)
    }

    fn read(&mut self, alloc: Global, dir: &str, name: &str) -> Result<Vec<u8>, FolderFault>
        requires { IsThere (told_in self.old dir.now) name.now }
        ensures bytes { IfOk result (λ bytes. IsReading (told_in self.old dir.now) name.now bytes.items) }
        ensures limit { IfOk result (λ bytes. vec_len bytes ≤ READ_LIMIT) }
        ensures count { CountsFolder result self.old.faults self.new.faults }
        ensures same { told_in self.new ≡ told_in self.old }
        ensures call { AnswersCall result (call_fails self.old) self.old self.new }
    {
        self.count_call()?;
        let files = self.files_of(dir).unwrap();
        Ok(file_front(alloc, files, name)?)
    }
}

fn find_dir<'a>(dirs: &'a [DirRow], name: &str) -> Option<&'a DirRow>
    ensures { option_copied result ≡ find (λ dir. bytes_eq dir.name name.now) dirs.now }
{
    dirs.iter()
        .find(|dir| dir.name.as_slice() == name.as_bytes())
}

fn find_file<'a>(files: &'a [FileRow], name: &str) -> Option<&'a FileRow>
    ensures { option_copied result ≡ row_in files.now name.now }
{
    files
        .iter()
        .find(|row| row.name.as_slice() == name.as_bytes())
}

fn text_of(alloc: Global, bytes: &[u8]) -> Result<String, AllocError>
    requires { IsUtf8 bytes.now }
    ensures { IfOk result (λ text. string_bytes text ≡ bytes.now) }
{
    String::from_str(alloc, str::from_utf8(bytes).unwrap())
}

fn file_names(alloc: Global, files: &[FileRow]) -> Result<Vec<String>, AllocError>
    requires { AreFiles files.now }
    ensures { IfOk result (λ names. IsListing (Holds (files_in files.now)) (map string_bytes names.items)) }
{
    let mut names = Vec::new(alloc);
    for row in files {
        names.push(text_of(alloc, row.name.as_slice())?)?;
    }
    Ok(names)
}

fn front(bytes: &[u8]) -> &[u8]
    ensures value { result.now ≡ front_of bytes.now }
    ensures limit { length result.now ≤ READ_LIMIT }
{
    &bytes[..READ_LIMIT.min(bytes.len())]
}

fn file_front(alloc: Global, files: &[FileRow], name: &str) -> Result<Vec<u8>, AllocError>
    requires { IsThere (Holds (files_in files.now)) name.now }
    ensures bytes { IfOk result (λ bytes. IsReading (Holds (files_in files.now)) name.now bytes.items) }
    ensures limit { IfOk result (λ bytes. vec_len bytes ≤ READ_LIMIT) }
{
    let row = find_file(files, name).unwrap();
    Vec::from_slice(alloc, front(row.bytes.as_slice()))
}
