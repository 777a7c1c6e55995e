ghost use Rattle.std.specs.Prelude.{◌≡◌, ◌≤◌, [], ◌∷◌, ◌++◌, IfOk, OnOk, codes, length, map, string_bytes};
ghost use Rattle.std.specs.List.{All};
ghost use Rattle.outside.specs.Faults.{CountsFolder};
ghost use Rattle.outside.specs.Files.{IsThere};
ghost use Rattle.module_load.specs.Folders.{file_of};
ghost use Rattle.strict_top.specs.Steps.{IsFileIn, IsFound, IsReadOf};

use crate::modules::modules_among;
use module_load::folder::ModuleFile;
use outside::folder::{Folder, FolderFault};
use std::alloc::{AllocError, Global};
use std::collections::BTreeSet;

/// The most modules that a folder may have.
const GREATEST_COUNT: usize = 1024;

/// The most bytes that all modules together may have.
const GREATEST_SIZE: usize = 33_554_432;

/// What a directory has.
#[derive(Drop)]
pub(crate) enum Found {
    /// Its modules, in the order of their names.
    Modules(Vec<ModuleFile>),
    /// More modules than are taken, or more bytes in them.
    TooLarge,
}

/// Lists a directory, and reads its modules in the order of their names. Where the bytes read are too many, nothing more is read.
pub(crate) fn read_modules<F: Folder>(
    alloc: Global,
    folder: &mut F,
    dir: &str,
) -> Result<Found, FolderFault>
    ensures found { IfOk result (λ found. IsFound (F.told folder.old dir.now) found) }
    ensures count { CountsFolder result (F.faults folder.old) (F.faults folder.new) }
    ensures same { F.told folder.new ≡ F.told folder.old }
{
    let files = folder.list(alloc, dir)?;
    let names = modules_among(alloc, &files)?;
    if names.len() > GREATEST_COUNT {
        return Ok(Found::TooLarge);
    }
    read_each(alloc, folder, dir, &names)
}

/// Reads the modules of these names, one after the other, until their bytes are too many.
fn read_each<F: Folder>(
    alloc: Global,
    folder: &mut F,
    dir: &str,
    names: &BTreeSet<String>,
) -> Result<Found, FolderFault>
    requires { All (λ name. IsThere (F.told folder.old dir.now) (string_bytes name ++ codes ".py"))
        names.now.keys }
    ensures read { IfOk result (IsReadOf (F.told folder.old dir.now) (map string_bytes names.now.keys)) }
    ensures count { CountsFolder result (F.faults folder.old) (F.faults folder.new) }
    ensures same { F.told folder.new ≡ F.told folder.old }
{
    let mut files = Vec::new(alloc);
    let mut size = 0;
    for name in names {
        let file = read_one(alloc, folder, dir, name.as_str())?;
        size += file.bytes.len();
        if size > GREATEST_SIZE {
            return Ok(Found::TooLarge);
        }
        add(&mut files, file)?;
    }
    Ok(Found::Modules(files))
}

/// Adds a file at the end.
fn add(files: &mut Vec<ModuleFile>, file: ModuleFile) -> Result<(), AllocError>
    ensures { OnOk result (files.new.items ≡ files.old.items ++ file ∷ []) }
{
    files.push(file)?;
    Ok(())
}

/// Reads the module of that name.
fn read_one<F: Folder>(
    alloc: Global,
    folder: &mut F,
    dir: &str,
    name: &str,
) -> Result<ModuleFile, FolderFault>
    requires { IsThere (F.told folder.old dir.now) (name.now ++ codes ".py") }
    ensures read { IfOk result (λ file. IsFileIn (F.told folder.old dir.now) (file_of file)) }
    ensures name { IfOk result (λ file. string_bytes file.name ≡ name.now) }
    ensures limit { IfOk result (λ file. length file.bytes.items ≤ 1048577) }
    ensures count { CountsFolder result (F.faults folder.old) (F.faults folder.new) }
    ensures same { F.told folder.new ≡ F.told folder.old }
{
    let name = String::from_str(alloc, name)?;
    let file = format!(in alloc; "{name}.py")?;
    let bytes = folder.read(alloc, dir, file.as_str())?;
    Ok(ModuleFile { name, bytes })
}
