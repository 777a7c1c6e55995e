ghost use Rattle.std.specs.Prelude.{◌≡◌, ◌≢◌, ◌↔◌, ℕ, List, IfOk, MatchOption, ◌++◌, codes, map, string_bytes};
ghost use Rattle.std.specs.BTreeSet.{contains_text, IsOrdered};
ghost use Rattle.std.specs.List.{Contains, filter_map, list_any};
ghost use Rattle.std.specs.List.Sorted.{IsStrictlySortedBy};
ghost use Rattle.std.specs.Str.{bytes_eq};
ghost use Rattle.std.specs.String.{string_cmp};
ghost use Rattle.outside.specs.Files.{Files};
ghost use Rattle.module_load.specs.Folders.{File};
ghost use Rattle.module_load.specs.Imports.{reserved};
ghost use Rattle.strict_top.specs.Modules.{LiesIn, file_cmp, is_module_name, module_in, modules};

use py_lexer::names::{is_among, is_identifier, is_keyword};
use std::alloc::{AllocError, Global};
use std::collections::BTreeSet;

/// Names that an import gives a meaning of its own, so that no file is their module.
const RESERVED: [&[u8]; 5] = [
    b"__strict__",
    b"__static__",
    b"__host__",
    b"__future__",
    b"typing",
];

/// The law of the modules of a directory: they are exactly those that lie in it, and each name is below the next.
pub fn modules_of_a_directory()
    ensures members { (files : Files) (file : File) → Contains (modules files) file ↔ LiesIn files file }
    ensures ordered { (files : Files) → IsStrictlySortedBy file_cmp (modules files) }
{}

/// The names of the modules that lie in the files of these names.
pub(crate) fn modules_among(alloc: Global, files: &[String]) -> Result<BTreeSet<String>, AllocError>
    ensures members { IfOk result (λ names. (name : List ℕ) → contains_text names name
        ≡ list_any (bytes_eq name) (filter_map module_in (map string_bytes files.now))) }
    ensures ordered { IfOk result (IsOrdered string_cmp) }
{
    let mut names = BTreeSet::new(alloc);
    for file in files {
        let Some(name) = stem_of(file.as_str()) else {
            continue;
        };
        if is_module_name(alloc, name)? {
            names.insert(String::from_str(alloc, name)?)?;
        }
    }
    Ok(names)
}

/// The name of a file without the ending of Python modules, where it has it.
fn stem_of(file: &str) -> Option<&str>
    ensures { MatchOption result
        ((stem : List ℕ) → file.now ≢ stem ++ codes ".py")
        (λ stem. file.now ≡ stem.now ++ codes ".py") }
{
    file.strip_suffix(".py")
}

fn is_module_name(alloc: Global, name: &str) -> Result<bool, AllocError>
    ensures { IfOk result (λ yes. yes ≡ is_module_name name.now) }
{
    let identifier = is_identifier(alloc, name)?;
    let name = name.as_bytes();
    Ok(identifier && !is_keyword(name) && !is_reserved(name))
}

fn is_reserved(name: &[u8]) -> bool
    ensures { result ≡ list_any (bytes_eq name.now) reserved }
{
    is_among(name, &RESERVED)
}
