ghost use Rattle.std.specs.Prelude.{◌≡◌, ◌↔◌, ℕ, All, IsTrue, List, map};
ghost use Rattle.std.specs.List.{IsDistinct, list_any};
ghost use Rattle.std.specs.Str.{IsUtf8, bytes_eq};
ghost use Rattle.outside.specs.Memory.{AreDirs, AreFiles};

use crate::rows::{DirRow, FileRow};
use std::str;

/// What has a name.
trait Named {
    ghost name: { Self → List ℕ };

    fn name(&self) -> &[u8]
        ensures { result.now ≡ name self.now };
}

impl Named for FileRow {
    ghost name = { λ row. row.name };

    fn name(&self) -> &[u8] {
        self.name.as_slice()
    }
}

impl Named for DirRow {
    ghost name = { λ row. row.name };

    fn name(&self) -> &[u8] {
        self.name.as_slice()
    }
}

/// Whether the names of directories, and those of the files in each, are texts that stand once in their lists.
pub(super) fn are_dirs(dirs: &[DirRow]) -> bool
    ensures { IsTrue result ↔ AreDirs dirs.now }
{
    have_names(dirs) && hold_files(dirs)
}

fn hold_files(dirs: &[DirRow]) -> bool
    ensures { IsTrue result ↔ All (λ dir. AreFiles dir.files) dirs.now }
{
    dirs.iter().all(|dir| are_files(dir.files.as_slice()))
}

fn are_files(files: &[FileRow]) -> bool
    ensures { IsTrue result ↔ AreFiles files.now }
{
    have_names(files)
}

/// Whether the names are texts, and no two are the same.
fn have_names<R: Named>(rows: &[R]) -> bool
    ensures { IsTrue result ↔ (All (λ row. IsUtf8 (R.name row)) rows.now × IsDistinct bytes_eq (map R.name rows.now)) }
{
    let mut rest = rows;
    while let Some((first, others)) = rest.split_first() {
        if !is_text(first.name()) || is_among(first.name(), others) {
            return false;
        }
        rest = others;
    }
    true
}

fn is_text(bytes: &[u8]) -> bool
    ensures { IsTrue result ↔ IsUtf8 bytes.now }
{
    str::from_utf8(bytes).is_ok()
}

fn is_among<R: Named>(name: &[u8], rows: &[R]) -> bool
    ensures { result ≡ list_any (λ row. bytes_eq name.now (R.name row)) rows.now }
{
    rows.iter().any(|row| name == row.name())
}
