ghost use Rattle.std.specs.Prelude.{◌≡◌, ◌+◌, ◌++◌, IfOk, OnOk, if◌then◌else◌};
ghost use Rattle.py_meaning.specs.Imports.{binds_nothing};
ghost use Rattle.compile_plain.specs.Definitions.{import_code, import_end, imports_code, imports_end, member_import_code, member_imports_code, member_imports_end};
ghost use Rattle.compile_plain.specs.Scopes.{names_of};

use crate::block::{Block, next};
use crate::site::Site;
use bytecode::instr::{Instr, Member};
use py_tree::statement::Import;
use py_tree::text::Text;
use std::alloc::AllocError;
use symbols::bindings::{bound_name, is_marker_import};
use symbols::words::is_word;

/// Puts the code of an import statement.
pub(crate) fn put_imports(
    imports: &[Import],
    site: &Site<'_>,
    block: &mut Block,
) -> Result<(), AllocError>
    ensures cells { OnOk result (block.new.cells ≡ block.old.cells ++ imports_code (names_of site.now.scope.now) site.now.targets.raised imports.now) }
    ensures end { OnOk result (block.new.end ≡ imports_end block.old.end imports.now) }
{
    for import in imports {
        put_import(import, site, block)?;
    }
    Ok(())
}

fn put_import(import: &Import, site: &Site<'_>, block: &mut Block) -> Result<(), AllocError>
    ensures cells { OnOk result (block.new.cells ≡ block.old.cells ++ import_code (names_of site.now.scope.now) site.now.targets.raised import.now) }
    ensures end { OnOk result (block.new.end ≡ import_end block.old.end import.now) }
{
    if is_marker_import(import) {
        return Ok(());
    }
    let variable = site.scope.variable(site.alloc, bound_name(import))?;
    site.put(
        Instr::ImportModule(import.name.copy(site.alloc)?, variable),
        block,
    )
}

/// Puts the code of `from NAME import ..`.
pub(crate) fn put_member_imports(
    from: &Text,
    imports: &[Import],
    site: &Site<'_>,
    block: &mut Block,
) -> Result<(), AllocError>
    ensures cells { OnOk result (block.new.cells ≡ block.old.cells ++ member_imports_code (names_of site.now.scope.now) site.now.targets.raised from.now imports.now) }
    ensures end { OnOk result (block.new.end ≡ member_imports_end block.old.end from.now imports.now) }
{
    for import in imports {
        put_member_import(from, import, site, block)?;
    }
    Ok(())
}

fn put_member_import(
    from: &Text,
    import: &Import,
    site: &Site<'_>,
    block: &mut Block,
) -> Result<(), AllocError>
    ensures cells { OnOk result (block.new.cells ≡ block.old.cells ++ member_import_code (names_of site.now.scope.now) site.now.targets.raised from.now import.now) }
    ensures end { OnOk result (block.new.end ≡ (if binds_nothing from.now then block.old.end else block.old.end + 1)) }
{
    if has_no_members(from) {
        return Ok(());
    }
    let variable = site.scope.variable(site.alloc, bound_name(import))?;
    let member = Member {
        module: from.copy(site.alloc)?,
        name: import.name.copy(site.alloc)?,
        variable,
    };
    site.put(Instr::ImportMember(member), block)
}

/// The place behind the code of an import statement that begins at a place.
pub(crate) fn end_of_imports(imports: &[Import], place: u32) -> Result<u32, AllocError>
    ensures { IfOk result (λ end. end ≡ imports_end place imports.now) }
{
    let mut end = place;
    for import in imports {
        if !is_marker_import(import) {
            end = next(end)?;
        }
    }
    Ok(end)
}

/// The place behind the code of `from NAME import ..` that begins at a place.
pub(crate) fn end_of_member_imports(
    from: &Text,
    imports: &[Import],
    place: u32,
) -> Result<u32, AllocError>
    ensures { IfOk result (λ end. end ≡ member_imports_end place from.now imports.now) }
{
    let mut end = place;
    for _ in imports {
        if !has_no_members(from) {
            end = next(end)?;
        }
    }
    Ok(end)
}

/// Whether an import from there binds nothing when it runs.
fn has_no_members(from: &Text) -> bool
    ensures { result ≡ binds_nothing from.now }
{
    is_word(from, b"__future__") || is_word(from, b"typing") || is_word(from, b"__static__")
}
