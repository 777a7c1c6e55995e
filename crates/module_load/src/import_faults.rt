ghost use Rattle.std.specs.Prelude.{◌≡◌, map};
ghost use Rattle.std.specs.List.{flat_map};
ghost use Rattle.std.specs.Option.{option_copied};
ghost use Rattle.py_tree.specs.Joined.{kind_of, module_of, statement_of, statements_of};
ghost use Rattle.py_tree.specs.TopPart as top;
ghost use Rattle.py_tree.specs.declared.statement.Import.{Import as Imported};
ghost use Rattle.symbols.specs.FirstFaults.{IsFirstOf};
ghost use Rattle.module_load.specs.FirstOnes as spec;
ghost use Rattle.module_load.specs.Imports as rule;
ghost use Rattle.module_load.specs.Preparing.{fault};

use crate::globals::Globals;
use crate::known::Known;
use crate::top_part::{behind_docstring, is_marker_alone};
use crate::verdict::Verdict;
use py_tree::code::Code;
use py_tree::fault::Fault;
use py_tree::statement::{Import, Module, Stmt, StmtKind};
use py_tree::text::Text;
use symbols::first_fault::is_no_later;
use symbols::imports::{is_import, module_kind};
use symbols::resolved::ModuleKind;
use symbols::words::{is_among, is_word, own_static_name, typing_name};

/// The names to which imports give a meaning of their own.
const RESERVED: [&[u8]; 5] = [
    b"__strict__",
    b"__static__",
    b"__host__",
    b"__future__",
    b"typing",
];

/// The first fault of the imports of a module's top part: the least line, and on it the least code. Takes no memory.
pub(crate) fn first_import_fault<K: Known>(known: &K, body: &[Stmt]) -> Option<Fault>
    ensures { IsFirstOf (rule.import_faults (K.decisions known.now) (statements_of body.now)) result }
{
    first_statement_fault(known, module_kind(body), top_imports(body))
}

/// The import statements of the top part.
pub(crate) fn top_imports(body: &[Stmt]) -> &[Stmt]
    ensures { map statement_of result.now ≡ top.top_imports (statements_of body.now) }
{
    imports_at_front(behind_docstring(body))
}

fn imports_at_front(body: &[Stmt]) -> &[Stmt]
    ensures { map statement_of result.now ≡ top.imports_at_front (statements_of body.now) }
{
    for (place, statement) in body.iter().enumerate() {
        if !is_import(&statement.kind) {
            return &body[..place];
        }
    }
    body
}

fn first_statement_fault<K: Known>(
    known: &K,
    importing: ModuleKind,
    imports: &[Stmt],
) -> Option<Fault>
    ensures { IsFirstOf (flat_map (rule.statement_faults (K.decisions known.now) importing) (map statement_of imports.now)) result }
{
    let mut first = None;
    for statement in imports {
        let fault = kind_fault(known, importing, statement.line, &statement.kind);
        first = earlier(first, fault);
    }
    first
}

/// Of two faults, where there are any, the one that is reported.
fn earlier(a: Option<Fault>, b: Option<Fault>) -> Option<Fault>
    ensures { result ≡ spec.earlier a b }
{
    match (a, b) {
        (Some(a), Some(b)) if is_no_later(a, b) => Some(a),
        (Some(a), None) => Some(a),
        (_, b) => b,
    }
}

fn kind_fault<K: Known>(
    known: &K,
    importing: ModuleKind,
    line: u32,
    kind: &StmtKind,
) -> Option<Fault>
    ensures { IsFirstOf (rule.kind_faults (K.decisions known.now) importing line (kind_of kind.now)) result }
{
    match kind {
        StmtKind::Import(names) => modules_fault(known, line, names.as_slice()),
        StmtKind::From { module, names } => {
            members_fault(known, importing, line, module, names.as_slice())
        }
        _ => None,
    }
}

/// Of `import NAME as NAME, ..`.
fn modules_fault<K: Known>(known: &K, line: u32, names: &[Import]) -> Option<Fault>
    ensures { IsFirstOf (rule.modules_faults (K.decisions known.now) line names.now) result }
{
    if is_marker_alone(names) {
        None
    } else {
        first_module_fault(known, line, names)
    }
}

fn first_module_fault<K: Known>(known: &K, line: u32, names: &[Import]) -> Option<Fault>
    ensures { IsFirstOf (flat_map (λ (i : Imported). rule.module_faults (K.decisions known.now) line i.name) names.now) result }
{
    let mut first = None;
    for import in names {
        first = earlier(first, module_fault(known, line, &import.name));
    }
    first
}

fn module_fault<K: Known>(known: &K, line: u32, name: &Text) -> Option<Fault>
    ensures { IsFirstOf (rule.module_faults (K.decisions known.now) line name.now) result }
{
    if is_among(name, &RESERVED) {
        fault_unless(false, line, Code::NoSuchModule)
    } else {
        taking_fault(line, &[], known.verdict(name))
    }
}

/// Of `from NAME import NAME as NAME, ..`.
fn members_fault<K: Known>(
    known: &K,
    importing: ModuleKind,
    line: u32,
    from: &Text,
    names: &[Import],
) -> Option<Fault>
    ensures { IsFirstOf (rule.members_faults (K.decisions known.now) importing line from.now names.now) result }
{
    if is_word(from, b"__future__") {
        fault_unless(is_annotations(names), line, Code::NoSuchModule)
    } else if is_word(from, b"typing") {
        typing_fault(line, names)
    } else if is_word(from, b"__static__") {
        static_fault(importing, line, names)
    } else if is_word(from, b"__host__") {
        None
    } else if is_word(from, b"__strict__") {
        fault_unless(false, line, Code::NoSuchModule)
    } else {
        taking_fault(line, names, known.verdict(from))
    }
}

/// Whether `annotations` stands there alone.
fn is_annotations(names: &[Import]) -> bool
    ensures { result ≡ rule.is_annotations names.now }
{
    match names {
        [import] => import.alias.is_none() && is_word(&import.name, b"annotations"),
        _ => false,
    }
}

fn typing_fault(line: u32, names: &[Import]) -> Option<Fault>
    ensures { IsFirstOf (rule.typing_faults line names.now) result }
{
    let mut first = None;
    for import in names {
        let is_there = typing_name(&import.name).is_some();
        first = earlier(first, fault_unless(is_there, line, Code::NoSuchName));
    }
    first
}

fn static_fault(importing: ModuleKind, line: u32, names: &[Import]) -> Option<Fault>
    ensures { IsFirstOf (rule.static_faults importing line names.now) result }
{
    let mut first = None;
    for import in names {
        let is_there = is_own_static(importing, &import.name);
        first = earlier(first, fault_unless(is_there, line, Code::NoSuchName));
    }
    first
}

/// Whether a module of that kind has that name of `__static__`.
fn is_own_static(importing: ModuleKind, name: &Text) -> bool
    ensures { result ≡ rule.is_own_static importing name.now }
{
    match importing {
        ModuleKind::Strict => false,
        ModuleKind::Static => own_static_name(name).is_some(),
    }
}

/// Of taking these names from a module of the folder.
fn taking_fault(line: u32, names: &[Import], verdict: Option<&Verdict>) -> Option<Fault>
    ensures { IsFirstOf (rule.taking_faults line names.now (option_copied verdict.entry)) result }
{
    match verdict {
        None => fault_unless(false, line, Code::NoSuchModule),
        Some(Verdict::Published(globals)) => missing(line, globals, names),
        Some(Verdict::Refused(_)) => fault_unless(false, line, Code::RefusedImport),
        Some(Verdict::Plain) => fault_unless(false, line, Code::PlainImport),
    }
}

fn missing(line: u32, globals: &Globals, names: &[Import]) -> Option<Fault>
    ensures { IsFirstOf (rule.missing line globals.now names.now) result }
{
    let mut first = None;
    for import in names {
        let is_there = globals.named(&import.name).is_some();
        first = earlier(first, fault_unless(is_there, line, Code::NoSuchName));
    }
    first
}

fn fault_unless(holds: bool, line: u32, code: Code) -> Option<Fault>
    ensures { IsFirstOf (rule.unless holds (fault line code)) result }
{
    if holds {
        None
    } else {
        Some(Fault { line, code })
    }
}
