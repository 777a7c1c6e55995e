ghost use Rattle.std.specs.Prelude.{◌≡◌, ◌<◌, Some, IfOk, length, map, slice_get};
ghost use Rattle.py_tree.specs.Joined.{function_of, module_of, statements_of};
ghost use Rattle.py_tree.specs.Order.{of_scope};
ghost use Rattle.symbols.specs.Answers.{IsResolved};
ghost use Rattle.symbols.specs.Bindings as bound;
ghost use Rattle.symbols.specs.Functions.{function_locals};
ghost use Rattle.symbols.specs.Views.{seen};
ghost use Rattle.symbols.specs.declared.outer.Outer.{Outer};
ghost use Rattle.py_meaning.specs.Modules.{functions as spec_functions};
ghost use Rattle.compile_plain.specs.Standing.{StandsIn, function_code};
ghost use Rattle.compile_plain.specs.Statements.{body_code};
ghost use Rattle.compile_plain.specs.Tables.{blocks_of, code_in, codes_of, function_in, own_names, targets_at};
ghost use Rattle.compile_plain.specs.Scopes.{names_of, tree_of};

use crate::block::Block;
use crate::functions::{FunctionIn, def_places, functions_of, method_places};
use crate::locals::Locals;
use crate::module_names::ModuleNames;
use crate::name_places::{class_places, places_of};
use crate::row_ends::end_of_rows;
use crate::scope::Scope;
use crate::site::Site;
use crate::stmts::put_rows;
use crate::targets::Targets;
use bytecode::instr::{Cell, Handler, Instr};
use bytecode::program::{CodeBlock, CodeBlocks, Program};
use lists::{ElementAt, Items};
use py_tree::expression::Texts;
use py_tree::statement::Stmt;
use std::alloc::{AllocError, Global};
use symbols::binding::Binding;
use symbols::bindings::bindings_of;
use symbols::bound_names::statics_of;
use symbols::imports::module_kind;
use symbols::resolved::Resolved;
use symbols::scope::scope_of;

/// The code of a module. In time linear in its text, but for one walk a nesting level.
pub fn compile_body(alloc: Global, resolved: &Resolved) -> Result<Program, AllocError>
    requires { (o : Outer) × IsResolved o resolved.now.tree resolved.now }
    ensures name { IfOk result (λ program. program.name ≡ resolved.now.name) }
    ensures tree { IfOk result (λ program. program.tree ≡ resolved.now.tree) }
    // The code stands for the trees, over all images that agree with what the module was resolved against.
    ensures stands { IfOk result (λ program. (o : Outer) → IsResolved o resolved.now.tree resolved.now → StandsIn o (module_of resolved.now.tree) program.body.cells (blocks_of program.functions)) }
{
    let body = resolved.tree.body.as_slice();
    let bindings = bindings_of(alloc, body)?;
    let scope = scope_of(alloc, body)?;
    let functions = functions_of(alloc, scope.as_slice())?;
    let names = module_names(
        alloc,
        resolved,
        bindings.as_slice(),
        scope.as_slice(),
        functions.as_slice(),
    )?;
    Ok(Program {
        name: resolved.name.copy(alloc)?,
        tree: resolved.tree.copy(alloc)?,
        body: compile_own(alloc, &names, body)?,
        functions: compile_all(alloc, resolved, &names, functions.as_slice())?,
    })
}

/// The code of the function with that number.
pub fn compile_function(
    alloc: Global,
    resolved: &Resolved,
    number: u32,
) -> Result<CodeBlock, AllocError>
    requires resolved { (o : Outer) × IsResolved o resolved.now.tree resolved.now }
    requires number { number < length (spec_functions (module_of resolved.now.tree)) }
    // It is the one with that number of those that stand for the functions.
    ensures { IfOk result (λ block. (o : Outer) → slice_get (map (function_code o (module_of resolved.now.tree)) (spec_functions (module_of resolved.now.tree))) number ≡ Some block.cells) }
{
    let body = resolved.tree.body.as_slice();
    let bindings = bindings_of(alloc, body)?;
    let scope = scope_of(alloc, body)?;
    let functions = functions_of(alloc, scope.as_slice())?;
    let names = module_names(
        alloc,
        resolved,
        bindings.as_slice(),
        scope.as_slice(),
        functions.as_slice(),
    )?;
    compile_numbered(
        alloc,
        resolved,
        &names,
        functions.as_slice(),
        number as usize,
    )
}

/// The code of the function at a place among the module's functions.
fn compile_numbered(
    alloc: Global,
    resolved: &Resolved,
    names: &ModuleNames<'_>,
    functions: &[FunctionIn<'_>],
    number: usize,
) -> Result<CodeBlock, AllocError>
    requires locals { resolved.now.functions ≡ function_locals (tree_of names.now) }
    requires functions { map function_in functions.now ≡ spec_functions (tree_of names.now) }
    requires number { number < length (spec_functions (tree_of names.now)) }
    ensures { IfOk result (λ block. (o : Outer) → slice_get (map (function_code o (tree_of names.now)) (spec_functions (tree_of names.now))) number ≡ Some block.cells) }
{
    let locals = &resolved.functions.at(number).locals;
    compile_known(alloc, names, functions[number], locals)
}

/// The names of a module that was resolved, with these bindings, statements and functions.
fn module_names<'a>(
    alloc: Global,
    resolved: &'a Resolved,
    bindings: &'a [Binding],
    scope: &[&'a Stmt],
    functions: &[FunctionIn<'a>],
) -> Result<ModuleNames<'a>, AllocError>
    requires globals { resolved.now.globals ≡ bound.globals (module_of resolved.now.tree) }
    requires bindings { bindings.now ≡ bound.bindings (module_of resolved.now.tree) }
    requires scope { seen scope.now ≡ of_scope (module_of resolved.now.tree) }
    requires functions { map function_in functions.now ≡ spec_functions (module_of resolved.now.tree) }
    ensures { IfOk result (λ names. tree_of names ≡ module_of resolved.now.tree) }
{
    let kind = module_kind(resolved.tree.body.as_slice());
    Ok(ModuleNames {
        tree: &resolved.tree,
        globals: places_of(alloc, resolved.globals.as_slice())?,
        statics: statics_of(alloc, kind, bindings)?,
        classes: class_places(alloc, scope)?,
        defs: def_places(alloc, functions)?,
        methods: method_places(alloc, functions)?,
    })
}

fn compile_all(
    alloc: Global,
    resolved: &Resolved,
    names: &ModuleNames<'_>,
    functions: &[FunctionIn<'_>],
) -> Result<CodeBlocks, AllocError>
    requires locals { resolved.now.functions ≡ function_locals (tree_of names.now) }
    requires functions { map function_in functions.now ≡ spec_functions (tree_of names.now) }
    ensures { IfOk result (λ blocks. blocks_of blocks ≡ codes_of (tree_of names.now) (spec_functions (tree_of names.now))) }
{
    let mut blocks = CodeBlocks::new(alloc);
    for (number, known) in functions.iter().enumerate() {
        let locals = &resolved.functions.at(number).locals;
        blocks.push(compile_known(alloc, names, *known, locals)?)?;
    }
    Ok(blocks)
}

/// The code of a function with these locals.
fn compile_known(
    alloc: Global,
    names: &ModuleNames<'_>,
    known: FunctionIn<'_>,
    locals: &Texts,
) -> Result<CodeBlock, AllocError>
    requires { locals.now ≡ bound.locals (function_of known.function.now) }
    ensures { IfOk result (λ block. block.cells ≡ code_in (tree_of names.now) (function_in known.entry)) }
{
    let scope = Scope {
        module: names,
        class: known.class,
        locals: Some(Locals::of(alloc, locals)?),
    };
    compile_block(alloc, &scope, known.function.body.as_slice())
}

/// The code of a module's own body.
fn compile_own(
    alloc: Global,
    names: &ModuleNames<'_>,
    body: &[Stmt],
) -> Result<CodeBlock, AllocError>
    ensures { IfOk result (λ block. block.cells ≡ body_code (own_names (tree_of names.now)) (statements_of body.now)) }
{
    let scope = Scope {
        module: names,
        class: None,
        locals: None,
    };
    compile_block(alloc, &scope, body)
}

/// The code of a body in that scope.
fn compile_block(alloc: Global, scope: &Scope<'_>, body: &[Stmt]) -> Result<CodeBlock, AllocError>
    ensures { IfOk result (λ block. block.cells ≡ body_code (names_of scope.now) (statements_of body.now)) }
{
    let cells = cells_of(alloc, scope, body)?;
    Ok(CodeBlock { cells })
}

fn cells_of(alloc: Global, scope: &Scope<'_>, body: &[Stmt]) -> Result<Items<Cell>, AllocError>
    ensures { IfOk result (λ cells. cells ≡ body_code (names_of scope.now) (statements_of body.now)) }
{
    let site = &Site {
        alloc,
        scope,
        targets: outermost(end_of_rows(body, scope, 0)?),
    };
    let mut block = Block::new(alloc);
    put_rows(body, site, &mut block)?;
    site.put(Instr::Nil, &mut block)?;
    site.put(Instr::Return { clauses: 0 }, &mut block)?;
    Ok(block.cells)
}

/// In a block nothing is outside: there `break` and `continue` go to its end.
fn outermost(end: u32) -> Targets
    ensures { result ≡ targets_at end }
{
    Targets {
        broke: end,
        continued: end,
        in_loop: 0,
        in_block: 0,
        raised: Handler {
            place: None,
            clauses: 0,
            loops: 0,
        },
    }
}
