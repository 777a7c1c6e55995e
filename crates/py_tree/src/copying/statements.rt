ghost use Rattle.std.specs.Prelude.{◌≡◌, IfOk};

use super::Duplicate;
use crate::statement::{
    Branch, Branches, ClassDef, Clause, Clauses, Function, Import, Module, Stmt, StmtKind, Stmts,
};
use sqlite_items::Boxed;
use std::alloc::{AllocError, Global};

impl Module {
    /// An equal tree. The stack that it takes is as deep as the tree.
    pub fn copy(&self, alloc: Global) -> Result<Module, AllocError>
        ensures equal { IfOk result (λ copy. copy ≡ self.now) }
    {
        Ok(Module {
            body: copy_all(alloc, &self.body)?,
        })
    }
}

impl Stmt {
    #[cycle(copy_stmt)]
    fn copy(&self, alloc: Global) -> Result<Stmt, AllocError>
        ensures { IfOk result (λ copy. copy ≡ self.now) }
    {
        Ok(Stmt {
            line: self.line,
            kind: self.kind.copy(alloc)?,
        })
    }
}

impl StmtKind {
    #[cycle(copy_stmt)]
    fn copy(&self, alloc: Global) -> Result<StmtKind, AllocError>
        ensures { IfOk result (λ copy. copy ≡ self.now) }
    {
        match self {
            StmtKind::Pass => Ok(StmtKind::Pass),
            StmtKind::Break => Ok(StmtKind::Break),
            StmtKind::Continue => Ok(StmtKind::Continue),
            StmtKind::Return(value) => Ok(StmtKind::Return(value.duplicate(alloc)?)),
            StmtKind::Raise(value) => Ok(StmtKind::Raise(value.duplicate(alloc)?)),
            StmtKind::Import(names) => Ok(StmtKind::Import(names.duplicate(alloc)?)),
            StmtKind::From { module, names } => Ok(StmtKind::From {
                module: module.copy(alloc)?,
                names: names.duplicate(alloc)?,
            }),
            StmtKind::Eval(e) => Ok(StmtKind::Eval(e.copy(alloc)?)),
            StmtKind::Assign(target, e) => {
                Ok(StmtKind::Assign(target.duplicate(alloc)?, e.copy(alloc)?))
            }
            StmtKind::Annotate(target, kind, e) => Ok(StmtKind::Annotate(
                target.duplicate(alloc)?,
                kind.duplicate(alloc)?,
                e.duplicate(alloc)?,
            )),
            StmtKind::Augment(target, op, e) => {
                Ok(StmtKind::Augment(target.duplicate(alloc)?, *op, e.copy(alloc)?))
            }
            StmtKind::If { branches, orelse } => Ok(StmtKind::If {
                branches: copy_branches(alloc, branches)?,
                orelse: copy_all(alloc, orelse)?,
            }),
            StmtKind::While(test, body) => {
                Ok(StmtKind::While(test.copy(alloc)?, copy_all(alloc, body)?))
            }
            StmtKind::For(target, e, body) => Ok(StmtKind::For(
                target.duplicate(alloc)?,
                e.duplicate(alloc)?,
                copy_all(alloc, body)?,
            )),
            StmtKind::Try(body, clauses) => {
                Ok(StmtKind::Try(copy_all(alloc, body)?, copy_clauses(alloc, clauses)?))
            }
            StmtKind::Def(function) => Ok(StmtKind::Def(copy_function(alloc, function)?)),
            StmtKind::Class(class) => Ok(StmtKind::Class(copy_class(alloc, class)?)),
        }
    }
}

impl Branch {
    #[cycle(copy_stmt)]
    fn copy(&self, alloc: Global) -> Result<Branch, AllocError>
        ensures { IfOk result (λ copy. copy ≡ self.now) }
    {
        Ok(Branch {
            line: self.line,
            test: self.test.copy(alloc)?,
            body: copy_all(alloc, &self.body)?,
        })
    }
}

impl Clause {
    #[cycle(copy_stmt)]
    fn copy(&self, alloc: Global) -> Result<Clause, AllocError>
        ensures { IfOk result (λ copy. copy ≡ self.now) }
    {
        Ok(Clause {
            matches: self.matches.duplicate(alloc)?,
            bind: self.bind.duplicate(alloc)?,
            body: copy_all(alloc, &self.body)?,
        })
    }
}

#[cycle(copy_stmt)]
fn copy_function(alloc: Global, function: &Boxed<Function>) -> Result<Boxed<Function>, AllocError>
    ensures { IfOk result (λ copy. copy ≡ function.now) }
{
    let Function {
        name,
        params,
        result: annotation,
        body,
    } = function.get();
    let copy = Function {
        name: name.copy(alloc)?,
        params: params.duplicate(alloc)?,
        result: annotation.duplicate(alloc)?,
        body: copy_all(alloc, body)?,
    };
    Boxed::new(alloc, copy)
}

#[cycle(copy_stmt)]
fn copy_class(alloc: Global, class: &Boxed<ClassDef>) -> Result<Boxed<ClassDef>, AllocError>
    ensures { IfOk result (λ copy. copy ≡ class.now) }
{
    let ClassDef { name, base, body } = class.get();
    let copy = ClassDef {
        name: name.copy(alloc)?,
        base: base.duplicate(alloc)?,
        body: copy_all(alloc, body)?,
    };
    Boxed::new(alloc, copy)
}

#[cycle(copy_stmt)]
fn copy_all(alloc: Global, all: &Stmts) -> Result<Stmts, AllocError>
    ensures { IfOk result (λ copy. copy ≡ all.now) }
{
    let mut copy = Stmts::new(alloc);
    for item in all.as_slice() {
        copy.push(item.copy(alloc)?)?;
    }
    Ok(copy)
}

#[cycle(copy_stmt)]
fn copy_branches(alloc: Global, all: &Branches) -> Result<Branches, AllocError>
    ensures { IfOk result (λ copy. copy ≡ all.now) }
{
    let mut copy = Branches::new(alloc);
    for item in all.as_slice() {
        copy.push(item.copy(alloc)?)?;
    }
    Ok(copy)
}

#[cycle(copy_stmt)]
fn copy_clauses(alloc: Global, all: &Clauses) -> Result<Clauses, AllocError>
    ensures { IfOk result (λ copy. copy ≡ all.now) }
{
    let mut copy = Clauses::new(alloc);
    for item in all.as_slice() {
        copy.push(item.copy(alloc)?)?;
    }
    Ok(copy)
}

impl Duplicate for Import {
    fn duplicate(&self, alloc: Global) -> Result<Import, AllocError> {
        Ok(Import {
            name: self.name.copy(alloc)?,
            alias: self.alias.duplicate(alloc)?,
        })
    }
}
