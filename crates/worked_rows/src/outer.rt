use py_tree::expression::Texts;
use py_tree::text::Text;
use py_values::class_id::ClassId;
use std::alloc::{AllocError, Global};
use symbols::class::ClassKind;
use symbols::outer::{ModuleClass, ModuleClasses, Outer, OuterBinding, OuterBindings, OuterKind};

/// What the rows of names are resolved against: as `m` a module with the class `C`, the class `D`, and `f`.
pub fn outer(alloc: Global) -> Result<Outer, AllocError> {
    let mut bindings = OuterBindings::new(alloc);
    bindings.push(binding(alloc, "m", OuterKind::Module(module(alloc)?))?)?;
    bindings.push(binding(alloc, "D", OuterKind::Class(class(alloc, 1)?))?)?;
    bindings.push(binding(alloc, "f", OuterKind::Other)?)?;
    Ok(Outer {
        name: Text::from_str(alloc, "here")?,
        number: 7,
        bindings,
    })
}

fn binding(alloc: Global, name: &str, kind: OuterKind) -> Result<OuterBinding, AllocError> {
    let name = Text::from_str(alloc, name)?;
    Ok(OuterBinding { name, kind })
}

fn module(alloc: Global) -> Result<ModuleClasses, AllocError> {
    let mut classes = ModuleClasses::new(alloc);
    classes.push(ModuleClass {
        name: Text::from_str(alloc, "C")?,
        class: class(alloc, 0)?,
    })?;
    Ok(classes)
}

/// A class of the imported module, with one slot and one method.
fn class(alloc: Global, number: u32) -> Result<ClassKind, AllocError> {
    Ok(ClassKind {
        id: ClassId::User { home: 3, number },
        slots: one(alloc, "slot")?,
        methods: one(alloc, "method")?,
    })
}

fn one(alloc: Global, name: &str) -> Result<Texts, AllocError> {
    let mut names = Texts::new(alloc);
    names.push(Text::from_str(alloc, name)?)?;
    Ok(names)
}
