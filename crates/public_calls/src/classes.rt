use module_load::preparing::parse;
use py_tree::text::Text;
use std::test::Fail;
use symbols::outer::{Outer, OuterBindings};
use symbols::resolve::resolve;

/// A class with a slot and a method, and one below it with another slot.
const TEXT: &str =
    "class A:\n    x: int\n    def f(self):\n        pass\n\nclass B(A):\n    y: int\n";

#[test]
fn members_are_those_of_the_classes_above_too(rt: HostRuntime) -> Result<(), Fail> {
    let alloc = rt.alloc();
    let x = Text::from_str(alloc, "x")?;
    let y = Text::from_str(alloc, "y")?;
    let f = Text::from_str(alloc, "f")?;
    let outer = Outer {
        name: Text::from_str(alloc, "m")?,
        number: 0,
        bindings: OuterBindings::new(alloc),
    };
    let tree = parse(alloc, TEXT.as_bytes()).or(Err("the module has a fault"))?;
    let resolved = resolve(alloc, &tree, &outer).or(Err("a name has a fault"))?;
    let classes = &resolved.classes;
    assert!(rt; classes.len() == 2);
    assert!(rt; classes.has_slot(1, &x));
    assert!(rt; classes.has_slot(1, &y));
    assert!(rt; !classes.has_slot(0, &y));
    assert!(rt; classes.has_method(1, &f));
    assert!(rt; !classes.has_method(1, &x));
    Ok(())
}
