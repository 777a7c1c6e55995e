use lists::Items;
use module_load::globals::{Globals, ModuleGlobal};
use py_tree::text::Text;
use std::test::Fail;

#[test]
fn a_global_is_found_by_its_name(rt: HostRuntime) -> Result<(), Fail> {
    let alloc = rt.alloc();
    let mut rows = Items::new(alloc);
    rows.push(ModuleGlobal {
        name: Text::from_str(alloc, "a")?,
        holds_module: false,
    })?;
    rows.push(ModuleGlobal {
        name: Text::from_str(alloc, "b")?,
        holds_module: true,
    })?;
    let globals = Globals::from_rows(alloc, rows)?;
    assert_eq!(rt; globals.len(), 2);
    let found = globals.named(&Text::from_str(alloc, "b")?);
    assert!(rt; found.is_some_and(|global| global.holds_module));
    assert!(rt; globals.named(&Text::from_str(alloc, "c")?).is_none());
    Ok(())
}
