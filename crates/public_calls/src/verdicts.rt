use registry_core::imports::Imports;
use std::sync::Arc;
use std::test::Fail;

#[test]
fn verdicts_are_found_by_their_modules(rt: HostRuntime) -> Result<(), Fail> {
    let alloc = rt.alloc();
    let mut imports = Imports::with_room(alloc, 2)?;
    imports.put(7, Arc::new(alloc, 'a')?);
    imports.put(3, Arc::new(alloc, 'b')?);
    assert_eq!(rt; imports.get(7).map(|verdict| **verdict), Some('a'));
    assert_eq!(rt; imports.get(3).map(|verdict| **verdict), Some('b'));
    assert_eq!(rt; imports.get(0).map(|verdict| **verdict), None);
    assert_eq!(rt; imports.as_slice().len(), 2);
    Ok(())
}
