use lists::ElementAt;
use module_load::folder::{ModuleFile, sources_of};
use std::alloc::Global;
use std::test::Fail;

/// Two modules that import each other, and one that imports the first and a module that isn't there.
const FILES: [(&str, &str); 3] = [
    ("a", "import __strict__\nimport b\n"),
    ("b", "import __strict__\nfrom a import X\n"),
    ("c", "import __static__\nimport zz, a\n"),
];

fn files(alloc: Global) -> Result<Vec<ModuleFile>, Fail> {
    let mut files = Vec::new(alloc);
    for (name, text) in FILES {
        files.push(ModuleFile {
            name: String::from_str(alloc, name)?,
            bytes: Vec::from_slice(alloc, text.as_bytes())?,
        })?;
    }
    Ok(files)
}

#[test]
fn a_folder_has_its_sources_and_their_imports(rt: HostRuntime) -> Result<(), Fail> {
    let alloc = rt.alloc();
    let files = files(alloc)?;
    assert!(rt; files.len() <= 4294967295);
    let all = sources_of(alloc, &files)?;
    assert!(rt; all.graph.count() == 3);
    assert_eq!(rt; all.graph.cyclic(0), Some(2));
    assert_eq!(rt; all.graph.need(2), [0].as_slice());
    assert!(rt; all.list.at(2).name.as_slice() == ['c'].as_slice());
    Ok(())
}
