use outside::disk_folder::DiskFolder;
use outside::folder::{Folder, FolderFault};
use std::test::Fail;
use std::{env, fs, process};

#[test]
fn lists_and_reads_a_directory_of_the_system(rt: HostRuntime) -> Result<(), Fail> {
    let alloc = rt.alloc();
    let temporary = env::temp_dir(&rt)?;
    let name = format!(in alloc; "outside-{}", process::id(rt.process()))?;
    let dir = temporary.join(alloc, name.as_str())?;
    fs::create_dir_all(&rt, dir.join(alloc, "inner")?)?;
    fs::write(&rt, dir.join(alloc, "a.py")?, "import b\n")?;

    let mut folder = DiskFolder::new(&rt);
    let text = dir.to_str().ok_or("a path is text")?;
    let names = folder.list(alloc, text)?;
    assert_eq!(rt; names.len(), 1);
    assert_eq!(rt; names[0].as_str(), "a.py");
    let bytes = folder.read(alloc, text, "a.py")?;
    assert_eq!(rt; bytes.as_slice(), b"import b\n".as_slice());

    fs::remove_dir_all(&rt, &dir)?;
    assert_eq!(rt; folder.list(alloc, text).err(), Some(FolderFault::Failed));
    Ok(())
}
