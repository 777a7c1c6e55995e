use loader_gate::gate::OpenGate;
use outside::memory_folder::MemoryFolder;
use outside::memory_sink::MemorySink;
use outside::rows::{Bytes, CallList, DirList, DirRow, FileList, FileRow};
use std::alloc::{AllocError, Global};
use std::process::Abort;
use std::test::Fail;
use strict_top::run::run_many;
use strict_top::status::Status;

/// The modules of the directory `d`: one that needs the next, one that is refused, and one that imports it.
const FILES: [(&str, &str); 4] = [
    ("a.py", "import __strict__\nfrom b import X\nY = 1\n"),
    ("b.py", "import __strict__\nX = 1\n"),
    ("c.py", "import __strict__\nX = = 1\n"),
    ("d.py", "import __strict__\nfrom c import X\n"),
];

/// What is reported of them.
const REPORT: &str = "module a published 2
module b published 1
module c refused line 2 E05
module d refused line 2 N13
";

fn files(alloc: Global) -> Result<FileList, AllocError> {
    let mut files = FileList::new(alloc);
    for (name, text) in FILES {
        files.push(FileRow {
            name: Bytes::from_slice(alloc, name.as_bytes())?,
            bytes: Bytes::from_slice(alloc, text.as_bytes())?,
        })?;
    }
    Ok(files)
}

fn folder(rt: &(impl Abort + AllocGlobal)) -> Result<MemoryFolder, AllocError> {
    let alloc = rt.alloc();
    let mut dirs = DirList::new(alloc);
    let name = Bytes::from_slice(alloc, b"d")?;
    let files = files(alloc)?;
    dirs.push(DirRow { name, files })?;
    assert!(rt; MemoryFolder::takes(dirs.as_slice()));
    Ok(MemoryFolder::new(dirs, CallList::new(alloc)))
}

#[test]
fn every_number_of_loaders_gives_the_same_report(rt: HostRuntime) -> Result<(), Fail> {
    let alloc = rt.alloc();
    for loaders in [1, 2, 8] {
        assert!(rt; 1 <= loaders && loaders <= 64);
        let mut words = Vec::new(alloc);
        words.push(String::from_str(alloc, "d")?)?;
        let mut folder = folder(&rt)?;
        let mut sink = MemorySink::new(alloc, 8, CallList::new(alloc));
        let answer = run_many(
            &rt,
            alloc,
            &words,
            &mut folder,
            &mut sink,
            loaders,
            &OpenGate,
        );
        assert_eq!(rt; answer, Status::Refused);
        assert_eq!(rt; sink.written(), REPORT.as_bytes());
    }
    Ok(())
}
