use outside::memory_folder::MemoryFolder;
use outside::memory_sink::MemorySink;
use outside::rows::{Bytes, CallList, DirList, DirRow, FileList, FileRow};
use std::alloc::{AllocError, Global};
use std::process::Abort;
use std::test::Fail;
use strict_top::run::run_one;
use strict_top::status::Status;

/// The directory `d` with this file. The folder fails at the calls of these numbers.
fn folder_of(
    rt: &(impl Abort + AllocGlobal),
    text: &str,
    failing: &[u64],
) -> Result<MemoryFolder, AllocError> {
    let alloc = rt.alloc();
    let mut files = FileList::new(alloc);
    files.push(FileRow {
        name: Bytes::from_slice(alloc, b"a.py")?,
        bytes: Bytes::from_slice(alloc, text.as_bytes())?,
    })?;
    let mut dirs = DirList::new(alloc);
    let name = Bytes::from_slice(alloc, b"d")?;
    dirs.push(DirRow { name, files })?;
    assert!(rt; MemoryFolder::takes(dirs.as_slice()));
    Ok(MemoryFolder::new(dirs, CallList::from_slice(alloc, failing)?))
}

/// A sink that takes 8 bytes at once, and fails at the calls of these numbers.
fn sink(alloc: Global, failing: &[u64]) -> Result<MemorySink, AllocError> {
    Ok(MemorySink::new(alloc, 8, CallList::from_slice(alloc, failing)?))
}

/// Runs on one word, and compares the answer and the bytes written.
fn assert_run(
    rt: &(impl Abort + AllocGlobal),
    word: &str,
    mut folder: MemoryFolder,
    mut sink: MemorySink,
    status: Status,
    report: &str,
) -> Result<(), AllocError> {
    let alloc = rt.alloc();
    let mut words = Vec::new(alloc);
    words.push(String::from_str(alloc, word)?)?;
    let answer = run_one(alloc, &words, &mut folder, &mut sink);
    assert_eq!(rt; answer, status, "for {word}");
    assert_eq!(rt; sink.written(), report.as_bytes(), "for {word}");
    Ok(())
}

#[test]
fn a_report_is_written_piece_by_piece(rt: HostRuntime) -> Result<(), Fail> {
    let folder = folder_of(&rt, "import __strict__\nX = 1\n", &[])?;
    let report = "module a published 1\n";
    assert_run(
        &rt,
        "d",
        folder,
        sink(rt.alloc(), &[])?,
        Status::Done,
        report,
    )?;
    Ok(())
}

#[test]
fn words_that_are_not_taken_are_reported(rt: HostRuntime) -> Result<(), Fail> {
    let folder = folder_of(&rt, "", &[])?;
    assert_run(
        &rt,
        "-d",
        folder,
        sink(rt.alloc(), &[])?,
        Status::BadWords,
        "bad words\n",
    )?;
    Ok(())
}

#[test]
fn nothing_is_written_where_the_folder_fails(rt: HostRuntime) -> Result<(), Fail> {
    let folder = folder_of(&rt, "", &[2])?;
    assert_run(
        &rt,
        "d",
        folder,
        sink(rt.alloc(), &[])?,
        Status::FolderFault,
        "",
    )?;
    Ok(())
}

#[test]
fn a_sink_that_fails_has_the_first_bytes(rt: HostRuntime) -> Result<(), Fail> {
    let folder = folder_of(&rt, "import __strict__\n", &[])?;
    assert_run(
        &rt,
        "d",
        folder,
        sink(rt.alloc(), &[2])?,
        Status::SinkFault,
        "module a",
    )?;
    Ok(())
}
