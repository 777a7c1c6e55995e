use lists::Items;

/// The bytes of a name or of a file.
pub type Bytes = Items<u8>;

/// The numbers, from 1, of the calls that are to fail.
pub type CallList = Items<u64>;

/// The files of a directory in memory.
pub type FileList = Items<FileRow>;

/// The directories of a folder in memory.
pub type DirList = Items<DirRow>;

/// A file in memory.
#[derive(Debug, Drop)]
pub struct FileRow {
    pub name: Bytes,
    pub bytes: Bytes,
}

/// A directory in memory.
#[derive(Debug, Drop)]
pub struct DirRow {
    pub name: Bytes,
    pub files: FileList,
}
