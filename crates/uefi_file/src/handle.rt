// Handles of open files. None of these types may be let go: a handle is closed, deleted or handed on.

// An open file or directory of a volume.
pub struct FileHandle {
    pub(super) number: u64,
}

// A handle that is known to be a file's.
pub struct RegularFile {
    pub(super) handle: FileHandle,
}

// A handle that is known to be a directory's.
pub struct Directory {
    pub(super) handle: FileHandle,
}

// What a handle turned out to be.
pub enum FileType {
    Regular(RegularFile),
    Dir(Directory),
}
