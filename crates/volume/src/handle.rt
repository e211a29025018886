// An open handle, and what was reported of a file.

// An open handle: its node, its position, and whether it may write.
#[derive(Clone, Copy, PartialEq, Eq, Debug)]
pub struct Handle {
    pub node: u64,
    pub position: u64,
    pub writable: bool,
}

// A file and the size that get_info reported of it.
#[derive(Clone, Copy, PartialEq, Eq, Debug)]
pub struct Reported {
    pub file: u64,
    pub size: u64,
}

// What an open handle is on.
#[derive(Clone, Copy, PartialEq, Eq, Debug)]
pub enum NodeKind {
    File,
    Directory,
}
