// The file protocol over any volume: handles, chunked reads, records and entries.
#![tactic(auto)]

mod dir;
mod error;
mod file;
mod handle;
mod info;
mod regular;
mod util;

pub use file::{File, open_volume};
pub use handle::{Directory, FileHandle, FileType, RegularFile};
pub use util::{FetchData, make_boxed};
