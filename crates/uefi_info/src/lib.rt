// Information records of the UEFI file protocol: read from and built in the caller's buffers.
#![tactic(auto)]

mod file_info;
mod file_system_info;
mod info;
mod name;
mod volume_label;

pub use file_info::FileInfo;
pub use file_system_info::FileSystemInfo;
pub use info::{FileInfoCreationError, FromUefiError, InfoInternal, NamedInfo, build, from_uefi};
pub use name::{Name, ShortBuffer, Units};
pub use volume_label::FileSystemVolumeLabel;
