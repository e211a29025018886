// EFI_FILE_SYSTEM_INFO: what a volume is.
ghost use Rattle.std.specs.Prelude.{◌≡◌};
ghost use Rattle.uefi_info.specs.Infos.{file_system_info_of, file_system_info_header, file_system_info_for, file_system_info_bytes, CleanVolume};
ghost use Rattle.uefi_info.specs.Parsed.{from_uefi, Reads, Rebuilds, building, written as in_front, ReadsBack};
ghost use Rattle.uefi_info.specs.Refusals.{refused, told_info};
ghost use Rattle.std.proofs.Common.{rules};
ghost use Rattle.uefi_info.specs.Layouts.{file_system_info_length_lem};

use crate::info::{
    FileInfoCreationError, FromUefiError, InfoInternal, NamedInfo, build, from_uefi, record_size,
};
use crate::name::ShortBuffer;
use uefi_types::{Align, read_field};

// The header of the record; the volume's label follows it.
#[derive(Clone, Copy, PartialEq, Eq, Debug)]
pub struct FileSystemInfo {
    size: u64,
    read_only: bool,
    volume_size: u64,
    free_space: u64,
    block_size: u32,
}

impl Align for FileSystemInfo {
    ghost align = { 8 };

    ghost bounds = { Prim.search rules };

    fn alignment() -> usize {
        8
    }
}

impl InfoInternal for FileSystemInfo {
    ghost offset = { 36 };

    ghost header_of = { file_system_info_of };

    ghost header_bytes = { file_system_info_header };

    ghost clean = { CleanVolume };

    ghost sized = { file_system_info_length_lem };

    ghost bounds = { Prim.search rules };

    fn name_offset() -> usize {
        36
    }

    fn read_header(bytes: &[u8]) -> FileSystemInfo {
        FileSystemInfo {
            size: read_field(bytes, 0, 8),
            read_only: read_field(bytes, 8, 1) != 0,
            volume_size: read_field(bytes, 16, 8),
            free_space: read_field(bytes, 24, 8),
            block_size: read_field(bytes, 32, 4) as u32,
        }
    }

    fn write_header(&self, out: &mut [u8]) -> Result<(), ShortBuffer> {
        if out.len() < 36 {
            return Err(ShortBuffer { needed: 36 });
        }
        let FileSystemInfo {
            size,
            read_only,
            volume_size,
            free_space,
            block_size,
        } = *self;
        out[0..8].copy_from_slice(&size.to_le_bytes());
        // one byte, and seven that are not used
        out[8..16].copy_from_slice(&u64::from(read_only).to_le_bytes());
        out[16..24].copy_from_slice(&volume_size.to_le_bytes());
        out[24..32].copy_from_slice(&free_space.to_le_bytes());
        out[32..36].copy_from_slice(&block_size.to_le_bytes());
        Ok(())
    }
}

impl FileSystemInfo {
    // Builds a volume's record in front of a buffer, and answers its length. A refusal leaves the buffer as it was.
    // The arguments are those of the Rust.
    pub fn new(
        storage: &mut [u8],
        read_only: bool,
        volume_size: u64,
        free_space: u64,
        block_size: u32,
        volume_label: &[u16],
    ) -> Result<usize, FileInfoCreationError>
        ensures value { refused result ≡ building 36 8 volume_label.now storage.old }
        ensures after { storage.new ≡ in_front (file_system_info_bytes read_only volume_size free_space block_size volume_label.now) (refused result) storage.old }
        ensures back { ReadsBack file_system_info_of 36 8 (file_system_info_for read_only volume_size free_space block_size volume_label.now) volume_label.now storage.new (refused result) }
    {
        let header = FileSystemInfo {
            size: record_size::<FileSystemInfo>(volume_label.len()) as u64,
            read_only,
            volume_size,
            free_space,
            block_size,
        };
        build(storage, &header, volume_label)
    }

    // The volume's record in a buffer of which the firmware wrote the first `written` bytes.
    pub fn from_uefi(
        buffer: &[u8],
        written: usize,
    ) -> Result<NamedInfo<'_, FileSystemInfo>, FromUefiError>
        ensures value { told_info result ≡ from_uefi file_system_info_of 36 8 buffer.now written }
        ensures law { Reads 36 8 buffer.now written (told_info result) }
        ensures back { Rebuilds file_system_info_header CleanVolume 36 8 buffer.now (told_info result) }
    {
        from_uefi(buffer, written)
    }

    // The size that the record tells of itself.
    pub fn size(&self) -> u64
        ensures { result ≡ self.now.size }
    {
        self.size
    }

    // Whether the volume can only be read.
    pub fn read_only(&self) -> bool
        ensures { result ≡ self.now.read_only }
    {
        self.read_only
    }

    // How many bytes the volume has.
    pub fn volume_size(&self) -> u64
        ensures { result ≡ self.now.volume_size }
    {
        self.volume_size
    }

    // How many of them are free.
    pub fn free_space(&self) -> u64
        ensures { result ≡ self.now.free_space }
    {
        self.free_space
    }

    // By how many bytes files nominally grow.
    pub fn block_size(&self) -> u32
        ensures { result ≡ self.now.block_size }
    {
        self.block_size
    }
}
