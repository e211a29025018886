// EFI_FILE_INFO: what a file is.
ghost use Rattle.std.specs.Prelude.{◌≡◌, not, length};
ghost use Rattle.uefi_types.specs.Modes.{has_bit, directory_bit};
ghost use Rattle.uefi_info.specs.Infos.{file_info_of, file_info_header, file_info_for, file_info_bytes, file_info_length, FileA};
ghost use Rattle.uefi_info.specs.Parsed.{from_uefi, Reads, Rebuilds, building, written as in_front, ReadsBack};
ghost use Rattle.uefi_info.specs.Refusals.{refused, told_info};
ghost use Rattle.std.proofs.Common.{rules};
ghost use Rattle.uefi_info.specs.Layouts.{file_info_length_lem};

use crate::info::{
    FileInfoCreationError, FromUefiError, InfoInternal, NamedInfo, build, from_uefi, record_size,
};
use crate::name::ShortBuffer;
use uefi_time::Time;
use uefi_types::{Align, FileAttribute, part, read_field};

// The header of the record; the file's name follows it.
#[derive(Clone, Copy, PartialEq, Eq, Debug)]
pub struct FileInfo {
    size: u64,
    file_size: u64,
    physical_size: u64,
    create_time: Time,
    last_access_time: Time,
    modification_time: Time,
    attribute: FileAttribute,
}

impl Align for FileInfo {
    ghost align = { 8 };

    ghost bounds = { Prim.search rules };

    fn alignment() -> usize {
        8
    }
}

impl InfoInternal for FileInfo {
    ghost offset = { 80 };

    ghost header_of = { file_info_of };

    ghost header_bytes = { file_info_header };

    ghost clean = { λ _. Unit {0} };

    ghost sized = { file_info_length_lem };

    ghost bounds = { Prim.search rules };

    fn name_offset() -> usize {
        80
    }

    fn read_header(bytes: &[u8]) -> FileInfo {
        FileInfo {
            size: read_field(bytes, 0, 8),
            file_size: read_field(bytes, 8, 8),
            physical_size: read_field(bytes, 16, 8),
            create_time: Time::read(part(bytes, 24, 16)),
            last_access_time: Time::read(part(bytes, 40, 16)),
            modification_time: Time::read(part(bytes, 56, 16)),
            attribute: FileAttribute(read_field(bytes, 72, 8)),
        }
    }

    fn write_header(&self, out: &mut [u8]) -> Result<(), ShortBuffer> {
        if out.len() < 80 {
            return Err(ShortBuffer { needed: 80 });
        }
        let FileInfo {
            size,
            file_size,
            physical_size,
            create_time,
            last_access_time,
            modification_time,
            attribute: FileAttribute(bits),
        } = *self;
        out[0..8].copy_from_slice(&size.to_le_bytes());
        out[8..16].copy_from_slice(&file_size.to_le_bytes());
        out[16..24].copy_from_slice(&physical_size.to_le_bytes());
        out[24..40].copy_from_slice(&<[u8; 16]>::from(create_time));
        out[40..56].copy_from_slice(&<[u8; 16]>::from(last_access_time));
        out[56..72].copy_from_slice(&<[u8; 16]>::from(modification_time));
        out[72..80].copy_from_slice(&bits.to_le_bytes());
        Ok(())
    }
}

impl FileInfo {
    // Builds a file's record in front of a buffer, and answers its length. A refusal leaves the buffer as it was.
    // The arguments are those of the Rust.
    pub fn new(
        storage: &mut [u8],
        file_size: u64,
        physical_size: u64,
        create_time: Time,
        last_access_time: Time,
        modification_time: Time,
        attribute: FileAttribute,
        file_name: &[u16],
    ) -> Result<usize, FileInfoCreationError>
        ensures value { refused result ≡ building 80 8 file_name.now storage.old }
        ensures after { storage.new ≡ in_front (file_info_bytes file_size physical_size create_time last_access_time modification_time attribute.0 file_name.now) (refused result) storage.old }
        ensures length { length (file_info_bytes file_size physical_size create_time last_access_time modification_time attribute.0 file_name.now) ≡ file_info_length file_name.now }
        ensures back { ReadsBack file_info_of 80 8 (file_info_for file_size physical_size create_time last_access_time modification_time attribute.0 file_name.now) file_name.now storage.new (refused result) }
    {
        let header = FileInfo {
            size: record_size::<FileInfo>(file_name.len()) as u64,
            file_size,
            physical_size,
            create_time,
            last_access_time,
            modification_time,
            attribute,
        };
        build(storage, &header, file_name)
    }

    // The file's record in a buffer of which the firmware wrote the first `written` bytes.
    pub fn from_uefi(
        buffer: &[u8],
        written: usize,
    ) -> Result<NamedInfo<'_, FileInfo>, FromUefiError>
        ensures value { told_info result ≡ from_uefi file_info_of 80 8 buffer.now written }
        ensures law { Reads 80 8 buffer.now written (told_info result) }
        ensures back { Rebuilds file_info_header (λ _. Unit {0}) 80 8 buffer.now (told_info result) }
        ensures one_unit_name { FileA buffer.now written (told_info result) }
    {
        from_uefi(buffer, written)
    }

    // The size that the record tells of itself.
    pub fn size(&self) -> u64
        ensures { result ≡ self.now.size }
    {
        self.size
    }

    // How many bytes the file holds.
    pub fn file_size(&self) -> u64
        ensures { result ≡ self.now.file_size }
    {
        self.file_size
    }

    // How many bytes it takes on the volume.
    pub fn physical_size(&self) -> u64
        ensures { result ≡ self.now.physical_size }
    {
        self.physical_size
    }

    pub fn create_time(&self) -> &Time
        ensures { result.now ≡ self.now.create_time }
    {
        &self.create_time
    }

    pub fn last_access_time(&self) -> &Time
        ensures { result.now ≡ self.now.last_access_time }
    {
        &self.last_access_time
    }

    pub fn modification_time(&self) -> &Time
        ensures { result.now ≡ self.now.modification_time }
    {
        &self.modification_time
    }

    pub fn attribute(&self) -> FileAttribute
        ensures { result ≡ self.now.attribute }
    {
        self.attribute
    }

    pub fn is_directory(&self) -> bool
        ensures { result ≡ has_bit directory_bit self.now.attribute.0 }
    {
        self.attribute.contains(FileAttribute::DIRECTORY)
    }

    pub fn is_regular_file(&self) -> bool
        ensures { result ≡ not (has_bit directory_bit self.now.attribute.0) }
    {
        !self.is_directory()
    }
}
