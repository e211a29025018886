// EFI_FILE_SYSTEM_VOLUME_LABEL: a volume's label alone.
ghost use Rattle.std.specs.Prelude.{◌≡◌};
ghost use Rattle.uefi_info.specs.Infos.{volume_label_of, volume_label_header, volume_label_bytes};
ghost use Rattle.uefi_info.specs.Parsed.{from_uefi, Reads, Rebuilds, building, written as in_front, ReadsBack};
ghost use Rattle.uefi_info.specs.Refusals.{refused, told_info};
ghost use Rattle.std.proofs.Common.{rules};

use crate::info::{
    FileInfoCreationError, FromUefiError, InfoInternal, NamedInfo, build, from_uefi,
};
use crate::name::ShortBuffer;
use uefi_types::Align;

// The record has no header: it is the label.
#[derive(Clone, Copy, PartialEq, Eq, Debug)]
pub struct FileSystemVolumeLabel;

impl Align for FileSystemVolumeLabel {
    ghost align = { 2 };

    ghost bounds = { Prim.search rules };

    fn alignment() -> usize {
        2
    }
}

impl InfoInternal for FileSystemVolumeLabel {
    ghost offset = { 0 };

    ghost header_of = { volume_label_of };

    ghost header_bytes = { volume_label_header };

    ghost clean = { λ _. Unit {0} };

    ghost sized = { Prim.search rules };

    ghost bounds = { Prim.search rules };

    fn name_offset() -> usize {
        0
    }

    fn read_header(_bytes: &[u8]) -> FileSystemVolumeLabel {
        FileSystemVolumeLabel
    }

    fn write_header(&self, _out: &mut [u8]) -> Result<(), ShortBuffer> {
        Ok(())
    }
}

impl FileSystemVolumeLabel {
    // Builds a label's record in front of a buffer, and answers its length. A refusal leaves the buffer as it was.
    pub fn new(storage: &mut [u8], volume_label: &[u16]) -> Result<usize, FileInfoCreationError>
        ensures value { refused result ≡ building 0 2 volume_label.now storage.old }
        ensures after { storage.new ≡ in_front (volume_label_bytes volume_label.now) (refused result) storage.old }
        ensures back { ReadsBack volume_label_of 0 2 (volume_label_of storage.new) volume_label.now storage.new (refused result) }
    {
        build(storage, &FileSystemVolumeLabel, volume_label)
    }

    // The label's record in a buffer of which the firmware wrote the first `written` bytes.
    pub fn from_uefi(
        buffer: &[u8],
        written: usize,
    ) -> Result<NamedInfo<'_, FileSystemVolumeLabel>, FromUefiError>
        ensures value { told_info result ≡ from_uefi volume_label_of 0 2 buffer.now written }
        ensures law { Reads 0 2 buffer.now written (told_info result) }
        ensures back { Rebuilds volume_label_header (λ _. Unit {0}) 0 2 buffer.now (told_info result) }
    {
        from_uefi(buffer, written)
    }
}
