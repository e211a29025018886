// Records that stand in the caller's buffer.
ghost use Rattle.std.specs.Prelude.{◌≡◌};
ghost use Rattle.uefi_result.specs.Errors.{told, told_err};
ghost use Rattle.uefi_file.specs.Infos.{info_at, needed};

use uefi_info::{FileInfo, from_uefi};
use uefi_result::{Error, Status};
use uefi_types::Align;

// The header of the record of which the first bytes of a buffer were written, as `from_uefi` takes them.
pub(super) fn header(buffer: &[u8], written: usize) -> Result<FileInfo, Error<Option<usize>>>
    ensures { info_at buffer.now written ≡ told_err result }
{
    Ok(from_uefi::<FileInfo>(buffer, written)?.header)
}

// A refusal with the length that it asks for, padded as a record is.
pub(super) fn with_needed(error: Error<usize>) -> Error<Option<usize>>
    ensures { (error.status.0, needed error.status.0 error.«data») ≡ told result }
{
    let needed = if error.status() == Status::BUFFER_TOO_SMALL {
        FileInfo::round_up_to_alignment(*error.data())
    } else {
        None
    };
    error.with_data(needed)
}
