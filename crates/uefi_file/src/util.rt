// Records fetched in two calls: the first, with an empty buffer, learns the length.
ghost use Rattle.std.specs.Prelude.{◌≡◌, ℕ, ◌≤◌, List, IfSome};
ghost use Rattle.uefi_info.specs.declared.file_info.FileInfo.{FileInfo};
ghost use Rattle.uefi_result.specs.Errors.{told_err};
ghost use Rattle.volume.specs.Scripts.{Script, Runs};
ghost use Rattle.uefi_file.specs.Boxes.{size_in, padded_in, boxing};
ghost use Rattle.uefi_file.specs.Handles.{by_status};
ghost use Rattle.uefi_file.specs.Infos.{Fetched, fetching_info};

use super::error::without_payload;
use super::file::File;
use super::handle::FileHandle;
use uefi_info::FileInfo;
use uefi_result::{Error, Status};
use uefi_types::Align;
use volume::Volume;

// Something that fetches a record into a buffer. It stands for the Rust's closure, of which `make_boxed` would need a `requires`.
pub trait FetchData {
    ghost fetching: { Self → List ℕ → Script (Fetched FileInfo) };

    fn fetch<V: Volume>(
        &self,
        v: &mut V,
        buffer: &mut [u8],
    ) -> Result<FileInfo, Error<Option<usize>>>
        ensures { Runs (fetching self.now buffer.old) (V.Volume.meaning v.old) (told_err result, buffer.new) (V.Volume.meaning v.new) };
}

impl FetchData for FileHandle {
    ghost fetching = { λ h. fetching_info h.number };

    fn fetch<V: Volume>(
        &self,
        v: &mut V,
        buffer: &mut [u8],
    ) -> Result<FileInfo, Error<Option<usize>>> {
        self.get_info(v, buffer)
    }
}

// The length that a fetch with an empty buffer asks for.
fn required_size(fetched: Result<FileInfo, Error<Option<usize>>>) -> Result<usize, Error>
    ensures { size_in (told_err fetched) ≡ by_status result }
{
    match fetched {
        Ok(_) => Err(Error::new(Status::UNSUPPORTED, ()).unwrap()),
        Err(error) => match (error.status(), *error.data()) {
            (Status::BUFFER_TOO_SMALL, Some(size)) if size > 0 => Ok(size),
            _ => Err(error.to_err_without_payload()),
        },
    }
}

// A record's length with its padding, if a buffer has so many bytes.
fn padded(size: usize, len: usize) -> Option<usize>
    ensures value { result ≡ padded_in size len }
    ensures within { IfSome result (λ n. n ≤ len) }
{
    FileInfo::round_up_to_alignment(size).filter(|padded| *padded <= len)
}

// Fetches a record in two calls. A buffer that is too short for it is want of memory.
pub fn make_boxed<F: FetchData, V: Volume>(
    fetch: &F,
    v: &mut V,
    buffer: &mut [u8],
) -> Result<FileInfo, Error>
    ensures { Runs (boxing (F.FetchData.fetching fetch.now) buffer.old) (V.Volume.meaning v.old) (by_status result, buffer.new) (V.Volume.meaning v.new) }
{
    let size = required_size(fetch.fetch(v, &mut []))?;
    let len = padded(size, buffer.len()).ok_or(Error::new(Status::OUT_OF_RESOURCES, ()).unwrap())?;
    without_payload(fetch.fetch(v, &mut buffer[..len]))
}
