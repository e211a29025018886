// Directories: their entries, one by one.
ghost use Rattle.std.specs.Prelude.{◌≡◌, false, Ok};
ghost use Rattle.uefi_result.specs.Errors.{told_err};
ghost use Rattle.volume.specs.Scripts.{Runs, done};
ghost use Rattle.uefi_file.specs.Boxes.{expected_in, fetching_entry, end_in, boxing_entry};
ghost use Rattle.uefi_file.specs.Handles.{by_status};
ghost use Rattle.uefi_file.specs.Infos.{entry_at, reading_entry};

use super::file::File;
use super::handle::{Directory, FileHandle};
use super::info::{header, with_needed};
use super::util::{FetchData, make_boxed};
use uefi_info::FileInfo;
use uefi_result::{Error, Status};
use volume::Volume;

// The entry of which the first bytes of a buffer were written: no bytes are the directory's end.
fn entry(buffer: &[u8], written: usize) -> Result<Option<FileInfo>, Error<Option<usize>>>
    ensures { entry_at buffer.now written ≡ told_err result }
{
    if written == 0 {
        return Ok(None);
    }
    header(buffer, written).map(Some)
}

// An entry that has to be there; none is UNSUPPORTED.
fn expected(found: Option<FileInfo>) -> Result<FileInfo, Error<Option<usize>>>
    ensures { expected_in (Ok found) ≡ told_err result }
{
    found.ok_or(Error::new(Status::UNSUPPORTED, None).unwrap())
}

// Whether a look at a directory found its end.
fn is_end(look: &Result<Option<FileInfo>, Error<Option<usize>>>) -> bool
    ensures { result ≡ end_in (told_err look.now) }
{
    matches!(look, Ok(None))
}

impl Directory {
    // The next entry, or none at the directory's end. Its record is fetched into a buffer.
    pub fn read_entry<V: Volume>(
        &self,
        v: &mut V,
        buffer: &mut [u8],
    ) -> Result<Option<FileInfo>, Error<Option<usize>>>
        ensures { Runs (reading_entry self.now.handle.number buffer.old) (V.Volume.meaning v.old) (told_err result, buffer.new) (V.Volume.meaning v.new) }
    {
        let written = v.read(self.handle.number, buffer).map_err(with_needed)?;
        entry(buffer, written)
    }

    // The next entry, or none at the directory's end, fetched in two calls after one that looks for the end.
    pub fn read_entry_boxed<V: Volume>(
        &self,
        v: &mut V,
        buffer: &mut [u8],
    ) -> Result<Option<FileInfo>, Error>
        ensures { Runs (boxing_entry self.now.handle.number buffer.old) (V.Volume.meaning v.old) (by_status result, buffer.new) (V.Volume.meaning v.new) }
    {
        let look = self.read_entry(v, &mut []);
        if is_end(&look) {
            return Ok(None);
        }
        make_boxed(self, v, buffer).map(Some)
    }
}

impl File for Directory {
    ghost handle = { λ d. d.handle };

    ghost asking = { λ _. done (Ok false) };

    fn handle(&self) -> &FileHandle {
        &self.handle
    }

    fn into_handle(self) -> FileHandle {
        let Directory { handle } = self;
        handle
    }

    // Its type says so, and no call is needed.
    fn is_regular_file<V: Volume>(&self, _v: &mut V) -> Result<bool, Error> {
        Ok(false)
    }
}

impl FetchData for Directory {
    ghost fetching = { λ d. fetching_entry d.handle.number };

    fn fetch<V: Volume>(
        &self,
        v: &mut V,
        buffer: &mut [u8],
    ) -> Result<FileInfo, Error<Option<usize>>> {
        expected(self.read_entry(v, buffer)?)
    }
}
